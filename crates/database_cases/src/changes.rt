//! Changes of disks that lie under a name.
//!
//! `byte NAME PLACE VALUE` sets a byte, `bytes NAME PLACE BYTES` several (`bytes`). `replace NAME PLACE SIZE BYTES by BYTES`
//! sets them wherever the first stand among so many bytes from that place on, which is once at least. `cut NAME SIZE` makes
//! a disk of that size with the same first bytes in its place, and `zeros NAME SIZE` a disk of zeros.
ghost use Rattle.std.specs.Prelude.{◌≡◌, ◌<◌, length, IfOk};

use crate::bytes::bytes_of;
use anyhow::bail;
use case_text::first_word;
use disk_io::Disk;
use outside::Outside;
use std::alloc::Global;

/// What stood at a place of a disk.
#[derive(Drop)]
pub struct Former {
    name: String,
    at: u64,
    bytes: Vec<u8>,
}

// So many zeros.
fn zeros(alloc: Global, size: usize) -> anyhow::Result<Vec<u8>>
    ensures { IfOk result (λ bytes. length bytes.items ≡ size) }
{
    Ok(vec![in alloc; 0; size]?)
}

// Writes over what is there, and syncs.
fn overwrite<D: Disk>(disk: &mut D, at: u64, bytes: &[u8]) -> anyhow::Result<()> {
    let size = disk.size();
    let length = bytes.len() as u64;
    if at > size || length > size - at {
        bail!("no such place on the disk");
    }
    if disk.write_at(at, bytes).is_err() || disk.sync().is_err() {
        bail!("a fault of the disk");
    }
    Ok(())
}

// So many bytes of a disk, from that place on.
fn part<D: Disk>(alloc: Global, disk: &mut D, at: u64, length: usize) -> anyhow::Result<Vec<u8>> {
    let size = disk.size();
    if at > size || length as u64 > size - at {
        bail!("no such place on the disk");
    }
    let mut bytes = zeros(alloc, length)?;
    if disk.read(at, &mut bytes).is_err() {
        bail!("a fault of the disk");
    }
    Ok(bytes)
}

// Writes over what is there, and gives that.
fn exchange<D: Disk>(
    alloc: Global,
    disk: &mut D,
    at: u64,
    bytes: &[u8],
) -> anyhow::Result<Vec<u8>> {
    let former = part(alloc, disk, at, bytes.len())?;
    overwrite(disk, at, bytes)?;
    Ok(former)
}

// The disk under a name.
fn opened<O: Outside>(alloc: Global, outside: &mut O, name: &str) -> anyhow::Result<O::Disk> {
    match outside.open_disk(alloc, name) {
        Ok(disk) => Ok(disk),
        Err(_) => bail!("no such disk"),
    }
}

fn close<O: Outside>(outside: &mut O, disk: O::Disk) -> anyhow::Result<()> {
    if outside.close_disk(disk).is_err() {
        bail!("a fault of the disk");
    }
    Ok(())
}

// Sets bytes, and gives what stood there.
fn set_bytes<O: Outside>(
    alloc: Global,
    outside: &mut O,
    name: &str,
    at: u64,
    bytes: &[u8],
) -> anyhow::Result<Former> {
    let mut disk = opened(alloc, outside, name)?;
    let former = exchange(alloc, &mut disk, at, bytes);
    close(outside, disk)?;
    Ok(Former {
        name: String::from_str(alloc, name)?,
        at,
        bytes: former?,
    })
}

fn read_part<O: Outside>(
    alloc: Global,
    outside: &mut O,
    name: &str,
    at: u64,
    length: usize,
) -> anyhow::Result<Vec<u8>> {
    let mut disk = opened(alloc, outside, name)?;
    let read = part(alloc, &mut disk, at, length);
    close(outside, disk)?;
    read
}

// A new disk of that size, which begins with these bytes.
fn make<O: Outside>(
    alloc: Global,
    outside: &mut O,
    name: &str,
    size: u64,
    bytes: &[u8],
) -> anyhow::Result<()> {
    let mut disk = match outside.make_disk(alloc, name, size) {
        Ok(disk) => disk,
        Err(_) => bail!("no disk was made"),
    };
    let written = overwrite(&mut disk, 0, bytes);
    close(outside, disk)?;
    written
}

// The first bytes of a disk, as many as there are of so many.
fn first_bytes<D: Disk>(alloc: Global, disk: &mut D, size: u64) -> anyhow::Result<Vec<u8>> {
    let all = disk.size();
    let length = if size < all { size } else { all };
    part(alloc, disk, 0, length as usize)
}

fn read_first<O: Outside>(
    alloc: Global,
    outside: &mut O,
    name: &str,
    size: u64,
) -> anyhow::Result<Vec<u8>> {
    let mut disk = opened(alloc, outside, name)?;
    let read = first_bytes(alloc, &mut disk, size);
    close(outside, disk)?;
    read
}

fn cut<O: Outside>(alloc: Global, outside: &mut O, name: &str, size: u64) -> anyhow::Result<()> {
    let bytes = read_first(alloc, outside, name, size)?;
    make(alloc, outside, name, size, &bytes)
}

/// Makes a disk under a name that has what another one has.
///
/// # Errors
///
/// Where a disk fails, or memory is wanting.
pub fn copy_disk<O: Outside, D: Disk>(
    alloc: Global,
    outside: &mut O,
    name: &str,
    disk: &mut D,
) -> anyhow::Result<()> {
    let size = disk.size();
    let bytes = first_bytes(alloc, disk, size)?;
    make(alloc, outside, name, size, &bytes)
}

// The places at which some bytes stand.
fn places_of(alloc: Global, bytes: &[u8], wanted: &[u8]) -> anyhow::Result<Vec<u64>>
    requires { 0 < length wanted.now }
{
    let mut places = Vec::new(alloc);
    let mut at = 0u64;
    for window in bytes.windows(wanted.len()) {
        if window == wanted {
            places.push(at)?;
        }
        at = at.saturating_add(1);
    }
    Ok(places)
}

// Sets bytes wherever others stand among so many from a place on.
fn replace_in<O: Outside>(
    alloc: Global,
    outside: &mut O,
    name: &str,
    from: u64,
    length: usize,
    texts: &str,
) -> anyhow::Result<()> {
    let Some((wanted, by)) = texts.split_once(" by ") else {
        bail!("nothing in place of the bytes")
    };
    let wanted = bytes_of(alloc, wanted)?;
    let by = bytes_of(alloc, by)?;
    if wanted.is_empty() {
        bail!("no bytes to replace");
    }
    let bytes = read_part(alloc, outside, name, from, length)?;
    let places = places_of(alloc, &bytes, &wanted)?;
    if places.is_empty() {
        bail!("the bytes stand nowhere");
    }
    for place in &places {
        set_bytes(alloc, outside, name, from.saturating_add(*place), &by)?;
    }
    Ok(())
}

fn replace<O: Outside>(
    alloc: Global,
    outside: &mut O,
    name: &str,
    rest: &str,
) -> anyhow::Result<()> {
    let (from, rest) = first_word(rest);
    let (length, texts) = first_word(rest);
    replace_in(
        alloc,
        outside,
        name,
        from.parse::<u64>()?,
        length.parse::<usize>()?,
        texts,
    )
}

fn set_at<O: Outside>(
    alloc: Global,
    outside: &mut O,
    name: &str,
    rest: &str,
) -> anyhow::Result<Former> {
    let (place, bytes) = first_word(rest);
    let bytes = bytes_of(alloc, bytes)?;
    set_bytes(alloc, outside, name, place.parse::<u64>()?, &bytes)
}

fn set_one<O: Outside>(
    alloc: Global,
    outside: &mut O,
    name: &str,
    rest: &str,
) -> anyhow::Result<Former> {
    let (place, value) = first_word(rest);
    let byte = value.parse::<u8>()?;
    set_bytes(alloc, outside, name, place.parse::<u64>()?, &[byte])
}

/// Makes a change, and gives what stood there where it sets bytes at a place.
///
/// # Errors
///
/// Where it has none of these forms or can't be made, or memory is wanting.
pub fn change<O: Outside>(
    alloc: Global,
    outside: &mut O,
    text: &str,
) -> anyhow::Result<Option<Former>> {
    let (kind, rest) = first_word(text);
    let (name, rest) = first_word(rest);
    match kind {
        "byte" => return Ok(Some(set_one(alloc, outside, name, rest)?)),
        "bytes" => return Ok(Some(set_at(alloc, outside, name, rest)?)),
        "replace" => replace(alloc, outside, name, rest)?,
        "cut" => cut(alloc, outside, name, rest.parse::<u64>()?)?,
        "zeros" => make(alloc, outside, name, rest.parse::<u64>()?, &[])?,
        _ => bail!("no such change"),
    }
    Ok(None)
}

/// Makes changes with `; ` between them, or none where there is `nothing`. What stood where they set bytes is added, and it says
/// whether that takes all of them back.
///
/// # Errors
///
/// Where one has none of these forms or can't be made, or memory is wanting.
pub fn change_all<O: Outside>(
    alloc: Global,
    outside: &mut O,
    texts: &str,
    formers: &mut Vec<Former>,
) -> anyhow::Result<bool> {
    let mut are_kept = true;
    if texts != "nothing" {
        for text in texts.split("; ") {
            match change(alloc, outside, text)? {
                Some(former) => formers.push(former)?,
                None => are_kept = false,
            }
        }
    }
    Ok(are_kept)
}

/// Takes changes back, the latest first.
///
/// # Errors
///
/// Where one can't be made, or memory is wanting.
pub fn take_back<O: Outside>(
    alloc: Global,
    outside: &mut O,
    formers: &[Former],
) -> anyhow::Result<()> {
    for former in formers.iter().rev() {
        set_bytes(
            alloc,
            outside,
            former.name.as_str(),
            former.at,
            &former.bytes,
        )?;
    }
    Ok(())
}
