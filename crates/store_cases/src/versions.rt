//! Versions of rows and of view rows by commit number.
//!
//! A key and a row are texts between quotes, with escapes; a row may be `none`, and a view row is its numbers, the count first,
//! with commas between them. `room COUNT` makes room, and `spare` answers how much there is, for rows and then for deltas.
//! `push NUMBER INDEX KEY ROW` pushes what stood there before, and `delta NUMBER VIEW GROUP NUMBERS` what was added. `at NUMBER
//! INDEX KEY ROW` and `was NUMBER VIEW GROUP NUMBERS` answer what stood there at the number, where this stands there now. `empty`
//! and `from` with an index and a key answer for rows, `idle` and `next` for deltas. `prune NUMBER` prunes both. `many COUNT`
//! pushes so many versions of so many scattered keys, one a number, and answers of how many the first is right.
use crate::maps::{bytes_at, write_done, write_text};
use anyhow::bail;
use byteorder::{BigEndian, ByteOrder};
use case_text::{
    all_words, first_word, number_at, number_of, short_number_at, word_at, write_number,
};
use iv_types::{Bytes, GroupDelta, NumberList};
use std::alloc::Global;
use std::mem::{forget, replace};
use version_chain::{DeltaChains, RowChains, Version};

/// The chains, once they are made.
#[derive(Drop)]
pub struct Versions {
    rows: RowChains,
    deltas: DeltaChains,
}

// The row of a word, if it is one.
fn row_at(alloc: Global, words: &[&str], place: usize) -> anyhow::Result<Option<Bytes>> {
    if word_at(words, place)? == "none" {
        return Ok(None);
    }
    Ok(Some(bytes_at(alloc, words, place)?))
}

// The numbers of a word.
fn numbers_at(alloc: Global, words: &[&str], place: usize) -> anyhow::Result<Vec<i128>> {
    let mut found = Vec::new(alloc);
    for part in word_at(words, place)?.split(',') {
        found.push(number_of(part)?)?;
    }
    Ok(found)
}

fn write_row(out: &mut String, row: Option<&[u8]>) -> anyhow::Result<()> {
    match row {
        Some(row) => write_text(out, row),
        None => {
            out.push_str("none")?;
            Ok(())
        }
    }
}

// The bytes of a view row: 16 for each number.
fn view_row_at(alloc: Global, words: &[&str], place: usize) -> anyhow::Result<Option<Bytes>> {
    if word_at(words, place)? == "none" {
        return Ok(None);
    }
    let numbers = numbers_at(alloc, words, place)?;
    let mut bytes = Vec::new(alloc);
    for number in &numbers {
        bytes.extend_from_slice(&number.to_be_bytes())?;
    }
    Ok(Some(Bytes::from_vec(bytes)))
}

fn write_view_row(out: &mut String, row: Option<&[u8]>) -> anyhow::Result<()> {
    let Some(row) = row else {
        return write_row(out, None);
    };
    let mut rest = row;
    let mut is_first = true;
    while rest.len() >= 16 {
        out.push_str(if is_first { "" } else { "," })?;
        is_first = false;
        write_number(out, BigEndian::read_i128(rest))?;
        rest = &rest[16..];
    }
    Ok(())
}

// Pushes a version, if there is room.
fn push_version(rows: &mut RowChains, number: u64, change: Version) -> anyhow::Result<()> {
    if rows.room() == 0 {
        bail!("no room");
    }
    rows.push(number, change);
    Ok(())
}

fn push(alloc: Global, rows: &mut RowChains, words: &[&str]) -> anyhow::Result<()> {
    let number = number_at(words, 0)?;
    let index = short_number_at(words, 1)?;
    let key = bytes_at(alloc, words, 2)?;
    let before = row_at(alloc, words, 3)?;
    push_version(rows, number, Version { index, key, before })
}

// Pushes a delta, if there is room.
fn push_delta(deltas: &mut DeltaChains, number: u64, change: GroupDelta) -> anyhow::Result<()> {
    if deltas.room() == 0 {
        bail!("no room");
    }
    deltas.push(number, change);
    Ok(())
}

// The count and the sums of a word.
fn count_and_sums(alloc: Global, words: &[&str], place: usize) -> anyhow::Result<(i8, NumberList)> {
    let numbers = numbers_at(alloc, words, place)?;
    let Some((count, sums)) = numbers.split_first() else {
        bail!("no count");
    };
    let count = i8::try_from(*count)?;
    Ok((count, NumberList::from_vec(Vec::from_slice(alloc, sums)?)))
}

fn add(alloc: Global, deltas: &mut DeltaChains, words: &[&str]) -> anyhow::Result<()> {
    let number = number_at(words, 0)?;
    let view = short_number_at(words, 1)?;
    let group = bytes_at(alloc, words, 2)?;
    let (count, sums) = count_and_sums(alloc, words, 3)?;
    let change = GroupDelta {
        view,
        group,
        count,
        sums,
    };
    push_delta(deltas, number, change)
}

fn slice_of(row: &Option<Bytes>) -> Option<&[u8]> {
    match row {
        Some(row) => Some(row.as_slice()),
        None => None,
    }
}

fn row_then(
    alloc: Global,
    rows: &RowChains,
    number: u64,
    index: u32,
    key: &[u8],
    now: Option<&[u8]>,
) -> anyhow::Result<Option<Bytes>> {
    if number < rows.pruned() {
        bail!("a number that was pruned");
    }
    Ok(rows.at(alloc, number, index, key, now)?)
}

fn view_row_then(
    alloc: Global,
    deltas: &DeltaChains,
    number: u64,
    view: u32,
    group: &[u8],
    now: Option<&[u8]>,
) -> anyhow::Result<Option<Bytes>> {
    if number < deltas.pruned() {
        bail!("a number that was pruned");
    }
    Ok(deltas.at(alloc, number, view, group, now)?)
}

// The key of a number: the two bytes of where it is scattered to.
fn scattered(number: u32) -> [u8; 2] {
    ((number % 65_536) as u16)
        .wrapping_mul(40_503)
        .to_be_bytes()
}

// Pushes a version of a number's key, with the key as its row, one behind the number.
fn push_one(alloc: Global, rows: &mut RowChains, number: u32) -> anyhow::Result<()> {
    let bytes = scattered(number);
    let key = Bytes::from_vec(Vec::from_slice(alloc, &bytes)?);
    let before = Bytes::from_vec(Vec::from_slice(alloc, &bytes)?);
    let change = Version {
        index: 1,
        key,
        before: Some(before),
    };
    push_version(rows, u64::from(number) + 1, change)
}

// Whether a key's version is found at its number, and not behind it.
fn is_right(alloc: Global, rows: &RowChains, number: u32) -> anyhow::Result<bool> {
    let key = scattered(number);
    let before = row_then(alloc, rows, u64::from(number), 1, &key, None)?;
    let after = row_then(alloc, rows, u64::from(number) + 1, 1, &key, None)?;
    Ok(slice_of(&before) == Some(&key) && after.is_none())
}

// Pushes so many versions, and counts those that are found at the number before theirs and not at theirs.
fn push_many(alloc: Global, rows: &mut RowChains, count: u32) -> anyhow::Result<u32> {
    rows.reserve(alloc, count)?;
    for number in 0..count {
        push_one(alloc, rows, number)?;
    }
    let mut found = 0u32;
    for number in 0..count {
        if is_right(alloc, rows, number)? {
            found = found.saturating_add(1);
        }
    }
    Ok(found)
}

fn write_is(out: &mut String, is_so: bool) -> anyhow::Result<()> {
    out.push_str(if is_so { "yes" } else { "no" })?;
    Ok(())
}

// Writes what a call on the chains of rows or of deltas finds at one place.
fn write_found(
    out: &mut String,
    versions: &Versions,
    call: &str,
    index: u32,
    key: &[u8],
) -> anyhow::Result<()> {
    match call {
        "empty" => write_is(out, versions.rows.is_empty(index, key)),
        "idle" => write_is(out, versions.deltas.is_empty(index, key)),
        "from" => write_row(out, versions.rows.first_from(index, key)),
        "next" => write_row(out, versions.deltas.first_from(index, key)),
        _ => bail!("no such call"),
    }
}

fn look(
    alloc: Global,
    out: &mut String,
    versions: &Versions,
    call: &str,
    words: &[&str],
) -> anyhow::Result<()> {
    let index = short_number_at(words, 0)?;
    let key = bytes_at(alloc, words, 1)?;
    write_found(out, versions, call, index, key.as_slice())
}

// Writes the row that stood at a place.
fn write_then(
    alloc: Global,
    out: &mut String,
    rows: &RowChains,
    words: &[&str],
) -> anyhow::Result<()> {
    let number = number_at(words, 0)?;
    let index = short_number_at(words, 1)?;
    let key = bytes_at(alloc, words, 2)?;
    let now = row_at(alloc, words, 3)?;
    let row = row_then(alloc, rows, number, index, key.as_slice(), slice_of(&now))?;
    write_row(out, slice_of(&row))
}

// Writes the view row that stood at a place.
fn write_view_then(
    alloc: Global,
    out: &mut String,
    deltas: &DeltaChains,
    words: &[&str],
) -> anyhow::Result<()> {
    let number = number_at(words, 0)?;
    let view = short_number_at(words, 1)?;
    let group = bytes_at(alloc, words, 2)?;
    let now = view_row_at(alloc, words, 3)?;
    let row = view_row_then(
        alloc,
        deltas,
        number,
        view,
        group.as_slice(),
        slice_of(&now),
    )?;
    write_view_row(out, slice_of(&row))
}

// Writes how much room there is, for rows and then for deltas.
fn write_room(out: &mut String, versions: &Versions) -> anyhow::Result<()> {
    write_number(out, i128::from(versions.rows.room()))?;
    out.push(' ')?;
    write_number(out, i128::from(versions.deltas.room()))
}

// Pushes as many versions as the words say, and writes how many are right.
fn write_many(
    alloc: Global,
    out: &mut String,
    rows: &mut RowChains,
    words: &[&str],
) -> anyhow::Result<()> {
    let found = push_many(alloc, rows, short_number_at(words, 0)?)?;
    write_number(out, i128::from(found))
}

// Makes a call.
fn call(
    alloc: Global,
    out: &mut String,
    versions: &mut Versions,
    call: &str,
    words: &[&str],
) -> anyhow::Result<()> {
    match call {
        "at" => write_then(alloc, out, &versions.rows, words),
        "was" => write_view_then(alloc, out, &versions.deltas, words),
        "spare" => write_room(out, versions),
        "many" => write_many(alloc, out, &mut versions.rows, words),
        "room" | "push" | "delta" | "prune" => {
            change(alloc, versions, call, words)?;
            write_done(out)
        }
        _ => look(alloc, out, versions, call, words),
    }
}

fn make_room(alloc: Global, versions: &mut Versions, words: &[&str]) -> anyhow::Result<()> {
    let more = short_number_at(words, 0)?;
    versions.rows.reserve(alloc, more)?;
    versions.deltas.reserve(alloc, more)?;
    Ok(())
}

fn prune(alloc: Global, versions: &mut Versions, words: &[&str]) -> anyhow::Result<()> {
    let oldest = number_at(words, 0)?;
    versions.rows.prune(alloc, oldest);
    versions.deltas.prune(alloc, oldest);
    Ok(())
}

// Makes a call that answers nothing.
fn change(
    alloc: Global,
    versions: &mut Versions,
    call: &str,
    words: &[&str],
) -> anyhow::Result<()> {
    match call {
        "push" => push(alloc, &mut versions.rows, words),
        "delta" => add(alloc, &mut versions.deltas, words),
        "prune" => prune(alloc, versions, words),
        _ => make_room(alloc, versions, words),
    }
}

impl Versions {
    pub fn new() -> Versions {
        Versions {
            rows: RowChains::new(),
            deltas: DeltaChains::new(),
        }
    }

    /// Begins with chains without versions and without room.
    pub fn begin(&mut self) {
        forget(replace(&mut self.rows, RowChains::new()));
        forget(replace(&mut self.deltas, DeltaChains::new()));
    }

    pub fn answer(&mut self, alloc: Global, asked: &str) -> anyhow::Result<String> {
        let mut out = String::new(alloc);
        let (name, rest) = first_word(asked);
        let words = all_words(alloc, rest)?;
        call(alloc, &mut out, self, name, &words)?;
        Ok(out)
    }
}
