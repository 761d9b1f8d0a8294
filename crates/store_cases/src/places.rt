//! Values under places, put in without memory.
//!
//! A key and a value are texts between quotes, with escapes. `room COUNT` makes room, and `spare` answers how much there is.
//! `put INDEX KEY VALUE` puts a value under a new place, `set INDEX KEY VALUE` under one that is there and answers the old
//! value, `take INDEX KEY` takes one out and answers it or `none`. `get INDEX KEY` answers the value or `none`, `at INDEX
//! KEY` and `after INDEX KEY` the first place there, and `all` the first nine places with their values, or `nothing`. `many
//! COUNT` makes room for so many places and puts them in, in scattered order, and `drain COUNT` takes them out in rising
//! order; both answer how many were found.
use crate::maps::{bytes_at, write_done, write_text};
use anyhow::bail;
use case_text::{all_words, first_word, short_number_at, write_number};
use iv_types::Bytes;
use spare_map::SpareMap;
use std::alloc::Global;
use std::mem::{forget, replace};

/// The map, once it is made.
#[derive(Drop)]
pub struct Places {
    map: SpareMap<Bytes>,
}

fn slice_of(value: Option<&Bytes>) -> Option<&[u8]> {
    match value {
        Some(value) => Some(value.as_slice()),
        None => None,
    }
}

fn write_value(out: &mut String, value: Option<&[u8]>) -> anyhow::Result<()> {
    match value {
        Some(value) => write_text(out, value),
        None => {
            out.push_str("none")?;
            Ok(())
        }
    }
}

fn write_place(out: &mut String, place: Option<(u32, &[u8])>) -> anyhow::Result<()> {
    match place {
        Some((index, key)) => {
            write_number(out, i128::from(index))?;
            out.push(' ')?;
            write_text(out, key)
        }
        None => write_value(out, None),
    }
}

fn put(map: &mut SpareMap<Bytes>, index: u32, key: Bytes, value: Bytes) -> anyhow::Result<()> {
    if map.room() == 0 {
        bail!("no room");
    }
    if map.get(index, key.as_slice()).is_some() {
        bail!("a place that is there");
    }
    map.insert(index, key, value);
    Ok(())
}

fn set(
    out: &mut String,
    map: &mut SpareMap<Bytes>,
    index: u32,
    key: &[u8],
    value: Bytes,
) -> anyhow::Result<()> {
    if map.get(index, key).is_none() {
        bail!("no such place");
    }
    let old = map.replace(index, key, value);
    write_text(out, old.as_slice())
}

fn take(
    alloc: Global,
    out: &mut String,
    map: &mut SpareMap<Bytes>,
    index: u32,
    key: &[u8],
) -> anyhow::Result<()> {
    match map.remove(alloc, index, key) {
        Some(value) => write_text(out, value.as_slice()),
        None => write_value(out, None),
    }
}

// The key of a number: the two bytes of where it is scattered to.
fn key_of(alloc: Global, number: u32) -> anyhow::Result<Bytes> {
    let scattered = ((number % 65_536) as u16).wrapping_mul(40_503);
    Ok(Bytes::from_vec(Vec::from_slice(alloc, &scattered.to_be_bytes())?))
}

// Puts a number under itself.
fn put_one(alloc: Global, map: &mut SpareMap<Bytes>, number: u32) -> anyhow::Result<()> {
    let key = key_of(alloc, number)?;
    put(map, 1, key, key_of(alloc, number)?)
}

// Whether a number stands under itself.
fn is_there(alloc: Global, map: &SpareMap<Bytes>, number: u32) -> anyhow::Result<bool> {
    let key = key_of(alloc, number)?;
    Ok(map.get(1, key.as_slice()) == Some(&key))
}

// Puts so many numbers under themselves, in scattered order, and counts those that are found.
fn put_many(alloc: Global, map: &mut SpareMap<Bytes>, count: u32) -> anyhow::Result<u32> {
    map.reserve(alloc, count as usize)?;
    for number in 0..count {
        put_one(alloc, map, number)?;
    }
    let mut found = 0u32;
    for number in 0..count {
        if is_there(alloc, map, number)? {
            found = found.saturating_add(1);
        }
    }
    Ok(found)
}

// Takes the first place out, and says whether it was there.
fn take_first(alloc: Global, map: &mut SpareMap<Bytes>) -> anyhow::Result<bool> {
    let Some((_, key)) = map.first_at(1, &[]) else {
        return Ok(false);
    };
    let first = Bytes::from_vec(Vec::from_slice(alloc, key)?);
    Ok(map.remove(alloc, 1, first.as_slice()).is_some())
}

// Takes out so many places in rising order, and counts them.
fn drain(alloc: Global, map: &mut SpareMap<Bytes>, count: u32) -> anyhow::Result<u32> {
    let mut found = 0u32;
    for _ in 0..count {
        if take_first(alloc, map)? {
            found = found.saturating_add(1);
        }
    }
    Ok(found)
}

// Writes a place and its value.
fn write_one(
    out: &mut String,
    map: &SpareMap<Bytes>,
    index: u32,
    key: &[u8],
) -> anyhow::Result<()> {
    write_place(out, Some((index, key)))?;
    out.push(' ')?;
    write_value(out, slice_of(map.get(index, key)))
}

fn write_all(out: &mut String, map: &SpareMap<Bytes>) -> anyhow::Result<()> {
    let mut place = map.first_at(0, &[]);
    if place.is_none() {
        out.push_str("nothing")?;
    }
    let mut before = "";
    for _ in 0..9 {
        let Some((index, key)) = place else {
            break;
        };
        out.push_str(before)?;
        before = ", ";
        write_one(out, map, index, key)?;
        place = map.first_after(index, key);
    }
    Ok(())
}

fn put_at(
    alloc: Global,
    out: &mut String,
    map: &mut SpareMap<Bytes>,
    words: &[&str],
) -> anyhow::Result<()> {
    let index = short_number_at(words, 0)?;
    let key = bytes_at(alloc, words, 1)?;
    put(map, index, key, bytes_at(alloc, words, 2)?)?;
    write_done(out)
}

fn set_at(
    alloc: Global,
    out: &mut String,
    map: &mut SpareMap<Bytes>,
    words: &[&str],
) -> anyhow::Result<()> {
    let index = short_number_at(words, 0)?;
    let key = bytes_at(alloc, words, 1)?;
    set(out, map, index, key.as_slice(), bytes_at(alloc, words, 2)?)
}

fn take_at(
    alloc: Global,
    out: &mut String,
    map: &mut SpareMap<Bytes>,
    words: &[&str],
) -> anyhow::Result<()> {
    let index = short_number_at(words, 0)?;
    let key = bytes_at(alloc, words, 1)?;
    take(alloc, out, map, index, key.as_slice())
}

// Writes what a call finds at one place.
fn write_found(
    out: &mut String,
    map: &SpareMap<Bytes>,
    call: &str,
    index: u32,
    key: &[u8],
) -> anyhow::Result<()> {
    match call {
        "at" => write_place(out, map.first_at(index, key)),
        "after" => write_place(out, map.first_after(index, key)),
        "get" => write_value(out, slice_of(map.get(index, key))),
        _ => bail!("no such call"),
    }
}

fn look(
    alloc: Global,
    out: &mut String,
    map: &SpareMap<Bytes>,
    call: &str,
    words: &[&str],
) -> anyhow::Result<()> {
    let index = short_number_at(words, 0)?;
    let key = bytes_at(alloc, words, 1)?;
    write_found(out, map, call, index, key.as_slice())
}

// Makes a call on one place.
fn call_at(
    alloc: Global,
    out: &mut String,
    map: &mut SpareMap<Bytes>,
    call: &str,
    words: &[&str],
) -> anyhow::Result<()> {
    match call {
        "put" => put_at(alloc, out, map, words),
        "set" => set_at(alloc, out, map, words),
        "take" => take_at(alloc, out, map, words),
        _ => look(alloc, out, map, call, words),
    }
}

fn make_room(alloc: Global, map: &mut SpareMap<Bytes>, words: &[&str]) -> anyhow::Result<()> {
    map.reserve(alloc, short_number_at(words, 0)? as usize)?;
    Ok(())
}

// Makes a call on so many places, and tells what it counts.
fn count(
    alloc: Global,
    map: &mut SpareMap<Bytes>,
    call: &str,
    words: &[&str],
) -> anyhow::Result<u32> {
    let many = short_number_at(words, 0)?;
    match call {
        "many" => put_many(alloc, map, many),
        _ => drain(alloc, map, many),
    }
}

// Makes a call on all places.
fn call(
    alloc: Global,
    out: &mut String,
    map: &mut SpareMap<Bytes>,
    call: &str,
    words: &[&str],
) -> anyhow::Result<()> {
    match call {
        "spare" => write_number(out, map.room() as i128),
        "room" => {
            make_room(alloc, map, words)?;
            write_done(out)
        }
        "many" | "drain" => write_number(out, i128::from(count(alloc, map, call, words)?)),
        "all" => write_all(out, map),
        _ => call_at(alloc, out, map, call, words),
    }
}

impl Places {
    pub fn new() -> Places {
        Places {
            map: SpareMap::new(),
        }
    }

    /// Begins with a map without places and without room.
    pub fn begin(&mut self) {
        forget(replace(&mut self.map, SpareMap::new()));
    }

    pub fn answer(&mut self, alloc: Global, asked: &str) -> anyhow::Result<String> {
        let mut out = String::new(alloc);
        let (name, rest) = first_word(asked);
        let words = all_words(alloc, rest)?;
        call(alloc, &mut out, &mut self.map, name, &words)?;
        Ok(out)
    }
}
