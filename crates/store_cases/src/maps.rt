//! Sorted maps as lists in memory, under tables.
//!
//! A key and a value are texts between quotes, with escapes. `put INDEX KEY VALUE` sets the value under a key, and `take
//! INDEX KEY` takes an entry away; `room INDEX COUNT` makes room, and `fill INDEX KEY VALUE KEY VALUE` makes room for one
//! entry, then for two, and adds two new ones. `get INDEX KEY` answers the value or `none`, `at INDEX KEY` and `after INDEX
//! KEY` the first entry there, `all INDEX` the first nine entries or `nothing`, and `used` what all entries count.
ghost use Rattle.std.specs.Prelude.{◌≤◌, ◌+◌, OnOk};
ghost use Rattle.table_store.specs.Lists.{spare_at};

use anyhow::bail;
use case_text::{
    all_words, first_word, short_number_at, unescaped, word_at, write_escaped, write_number,
};
use iv_types::{Bytes, SortedMaps};
use std::alloc::Global;
use std::mem::{forget, replace};
use table_store::{ListMaps, Tables};

/// Tables over maps, once they are made.
#[derive(Drop)]
pub struct Maps {
    tables: Option<Tables<ListMaps>>,
}

/// The bytes of a text between quotes.
pub fn bytes_at(alloc: Global, words: &[&str], place: usize) -> anyhow::Result<Bytes> {
    let Some(quoted) = word_at(words, place)?.strip_prefix('\'') else {
        bail!("no text")
    };
    let Some(content) = quoted.strip_suffix('\'') else {
        bail!("no end of a text")
    };
    Ok(Bytes::from_vec(unescaped(alloc, content)?))
}

/// Writes bytes as a text between quotes.
pub fn write_text(out: &mut String, bytes: &[u8]) -> anyhow::Result<()> {
    out.push('\'')?;
    write_escaped(out, bytes)?;
    out.push('\'')?;
    Ok(())
}

/// Writes that a call was made that answers nothing.
pub fn write_done(out: &mut String) -> anyhow::Result<()> {
    out.push_str("done")?;
    Ok(())
}

fn write_found(out: &mut String, found: Option<(&[u8], &[u8])>) -> anyhow::Result<()> {
    match found {
        Some((key, value)) => {
            write_text(out, key)?;
            out.push(' ')?;
            write_text(out, value)
        }
        None => {
            out.push_str("none")?;
            Ok(())
        }
    }
}

fn put(maps: &mut ListMaps, index: u32, key: Bytes, value: Bytes) -> anyhow::Result<()> {
    if index > 192 || key.as_slice().len() > 1024 || value.as_slice().len() > 2048 {
        bail!("more than maps hold");
    }
    if maps.get(index, key.as_slice()).is_some() {
        maps.replace(index, key.as_slice(), value);
        return Ok(());
    }
    maps.reserve(index, 1)?;
    maps.insert(index, key, value);
    Ok(())
}

fn take(maps: &mut ListMaps, index: u32, key: &[u8]) -> anyhow::Result<()> {
    if maps.get(index, key).is_none() {
        bail!("no such entry");
    }
    maps.remove(index, key);
    Ok(())
}

// Puts an entry under a key that is not there, into room that was made.
fn add(maps: &mut ListMaps, index: u32, key: Bytes, value: Bytes) -> anyhow::Result<()>
    requires { 1 ≤ spare_at maps.old index }
    ensures { OnOk result (spare_at maps.old index ≤ spare_at maps.new index + 1) }
{
    if index > 192 || key.as_slice().len() > 1024 || value.as_slice().len() > 2048 {
        bail!("more than maps hold");
    }
    if maps.get(index, key.as_slice()).is_some() {
        bail!("an entry that is there");
    }
    maps.insert(index, key, value);
    Ok(())
}

// The same of the key and the value at two places of the words.
fn add_at(
    alloc: Global,
    maps: &mut ListMaps,
    index: u32,
    words: &[&str],
    places: (usize, usize),
) -> anyhow::Result<()>
    requires { 1 ≤ spare_at maps.old index }
    ensures { OnOk result (spare_at maps.old index ≤ spare_at maps.new index + 1) }
{
    let key = bytes_at(alloc, words, places.0)?;
    add(maps, index, key, bytes_at(alloc, words, places.1)?)
}

// Makes room for one entry and then for two, and adds two.
fn fill(alloc: Global, maps: &mut ListMaps, index: u32, words: &[&str]) -> anyhow::Result<()> {
    maps.reserve(index, 1)?;
    maps.reserve(index, 2)?;
    add_at(alloc, maps, index, words, (1, 2))?;
    add_at(alloc, maps, index, words, (3, 4))
}

fn put_at(alloc: Global, maps: &mut ListMaps, index: u32, words: &[&str]) -> anyhow::Result<()> {
    let key = bytes_at(alloc, words, 1)?;
    put(maps, index, key, bytes_at(alloc, words, 2)?)
}

fn take_at(alloc: Global, maps: &mut ListMaps, index: u32, words: &[&str]) -> anyhow::Result<()> {
    take(maps, index, bytes_at(alloc, words, 1)?.as_slice())
}

// Makes a call that changes maps.
fn change(alloc: Global, maps: &mut ListMaps, call: &str, words: &[&str]) -> anyhow::Result<()> {
    let index = short_number_at(words, 0)?;
    match call {
        "put" => put_at(alloc, maps, index, words),
        "take" => take_at(alloc, maps, index, words),
        "room" => {
            maps.reserve(index, short_number_at(words, 1)?)?;
            Ok(())
        }
        "fill" => fill(alloc, maps, index, words),
        _ => bail!("no such call"),
    }
}

// Writes the first nine entries.
fn write_all(out: &mut String, maps: &ListMaps, index: u32) -> anyhow::Result<()> {
    let mut next = maps.first_at(index, &[]);
    if next.is_none() {
        out.push_str("nothing")?;
    }
    let mut before = "";
    for _ in 0..9 {
        let Some((key, value)) = next else {
            break;
        };
        out.push_str(before)?;
        before = ", ";
        write_found(out, Some((key, value)))?;
        next = maps.first_after(index, key);
    }
    Ok(())
}

fn write_value(out: &mut String, value: Option<&[u8]>) -> anyhow::Result<()> {
    match value {
        Some(value) => write_text(out, value),
        None => write_found(out, None),
    }
}

// Writes the entry that a call finds at or behind a key.
fn write_entry(
    out: &mut String,
    maps: &ListMaps,
    call: &str,
    index: u32,
    key: &[u8],
) -> anyhow::Result<()> {
    match call {
        "at" => write_found(out, maps.first_at(index, key)),
        "after" => write_found(out, maps.first_after(index, key)),
        _ => write_value(out, maps.get(index, key)),
    }
}

fn look(
    alloc: Global,
    out: &mut String,
    maps: &ListMaps,
    call: &str,
    words: &[&str],
) -> anyhow::Result<()> {
    let index = short_number_at(words, 0)?;
    let key = bytes_at(alloc, words, 1)?;
    write_entry(out, maps, call, index, key.as_slice())
}

// Makes a call with these words behind it.
fn call_by(
    alloc: Global,
    out: &mut String,
    tables: &mut Tables<ListMaps>,
    call: &str,
    words: &[&str],
) -> anyhow::Result<()> {
    match call {
        "used" => write_number(out, i128::from(tables.used())),
        "get" | "at" | "after" => look(alloc, out, tables.maps(), call, words),
        "all" => write_all(out, tables.maps(), short_number_at(words, 0)?),
        _ => {
            change(alloc, tables.maps_mut(), call, words)?;
            write_done(out)
        }
    }
}

fn call_maps(
    alloc: Global,
    out: &mut String,
    tables: &mut Tables<ListMaps>,
    asked: &str,
) -> anyhow::Result<()> {
    let (call, rest) = first_word(asked);
    let words = all_words(alloc, rest)?;
    call_by(alloc, out, tables, call, &words)
}

impl Maps {
    pub fn new() -> Maps {
        Maps { tables: None }
    }

    /// Begins with maps without entries.
    pub fn begin(&mut self, alloc: Global) -> anyhow::Result<()> {
        let tables = Tables::new(alloc, ListMaps::new(alloc)?)?;
        forget(replace(&mut self.tables, Some(tables)));
        Ok(())
    }

    pub fn answer(&mut self, alloc: Global, asked: &str) -> anyhow::Result<String> {
        let mut out = String::new(alloc);
        match &mut self.tables {
            Some(tables) => call_maps(alloc, &mut out, tables, asked)?,
            None => bail!("no maps"),
        }
        Ok(out)
    }
}
