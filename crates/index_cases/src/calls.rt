//! Calls of one map.
use crate::many::{add_ints, add_scattered, fill, int_key, take_evens};
use crate::publishing::write_published;
use anyhow::bail;
use case_text::{all_words, first_word, short_number_at, unescaped, word_at, write_escaped};
use iv_types::{Bytes, SortedMaps};
use ordered_index::PageMaps;
use std::alloc::Global;
use std::fmt::Write;

fn bytes_at(alloc: Global, words: &[&str], place: usize) -> anyhow::Result<Bytes> {
    let word = word_at(words, place)?;
    if let Some(number) = word.strip_prefix('#') {
        return Ok(int_key(alloc, number.parse::<u32>()?)?);
    }
    let Some(quoted) = word.strip_prefix('\'') else {
        bail!("no text")
    };
    let Some(content) = quoted.strip_suffix('\'') else {
        bail!("no end of a text")
    };
    Ok(Bytes::from_vec(unescaped(alloc, content)?))
}

fn write_text(out: &mut String, bytes: &[u8]) -> anyhow::Result<()> {
    out.push('\'')?;
    write_escaped(out, bytes)?;
    out.push('\'')?;
    Ok(())
}

fn write_found(out: &mut String, found: Option<(&[u8], &[u8])>) -> anyhow::Result<()> {
    match found {
        Some((key, value)) => {
            write_text(out, key)?;
            out.push(' ')?;
            write_text(out, value)
        }
        None => {
            out.push_str("none")?;
            Ok(())
        }
    }
}

/// Sets the value under a key.
pub fn put(maps: &mut PageMaps, index: u32, key: Bytes, value: Bytes) -> anyhow::Result<()> {
    maps.reserve(index, 1)?;
    if !maps.can_put(index, key.as_slice(), value.as_slice()) {
        bail!("more than maps hold");
    }
    if maps.get(index, key.as_slice()).is_some() {
        maps.replace(index, key.as_slice(), value);
        return Ok(());
    }
    maps.insert(index, key, value);
    Ok(())
}

/// Takes an entry away.
pub fn take(maps: &mut PageMaps, index: u32, key: &[u8]) -> anyhow::Result<()> {
    if maps.get(index, key).is_none() {
        bail!("no such entry");
    }
    maps.remove(index, key);
    Ok(())
}

// Says that an index is stored.
fn store(maps: &mut PageMaps, index: u32) -> anyhow::Result<()> {
    if index > 192 {
        bail!("no such index");
    }
    maps.set_stored(index, true);
    Ok(())
}

// Writes the first nine entries.
fn write_all(out: &mut String, maps: &PageMaps, index: u32) -> anyhow::Result<()> {
    let mut next = maps.first_at(index, &[]);
    if next.is_none() {
        out.push_str("nothing")?;
    }
    let mut is_first = true;
    for _ in 0..9 {
        let Some((key, value)) = next else {
            break;
        };
        out.push_str(if is_first { "" } else { ", " })?;
        is_first = false;
        write_found(out, Some((key, value)))?;
        next = maps.first_after(index, key);
    }
    Ok(())
}

// Writes the entry that a call finds.
fn write_entry(
    alloc: Global,
    out: &mut String,
    maps: &PageMaps,
    call: &str,
    words: &[&str],
) -> anyhow::Result<()> {
    let index = short_number_at(words, 0)?;
    let key = bytes_at(alloc, words, 1)?;
    match call {
        "at" => write_found(out, maps.first_at(index, key.as_slice())),
        "after" => write_found(out, maps.first_after(index, key.as_slice())),
        _ => match maps.get(index, key.as_slice()) {
            Some(value) => write_text(out, value),
            None => write_found(out, None),
        },
    }
}

// Makes a call that changes maps.
fn change(alloc: Global, maps: &mut PageMaps, call: &str, words: &[&str]) -> anyhow::Result<()> {
    match call {
        "put" => {
            let key = bytes_at(alloc, words, 1)?;
            put(
                maps,
                short_number_at(words, 0)?,
                key,
                bytes_at(alloc, words, 2)?,
            )
        }
        "take" => take(
            maps,
            short_number_at(words, 0)?,
            bytes_at(alloc, words, 1)?.as_slice(),
        ),
        "ints" => add_ints(alloc, maps, words),
        "evens" => take_evens(alloc, maps, words),
        "stored" => store(maps, short_number_at(words, 0)?),
        _ => bail!("no such call"),
    }
}

// Begins with maps over so many pages.
fn renew(alloc: Global, maps: &mut PageMaps, pages: u32) -> anyhow::Result<()> {
    if pages < 512 || pages > 131_072 {
        bail!("no such number of pages");
    }
    *maps = PageMaps::new(alloc, pages)?;
    Ok(())
}

/// Writes what a call answers.
pub fn call_maps(
    alloc: Global,
    out: &mut String,
    maps: &mut PageMaps,
    asked: &str,
) -> anyhow::Result<()> {
    let (call, rest) = first_word(asked);
    let words = all_words(alloc, rest)?;
    match call {
        "used" => {
            let used = maps.used();
            write!(out, "{used}")?;
        }
        "room" => {
            let room = maps.room();
            write!(out, "{room}")?;
        }
        "get" | "at" | "after" => write_entry(alloc, out, maps, call, &words)?,
        "all" => write_all(out, maps, short_number_at(&words, 0)?)?,
        "scattered" => add_scattered(alloc, out, maps, &words)?,
        "full" => fill(alloc, out, maps, &words)?,
        "published" => write_published(alloc, out, maps)?,
        "pages" => {
            renew(alloc, maps, short_number_at(&words, 0)?)?;
            out.push_str("done")?;
        }
        _ => {
            change(alloc, maps, call, &words)?;
            out.push_str("done")?;
        }
    }
    Ok(())
}
