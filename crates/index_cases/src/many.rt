//! Calls of many entries.
use crate::calls::{put, take};
use anyhow::bail;
use case_text::short_number_at;
use iv_types::{Bytes, NoMemory, SortedMaps};
use ordered_index::PageMaps;
use std::alloc::Global;
use std::fmt::Write;

/// The key of an INT that is not negative.
pub fn int_key(alloc: Global, number: u32) -> Result<Bytes, NoMemory> {
    let number = u64::from(number) + 0x8000_0000_0000_0000;
    Ok(Bytes::from_vec(Vec::from_slice(alloc, &number.to_be_bytes())?))
}

fn value_of(alloc: Global, bytes: u32) -> Result<Bytes, NoMemory> {
    Ok(Bytes::from_vec(vec![in alloc; 7u8; bytes as usize]?))
}

/// Adds INTs.
pub fn add_ints(alloc: Global, maps: &mut PageMaps, words: &[&str]) -> anyhow::Result<()> {
    let index = short_number_at(words, 0)?;
    let first = short_number_at(words, 1)?;
    let last = short_number_at(words, 2)?;
    let bytes = short_number_at(words, 3)?;
    for number in first..last {
        put(
            maps,
            index,
            int_key(alloc, number)?,
            value_of(alloc, bytes)?,
        )?;
    }
    put(maps, index, int_key(alloc, last)?, value_of(alloc, bytes)?)
}

/// Takes the even INTs away.
pub fn take_evens(alloc: Global, maps: &mut PageMaps, words: &[&str]) -> anyhow::Result<()> {
    let index = short_number_at(words, 0)?;
    let first = short_number_at(words, 1)?;
    let last = short_number_at(words, 2)?;
    for half in first / 2..last / 2 {
        let even = half.wrapping_mul(2).wrapping_add(2);
        take(maps, index, int_key(alloc, even)?.as_slice())?;
    }
    Ok(())
}

/// Adds INTs while they are within the limit, and writes how many.
pub fn fill(
    alloc: Global,
    out: &mut String,
    maps: &mut PageMaps,
    words: &[&str],
) -> anyhow::Result<()> {
    let index = short_number_at(words, 0)?;
    let bytes = short_number_at(words, 1)?;
    let mut count: u32 = 0;
    for number in 0..1_000_000 {
        let key = int_key(alloc, number)?;
        let value = value_of(alloc, bytes)?;
        if !maps.can_put(index, key.as_slice(), value.as_slice()) {
            break;
        }
        put(maps, index, key, value)?;
        count = number;
    }
    let count = count.wrapping_add(1);
    write!(out, "{count}")?;
    Ok(())
}

// The number of the i-th scattered key.
fn scattered(i: u32) -> u32 {
    (181_081 * u64::from(i) % 524_288) as u32
}

// How many of the scattered keys are there.
fn found(alloc: Global, maps: &PageMaps, index: u32, count: u32) -> anyhow::Result<u32> {
    let mut found: u32 = 0;
    for i in 0..count {
        if maps
            .get(index, int_key(alloc, scattered(i))?.as_slice())
            .is_some()
        {
            found = found.wrapping_add(1);
        }
    }
    Ok(found)
}

// How many entries a walk has, if they rise.
fn walked(maps: &PageMaps, index: u32) -> anyhow::Result<u32> {
    let mut count: u32 = 0;
    let mut next = maps.first_at(index, &[]);
    for _ in 0..u32::MAX {
        let Some((key, _)) = next else {
            break;
        };
        count = count.wrapping_add(1);
        next = maps.first_after(index, key);
        if let Some((after, _)) = next {
            if after <= key {
                bail!("a key does not rise");
            }
        }
    }
    Ok(count)
}

/// Adds scattered INTs, gets them ten times and walks over them.
pub fn add_scattered(
    alloc: Global,
    out: &mut String,
    maps: &mut PageMaps,
    words: &[&str],
) -> anyhow::Result<()> {
    let index = short_number_at(words, 0)?;
    let count = short_number_at(words, 1)?;
    maps.reserve(index, count)?;
    for i in 0..count {
        put(
            maps,
            index,
            int_key(alloc, scattered(i))?,
            value_of(alloc, 20)?,
        )?;
    }
    let mut gets: u32 = 0;
    for _ in 0..10 {
        gets = gets.wrapping_add(found(alloc, maps, index, count)?);
    }
    let walk = walked(maps, index)?;
    write!(out, "{count} {gets} {walk}")?;
    Ok(())
}
