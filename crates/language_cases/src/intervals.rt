//! Intervals of keys.
//!
//! `point`: of a key the interval in which it lies alone. `prefix`: of bytes the interval of the keys that begin with
//! them. `common`: of two intervals with ` and ` between them whether a key lies in both, `meet` or `apart`, asked either
//! way round.
//!
//! An interval is its low end, ` to ` and its high end, each in hexadecimal digits; `end` is no high end.
use anyhow::bail;
use case_text::{from_hexadecimal, write_hexadecimal};
use iv_types::{Bytes, Interval};
use row_codec::{common, point, prefix_interval};
use std::alloc::Global;

fn bytes_of(alloc: Global, text: &str) -> anyhow::Result<Bytes> {
    Ok(Bytes::from_vec(from_hexadecimal(alloc, text)?))
}

fn high_end(alloc: Global, text: &str) -> anyhow::Result<Option<Bytes>> {
    if text == "end" {
        return Ok(None);
    }
    Ok(Some(bytes_of(alloc, text)?))
}

fn interval_of(alloc: Global, text: &str) -> anyhow::Result<Interval> {
    let Some((low, high)) = text.split_once(" to ") else {
        bail!("no interval")
    };
    let low = bytes_of(alloc, low)?;
    let high = high_end(alloc, high)?;
    Ok(Interval { low, high })
}

fn told(alloc: Global, interval: &Interval) -> anyhow::Result<String> {
    let mut out = String::new(alloc);
    write_hexadecimal(&mut out, interval.low.as_slice())?;
    out.push_str(" to ")?;
    match &interval.high {
        Some(high) => write_hexadecimal(&mut out, high.as_slice())?,
        None => out.push_str("end")?,
    }
    Ok(out)
}

pub fn point_of(alloc: Global, asked: &str) -> anyhow::Result<String> {
    let key = bytes_of(alloc, asked)?;
    let interval = point(alloc, &key)?;
    told(alloc, &interval)
}

pub fn prefix_of(alloc: Global, asked: &str) -> anyhow::Result<String> {
    let prefix = bytes_of(alloc, asked)?;
    let interval = prefix_interval(alloc, &prefix)?;
    told(alloc, &interval)
}

fn word_of(has_common_key: bool) -> &'static str {
    if has_common_key { "meet" } else { "apart" }
}

pub fn meeting(alloc: Global, asked: &str) -> anyhow::Result<String> {
    let Some((one, other)) = asked.split_once(" and ") else {
        bail!("no two intervals")
    };
    let one = interval_of(alloc, one)?;
    let other = interval_of(alloc, other)?;
    let there = word_of(common(&one, &other));
    let back = word_of(common(&other, &one));
    Ok(format!(in alloc; "{there} {back}")?)
}
