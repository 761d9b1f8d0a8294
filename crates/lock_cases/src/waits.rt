//! The cycles that waits would close.
//!
//! A row is a session and behind it those that hold what it wants, and then, each behind `; `, other sessions with those
//! for whom they wait by what is recorded. Its answer is the cycle, or `none`; a member behind the cycle's end that is not
//! 0 would stand behind `behind`. A line `+ ` records what sessions wait for, each behind `;`, for the rows below it.
ghost use Rattle.std.specs.Prelude.{◌≤◌};

use crate::sessions::{session_of, sessions_of};
use anyhow::bail;
use case_text::first_word;
use iv_types::{Cycle, NOBODY, Sessions};
use std::alloc::Global;
use std::fmt::Write;
use wait_graph::would_close;

/// For whom each session waits by what is recorded.
#[derive(Clone, Copy)]
pub struct Waits {
    recorded: [Sessions; 64],
}

// Records for whom a session waits.
fn record_one(waits: &mut [Sessions; 64], group: &str) -> anyhow::Result<()> {
    let (waiter, others) = first_word(group);
    let waiter = session_of(waiter)?;
    waits[waiter as usize - 1] = sessions_of(others)?;
    Ok(())
}

fn record(waits: &mut [Sessions; 64], text: &str) -> anyhow::Result<()> {
    for group in text.split(';') {
        let group = group.trim();
        if !group.is_empty() {
            record_one(waits, group)?;
        }
    }
    Ok(())
}

fn write_cycle(out: &mut String, cycle: &Cycle) -> anyhow::Result<()> {
    let mut place: u32 = 0;
    for member in cycle.members.as_slice() {
        let member = *member;
        if place < cycle.length {
            out.push_str(if place == 0 { "" } else { " " })?;
            write!(out, "{member}")?;
        } else if member != 0 {
            write!(out, " behind {member}")?;
        }
        place = place.saturating_add(1);
    }
    Ok(())
}

// Writes the cycle that a session would close that waits for these, or `none`.
fn write_closed(
    out: &mut String,
    waits: &[Sessions; 64],
    session: u32,
    holders: Sessions,
) -> anyhow::Result<()>
    requires from_1 { 1 ≤ session }
    requires to_64 { session ≤ 64 }
{
    match would_close(waits, session, holders) {
        Some(cycle) => write_cycle(out, &cycle)?,
        None => out.push_str("none")?,
    }
    if out.is_empty() {
        bail!("a cycle without members");
    }
    Ok(())
}

impl Waits {
    /// Nobody waits.
    pub fn new() -> Waits {
        Waits {
            recorded: [NOBODY; 64],
        }
    }

    pub fn give(&mut self, text: &str) -> anyhow::Result<()> {
        record(&mut self.recorded, text)
    }

    pub fn answer(&self, alloc: Global, asked: &str) -> anyhow::Result<String> {
        let (request, others) = match asked.split_once(';') {
            Some(parts) => parts,
            None => (asked, ""),
        };
        let mut waits = self.recorded;
        record(&mut waits, others)?;
        let (session, holders) = first_word(request);
        let session = session_of(session)?;
        let holders = sessions_of(holders)?;
        let mut out = String::new(alloc);
        write_closed(&mut out, &waits, session, holders)?;
        Ok(out)
    }
}
