//! Locks on intervals of keys.
//!
//! Keys are `a`, an interval from `b` on and before `d` is `b..d`, one with no high end `b..`. `S:1 a, X:2 b..d` is a Share
//! lock on index 1 and an Exclusive one on index 2, and `I` an Increment one.
//!
//! `request SESSION LOCKS` answers `granted`, or `blocked by` the sessions in the way. `retry SESSION` requests what the
//! session waited for, as it is given back. `again SESSION LOCK` requests a lock that the session holds, for which no room
//! is made, and `grant SESSION LOCKS` grants locks in whose way nobody is. `conflicts SESSION LOCKS` and `blocked SESSION`
//! answer sessions, or `nobody`; `holds SESSION MODE:INDEX KEY` answers `yes` or `no`; `cancel SESSION` and
//! `release SESSION` answer `done`. `modes INTERVAL INTERVAL` answers in which modes a lock of session 1 on the first and
//! one that session 2 asks for on the second conflict, by the letters of both, or `none`.
ghost use Rattle.std.specs.Prelude.{◌≤◌, length, OnOk};
ghost use Rattle.iv_meaning.specs.Escrow.{IsSession};
ghost use Rattle.lock_manager.specs.Table.{AddAtMost, locks_of, room_of};

use crate::sessions::{session_of, write_sessions};
use anyhow::bail;
use case_text::first_word;
use iv_types::{Bytes, Interval, LockMode, Want, WantList};
use lock_manager::{LockAnswer, LockTable};
use std::alloc::Global;
use std::mem::{forget, replace};

const MODES: [(&str, &str); 9] = [
    ("S", "S"),
    ("S", "X"),
    ("S", "I"),
    ("X", "S"),
    ("X", "X"),
    ("X", "I"),
    ("I", "S"),
    ("I", "X"),
    ("I", "I"),
];

/// The locks of all sessions, once they are made.
#[derive(Drop)]
pub struct Locks {
    table: Option<LockTable>,
}

fn bytes(alloc: Global, text: &str) -> anyhow::Result<Bytes> {
    Ok(Bytes::from_vec(Vec::from_slice(alloc, text.as_bytes())?))
}

// The least key behind a key.
fn behind(alloc: Global, text: &str) -> anyhow::Result<Bytes> {
    let mut end = Vec::from_slice(alloc, text.as_bytes())?;
    end.push(0)?;
    Ok(Bytes::from_vec(end))
}

fn interval(alloc: Global, text: &str) -> anyhow::Result<Interval> {
    let (low, high) = match text.split_once("..") {
        Some((low, "")) => (low, None),
        Some((low, high)) => (low, Some(bytes(alloc, high)?)),
        None => (text, Some(behind(alloc, text)?)),
    };
    Ok(Interval {
        low: bytes(alloc, low)?,
        high,
    })
}

fn mode_of(letter: &str) -> anyhow::Result<LockMode> {
    match letter {
        "S" => Ok(LockMode::Share),
        "X" => Ok(LockMode::Exclusive),
        "I" => Ok(LockMode::Increment),
        _ => bail!("no mode"),
    }
}

// The mode and the index of `S:1`.
fn place_of(text: &str) -> anyhow::Result<(LockMode, u32)> {
    let Some((letter, number)) = text.split_once(':') else {
        bail!("no mode")
    };
    Ok((mode_of(letter)?, number.parse::<u32>()?))
}

fn want(alloc: Global, text: &str) -> anyhow::Result<Want> {
    let (place, keys) = first_word(text);
    let (mode, index) = place_of(place)?;
    Ok(Want {
        index,
        interval: interval(alloc, keys)?,
        mode,
    })
}

fn wants(alloc: Global, text: &str) -> anyhow::Result<WantList> {
    let mut wants = WantList::new(alloc);
    for one in text.split(", ") {
        wants.push(want(alloc, one)?)?;
    }
    Ok(wants)
}

// Makes room for as many locks.
fn make_room(table: &mut LockTable, session: u32, wants: &WantList) -> anyhow::Result<()>
    requires { IsSession session }
    ensures { OnOk result (length wants.now ≤ room_of table.new session) }
{
    let count = wants.as_slice().len();
    if count > 1000 {
        bail!("too many locks");
    }
    table.reserve(session, count as u32)?;
    Ok(())
}

// Asks for locks, for which room is made.
fn ask(table: &mut LockTable, session: u32, wants: WantList) -> anyhow::Result<LockAnswer>
    requires { IsSession session }
{
    make_room(table, session, &wants)?;
    Ok(table.request(session, wants))
}

// Asks for a lock that is held already, for which no room is made.
fn ask_again(table: &mut LockTable, session: u32, wants: WantList) -> anyhow::Result<LockAnswer>
    requires { IsSession session }
{
    let held = match wants.as_slice() {
        [want] => table.holds_want(session, want),
        _ => bail!("one lock was to come"),
    };
    if !held {
        bail!("the lock is not held");
    }
    Ok(table.request(session, wants))
}

// Takes locks in whose way nobody is.
fn take(table: &mut LockTable, session: u32, wants: WantList) -> anyhow::Result<LockAnswer>
    requires { IsSession session }
{
    make_room(table, session, &wants)?;
    if table.conflicts(session, &wants).is_somebody() {
        bail!("somebody is in the way");
    }
    table.grant(session, wants);
    Ok(LockAnswer::Granted)
}

fn write_answer(out: &mut String, answer: LockAnswer) -> anyhow::Result<()> {
    match answer {
        LockAnswer::Granted => out.push_str("granted")?,
        LockAnswer::Blocked(sessions) => {
            out.push_str("blocked by ")?;
            write_sessions(out, sessions)?;
        }
    }
    Ok(())
}

fn write_conflicts(
    alloc: Global,
    out: &mut String,
    table: &LockTable,
    session: u32,
    text: &str,
) -> anyhow::Result<()> {
    let wants = wants(alloc, text)?;
    let sessions = table.conflicts(session, &wants);
    forget(wants);
    write_sessions(out, sessions)
}

fn write_holds(out: &mut String, table: &LockTable, session: u32, text: &str) -> anyhow::Result<()>
    requires { IsSession session }
{
    let (place, key) = first_word(text);
    let (mode, index) = place_of(place)?;
    let holds = table.holds(session, index, key.as_bytes(), mode);
    out.push_str(if holds { "yes" } else { "no" })?;
    Ok(())
}

// Asks for the locks of a text, in the way that the call says.
fn answer_of(
    alloc: Global,
    table: &mut LockTable,
    call: &str,
    session: u32,
    text: &str,
) -> anyhow::Result<LockAnswer>
    requires { IsSession session }
{
    let wants = wants(alloc, text)?;
    match call {
        "request" => ask(table, session, wants),
        "again" => ask_again(table, session, wants),
        _ => take(table, session, wants),
    }
}

// Asks for what the session waited for.
fn retry(out: &mut String, table: &mut LockTable, session: u32) -> anyhow::Result<()>
    requires { IsSession session }
{
    let wants = table.cancel(session);
    write_answer(out, ask(table, session, wants)?)
}

// Ends what the session waits for, or all that it holds.
fn end(out: &mut String, table: &mut LockTable, call: &str, session: u32) -> anyhow::Result<()>
    requires { IsSession session }
{
    match call {
        "cancel" => forget(table.cancel(session)),
        _ => table.release_all(session),
    }
    out.push_str("done")?;
    Ok(())
}

fn call_locks(
    alloc: Global,
    out: &mut String,
    table: &mut LockTable,
    asked: &str,
) -> anyhow::Result<()> {
    let (call, rest) = first_word(asked);
    let (session, rest) = first_word(rest);
    let session = session_of(session)?;
    match call {
        "request" | "again" | "grant" => write_answer(
            out,
            answer_of(alloc, table, call, session, rest)?,
        ),
        "retry" => retry(out, table, session),
        "conflicts" => write_conflicts(alloc, out, table, session, rest),
        "blocked" => write_sessions(out, table.blocked_by(session)),
        "holds" => write_holds(out, table, session, rest),
        "cancel" | "release" => end(out, table, call, session),
        _ => bail!("no such call"),
    }
}

// The list of one lock on index 1.
fn one_want(alloc: Global, letter: &str, keys: &str) -> anyhow::Result<WantList> {
    let mode = mode_of(letter)?;
    let interval = interval(alloc, keys)?;
    let mut wants = WantList::new(alloc);
    wants.push(Want {
        index: 1,
        interval,
        mode,
    })?;
    Ok(wants)
}

// Whether a lock of session 1 blocks one that session 2 asks for, and no other session does.
fn blocks(alloc: Global, held: WantList, wanted: &WantList) -> anyhow::Result<bool> {
    let mut table = LockTable::new(alloc)?;
    let told = ask(&mut table, 1, held);
    let sessions = table.conflicts(2, wanted);
    forget(table);
    match told? {
        LockAnswer::Granted => {}
        LockAnswer::Blocked(_) => bail!("the first lock is blocked"),
    }
    if sessions.bits > 1 {
        bail!("another session is in the way");
    }
    Ok(sessions.bits == 1)
}

// The same of locks by their modes and intervals.
fn is_blocking(alloc: Global, held: (&str, &str), wanted: (&str, &str)) -> anyhow::Result<bool> {
    let wants = one_want(alloc, wanted.0, wanted.1)?;
    blocks(alloc, one_want(alloc, held.0, held.1)?, &wants)
}

// Writes the modes of two locks behind others, if the first conflicts with the second.
fn write_mode(
    alloc: Global,
    out: &mut String,
    held: (&str, &str),
    wanted: (&str, &str),
) -> anyhow::Result<()> {
    if is_blocking(alloc, held, wanted)? {
        if !out.is_empty() {
            out.push(' ')?;
        }
        out.push_str(held.0)?;
        out.push_str(wanted.0)?;
    }
    Ok(())
}

fn write_modes(alloc: Global, out: &mut String, intervals: &str) -> anyhow::Result<()> {
    let (first, second) = first_word(intervals);
    for (held, wanted) in MODES.as_slice() {
        write_mode(alloc, out, (held, first), (wanted, second))?;
    }
    if out.is_empty() {
        out.push_str("none")?;
    }
    Ok(())
}

impl Locks {
    pub fn new() -> Locks {
        Locks { table: None }
    }

    /// Begins with no locks.
    pub fn begin(&mut self, alloc: Global) -> anyhow::Result<()> {
        let table = LockTable::new(alloc)?;
        forget(replace(&mut self.table, Some(table)));
        Ok(())
    }

    pub fn answer(&mut self, alloc: Global, asked: &str) -> anyhow::Result<String> {
        let mut out = String::new(alloc);
        if let Some(intervals) = asked.strip_prefix("modes ") {
            write_modes(alloc, &mut out, intervals)?;
            return Ok(out);
        }
        match &mut self.table {
            Some(table) => call_locks(alloc, &mut out, table, asked)?,
            None => bail!("no locks"),
        }
        Ok(out)
    }
}
