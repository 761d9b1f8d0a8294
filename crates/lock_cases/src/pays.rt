//! Pays to one stored row and what stands in it behind them. The row is that of the group 7 of the view 1, which has one
//! sum.
//!
//! A line `+ COUNT SUM` stores the row; without it none is stored. `pay SESSION COUNT SUM` answers `kept SUM LO HI`, the
//! prefix of the session's sum before it, `absent`, or `refused COLUMN INF SUP`. In `tried SESSION COUNT SUM, ..` the first
//! pay is kept and, behind the pays of other sessions, taken back. `settle SESSION` answers `done`. `stored` answers the
//! count and the sum that are stored, or `nothing`, `ghost` whether the row is a ghost, and `cleanable` whether it can be
//! cleaned, whether it can where it is locked, and whether it can where it has versions. `read COUNT SUM` answers the group
//! in hexadecimal digits, the count and the sums of each row of the view where the row is stored alone.
//!
//! `make` stores a row of zeros where none is stored and answers `made`. `committed` answers the committed count and the committed
//! sum, or `nothing`. `candidates` answers the first candidate at the row's place, and the first one behind it. `add` adds
//! a candidate there and answers `done`, `drop` drops it unless the row is a ghost and answers whether it is. `removed`
//! answers the candidates where the row is made in maps of its own, and then those where it is removed again. `walk` answers
//! candidates at four places, which are added in another order and one of them twice.
//!
//! For each row all calls of its table are made again from the first on: what a proof knows of the kept pays behind a
//! call is not kept from one row to the next.
ghost use Rattle.std.specs.Prelude.{◌≡◌, ◌≤◌, [], ◌∷◌, IfOk, OnOk};
ghost use Rattle.iv_meaning.specs.Escrow.{IsSession};
ghost use Rattle.table_store.specs.Lists.{map_at};
ghost use Rattle.txn_machine.specs.Deltas.{place_of};
ghost use Rattle.ghost_rows.specs.Kept.{Pays, width, IsDelta};
ghost use Rattle.ghost_rows.specs.State.{AreKept, room_of};

use crate::ghost_steps::{
    add, drop_unless_ghost, make, write_candidates, write_committed, write_removed, write_walk,
};
use crate::pay_steps::{delta, is_cleanable, is_ghost, pay, read, with_row, without_row};
use crate::sessions::session_of;
use anyhow::bail;
use byteorder::{BigEndian, ByteOrder};
use case_text::{first_word, number_of, write_hexadecimal, write_number, write_numbers};
use ghost_rows::{PayRefusal, ViewRows};
use iv_types::{GroupDelta, PrefixList, SortedMaps, ViewRow};
use std::alloc::Global;
use std::fmt::Write;
use std::mem::forget;
use table_store::ListMaps;

// The delta of a count and a sum.
fn delta_of(alloc: Global, text: &str) -> anyhow::Result<GroupDelta>
    ensures place { IfOk result (λ d. place_of d ≡ (1, 7 ∷ [])) }
    ensures width { IfOk result (λ d. width d ≡ 2) }
    ensures delta { IfOk result IsDelta }
{
    let (count, sum) = first_word(text);
    let count = count.parse::<i8>()?;
    let sum = number_of(sum)?;
    Ok(delta(alloc, count, sum)?)
}

// Writes the prefix of the sum.
fn write_kept(out: &mut String, before: &PrefixList) -> anyhow::Result<()> {
    out.push_str("kept ")?;
    write_numbers(out, &[before[1].sum, before[1].lo, before[1].hi])
}

// Writes what a pay is answered.
fn write_paid(out: &mut String, paid: &Result<PrefixList, PayRefusal>) -> anyhow::Result<()> {
    match paid {
        Ok(before) => write_kept(out, before),
        Err(PayRefusal::Absent) => {
            out.push_str("absent")?;
            Ok(())
        }
        Err(PayRefusal::Escrow { column, inf, sup }) => {
            write!(out, "refused {column} ")?;
            write_numbers(out, &[*inf, *sup])
        }
    }
}

// Writes what a pay is answered, and forgets it.
fn write_paid_once(out: &mut String, paid: Result<PrefixList, PayRefusal>) -> anyhow::Result<()> {
    let told = write_paid(out, &paid);
    forget(paid);
    told
}

// A pay of a session.
fn pay_by(
    alloc: Global,
    out: &mut String,
    rows: &mut ViewRows,
    maps: &mut ListMaps,
    text: &str,
) -> anyhow::Result<()>
    requires kept { (pays : Pays) × AreKept rows.old (map_at maps.old) (1, 7 ∷ []) 2 pays }
    ensures kept { OnOk result ((pays : Pays) × AreKept rows.new (map_at maps.new) (1, 7 ∷ []) 2 pays) }
{
    let (session, rest) = first_word(text);
    let session = session_of(session)?;
    let delta = delta_of(alloc, rest)?;
    let paid = pay(rows, maps, session, &delta)?;
    write_paid_once(out, paid)?;
    Ok(())
}

// A pay of another session than this one.
fn other_pays(
    alloc: Global,
    out: &mut String,
    rows: &mut ViewRows,
    maps: &mut ListMaps,
    session: u32,
    text: &str,
) -> anyhow::Result<()>
    requires kept { (pays : Pays) × AreKept rows.old (map_at maps.old) (1, 7 ∷ []) 2 pays }
    ensures kept { OnOk result ((pays : Pays) → AreKept rows.old (map_at maps.old) (1, 7 ∷ []) 2 pays
        → (after : Pays) × AreKept rows.new (map_at maps.new) (1, 7 ∷ []) 2 after × (after session ≡ pays session)) }
    ensures room { OnOk result (room_of rows.old session ≤ room_of rows.new session) }
{
    let (payer, rest) = first_word(text);
    let payer = session_of(payer)?;
    if payer == session {
        bail!("no other session");
    }
    out.push_str(", ")?;
    let delta = delta_of(alloc, rest)?;
    let paid = pay(rows, maps, payer, &delta)?;
    write_paid_once(out, paid)?;
    Ok(())
}

// Pays of other sessions than this one, with `, ` between them.
fn others_pay(
    alloc: Global,
    out: &mut String,
    rows: &mut ViewRows,
    maps: &mut ListMaps,
    session: u32,
    others: &str,
) -> anyhow::Result<()>
    requires kept { (pays : Pays) × AreKept rows.old (map_at maps.old) (1, 7 ∷ []) 2 pays }
    ensures kept { OnOk result ((pays : Pays) → AreKept rows.old (map_at maps.old) (1, 7 ∷ []) 2 pays
        → (after : Pays) × AreKept rows.new (map_at maps.new) (1, 7 ∷ []) 2 after × (after session ≡ pays session)) }
    ensures room { OnOk result (room_of rows.old session ≤ room_of rows.new session) }
{
    for other in others.split(", ") {
        if !other.is_empty() {
            other_pays(alloc, out, rows, maps, session, other)?;
        }
    }
    Ok(())
}

// A pay that is kept, then pays of other sessions, and then the pay taken back.
fn pay_and_take_back(
    alloc: Global,
    out: &mut String,
    rows: &mut ViewRows,
    maps: &mut ListMaps,
    session: u32,
    delta: &GroupDelta,
    others: &str,
) -> anyhow::Result<()>
    requires session { IsSession session }
    requires delta { IsDelta delta.now }
    requires place { place_of delta.now ≡ (1, 7 ∷ []) }
    requires width { width delta.now ≡ 2 }
    requires kept { (pays : Pays) × AreKept rows.old (map_at maps.old) (1, 7 ∷ []) 2 pays }
    ensures kept { OnOk result ((pays : Pays) × AreKept rows.new (map_at maps.new) (1, 7 ∷ []) 2 pays) }
{
    rows.reserve(maps, delta, session, 2)?;
    match rows.pay(maps, session, delta) {
        Ok(before) => {
            write_kept(out, &before)?;
            others_pay(alloc, out, rows, maps, session, others)?;
            rows.take_back(maps, session, delta, &before);
            Ok(())
        }
        Err(_) => bail!("a pay is refused"),
    }
}

// A pay that is taken back behind the pays of others.
fn try_by(
    alloc: Global,
    out: &mut String,
    rows: &mut ViewRows,
    maps: &mut ListMaps,
    text: &str,
) -> anyhow::Result<()>
    requires kept { (pays : Pays) × AreKept rows.old (map_at maps.old) (1, 7 ∷ []) 2 pays }
    ensures kept { OnOk result ((pays : Pays) × AreKept rows.new (map_at maps.new) (1, 7 ∷ []) 2 pays) }
{
    let (first, others) = match text.split_once(", ") {
        Some(parts) => parts,
        None => (text, ""),
    };
    let (session, rest) = first_word(first);
    let session = session_of(session)?;
    let delta = delta_of(alloc, rest)?;
    pay_and_take_back(alloc, out, rows, maps, session, &delta, others)
}

// The session's transaction ends.
fn settle(rows: &mut ViewRows, maps: &ListMaps, word: &str) -> anyhow::Result<()>
    requires kept { (pays : Pays) × AreKept rows.old (map_at maps.now) (1, 7 ∷ []) 2 pays }
    ensures kept { OnOk result ((pays : Pays) × AreKept rows.new (map_at maps.now) (1, 7 ∷ []) 2 pays) }
{
    let session = session_of(word)?;
    rows.settle(session);
    Ok(())
}

// Writes the count and the sum that are stored.
fn write_stored(out: &mut String, maps: &ListMaps) -> anyhow::Result<()> {
    match maps.get(1, &[7]) {
        Some(stored) => {
            if stored.len() != 32 {
                bail!("not two numbers");
            }
            let count = BigEndian::read_i128(stored);
            write_numbers(out, &[count, BigEndian::read_i128(&stored[16..])])
        }
        None => {
            out.push_str("nothing")?;
            Ok(())
        }
    }
}

fn write_word(out: &mut String, is_so: bool) -> anyhow::Result<()> {
    out.push_str(if is_so { "yes" } else { "no" })?;
    Ok(())
}

// Writes whether the row can be cleaned, whether it can where it is locked, and where it has versions.
fn write_cleanable(out: &mut String, rows: &ViewRows, maps: &ListMaps) -> anyhow::Result<()>
    requires kept { (pays : Pays) × AreKept rows.now (map_at maps.now) (1, 7 ∷ []) 2 pays }
{
    write_word(out, is_cleanable(rows, maps, false, false))?;
    out.push(' ')?;
    write_word(out, is_cleanable(rows, maps, true, false))?;
    out.push(' ')?;
    write_word(out, is_cleanable(rows, maps, false, true))
}

fn write_row(out: &mut String, row: &ViewRow) -> anyhow::Result<()> {
    write_hexadecimal(out, row.group.as_slice())?;
    out.push(' ')?;
    write_number(out, row.count)?;
    out.push(' ')?;
    write_numbers(out, row.sums.as_slice())
}

fn write_rows(out: &mut String, rows: &[ViewRow]) -> anyhow::Result<()> {
    let mut is_first = true;
    for row in rows {
        out.push_str(if is_first { "" } else { " / " })?;
        is_first = false;
        write_row(out, row)?;
    }
    Ok(())
}

// Writes each row of the view where the row is stored alone.
fn write_read(alloc: Global, out: &mut String, text: &str) -> anyhow::Result<()> {
    let (count, sum) = first_word(text);
    let count = number_of(count)?;
    let sum = number_of(sum)?;
    let rows = read(alloc, count, sum)?;
    let told = write_rows(out, rows.as_slice());
    forget(rows);
    told
}

// Tells what a call answers that changes nothing.
fn look(
    alloc: Global,
    out: &mut String,
    rows: &ViewRows,
    maps: &ListMaps,
    call: &str,
    rest: &str,
) -> anyhow::Result<()>
    requires kept { (pays : Pays) × AreKept rows.now (map_at maps.now) (1, 7 ∷ []) 2 pays }
{
    match call {
        "stored" => write_stored(out, maps),
        "ghost" => write_word(out, is_ghost(rows, maps)),
        "cleanable" => write_cleanable(out, rows, maps),
        "read" => write_read(alloc, out, rest),
        "committed" => write_committed(out, rows, maps),
        "candidates" => write_candidates(out, rows),
        "removed" => write_removed(alloc, out),
        "walk" => write_walk(alloc, out),
        _ => bail!("no such call"),
    }
}

// Makes one call, and writes what it answers.
fn call(
    alloc: Global,
    out: &mut String,
    rows: &mut ViewRows,
    maps: &mut ListMaps,
    asked: &str,
) -> anyhow::Result<()>
    requires kept { (pays : Pays) × AreKept rows.old (map_at maps.old) (1, 7 ∷ []) 2 pays }
    ensures kept { OnOk result ((pays : Pays) × AreKept rows.new (map_at maps.new) (1, 7 ∷ []) 2 pays) }
{
    let (call, rest) = first_word(asked);
    match call {
        "pay" => pay_by(alloc, out, rows, maps, rest)?,
        "tried" => try_by(alloc, out, rows, maps, rest)?,
        "settle" => {
            settle(rows, maps, rest)?;
            out.push_str("done")?;
        }
        "make" => {
            make(rows, maps)?;
            out.push_str("made")?;
        }
        "add" => {
            add(rows, maps)?;
            out.push_str("done")?;
        }
        "drop" => {
            let is_ghost = drop_unless_ghost(rows, maps);
            write_word(out, is_ghost)?;
        }
        _ => look(alloc, out, rows, maps, call, rest)?,
    }
    Ok(())
}

// Makes one call, and tells what it answers.
fn told(
    alloc: Global,
    rows: &mut ViewRows,
    maps: &mut ListMaps,
    asked: &str,
) -> anyhow::Result<String>
    requires kept { (pays : Pays) × AreKept rows.old (map_at maps.old) (1, 7 ∷ []) 2 pays }
    ensures kept { OnOk result ((pays : Pays) × AreKept rows.new (map_at maps.new) (1, 7 ∷ []) 2 pays) }
{
    let mut out = String::new(alloc);
    call(alloc, &mut out, rows, maps, asked)?;
    Ok(out)
}

// Makes calls, one a line, and tells what the last one answers.
fn call_all(
    alloc: Global,
    rows: &mut ViewRows,
    maps: &mut ListMaps,
    calls: &str,
) -> anyhow::Result<String>
    requires kept { (pays : Pays) × AreKept rows.old (map_at maps.old) (1, 7 ∷ []) 2 pays }
{
    let mut out = String::new(alloc);
    for asked in calls.split('\n') {
        out = told(alloc, rows, maps, asked)?;
    }
    Ok(out)
}

// What is there before the first call.
fn begin(alloc: Global, start: &str) -> anyhow::Result<(ViewRows, ListMaps)>
    ensures { IfOk result (λ all. (pays : Pays) × AreKept all.0 (map_at all.1) (1, 7 ∷ []) 2 pays) }
{
    if start.is_empty() {
        return Ok(without_row(alloc)?);
    }
    let (count, sum) = first_word(start);
    let count = number_of(count)?;
    let sum = number_of(sum)?;
    Ok(with_row(alloc, count, sum)?)
}

/// What the last of some calls answers, one a line, where the row is stored with this count and sum, or is not stored.
pub fn last_answer(alloc: Global, start: &str, calls: &str) -> anyhow::Result<String> {
    let (mut rows, mut maps) = begin(alloc, start)?;
    let told = call_all(alloc, &mut rows, &mut maps, calls);
    forget(rows);
    forget(maps);
    told
}
