//! The bounds of a column.
//!
//! `new VALUE` makes a column of this committed value. A session's `add SESSION NUMBER` answers `kept SUM LO HI`, its
//! prefix before it, or `refused INF SUP`; `settle SESSION`, `drop SESSION` and `reserve SESSION` answer nothing. Behind
//! each call stand the column's bounds. `tried SESSION NUMBER..` is one increment or two, each of which is then taken back,
//! the latest first, with the bounds behind each.
ghost use Rattle.std.specs.Prelude.{◌≡◌, OnOk};
ghost use Rattle.iv_meaning.specs.Escrow.{IsSession};
ghost use Rattle.iv_types.specs.Encoding.{IsHuge};
ghost use Rattle.escrow_bounds.specs.Column.{IsReserved, part};

use crate::sessions::session_of;
use anyhow::bail;
use case_text::{first_word, number_of, write_numbers};
use escrow_bounds::Escrow;
use iv_types::Prefix;
use std::alloc::Global;
use std::mem::{forget, replace};

/// A column, once it is made.
#[derive(Drop)]
pub struct Bounds {
    escrow: Option<Escrow>,
}

fn write_bounds(out: &mut String, escrow: &Escrow) -> anyhow::Result<()> {
    write_numbers(out, &[escrow.inf(), escrow.sup()])
}

// Writes a session's prefix before an increment that is kept, and the bounds behind it.
fn write_kept(out: &mut String, escrow: &Escrow, before: Prefix) -> anyhow::Result<()> {
    out.push_str("kept ")?;
    write_numbers(out, &[before.sum, before.lo, before.hi])?;
    out.push_str("; ")?;
    write_bounds(out, escrow)
}

fn add(out: &mut String, escrow: &mut Escrow, rest: &str) -> anyhow::Result<()> {
    let (session, number) = first_word(rest);
    let session = session_of(session)?;
    let number = number_of(number)?;
    escrow.reserve(session)?;
    match escrow.add(session, number) {
        Ok(before) => write_kept(out, escrow, before),
        Err(range) => {
            out.push_str("refused ")?;
            write_numbers(out, &[range.inf, range.sup])?;
            out.push_str("; ")?;
            write_bounds(out, escrow)
        }
    }
}

// An increment that is taken back.
fn try_one(out: &mut String, escrow: &mut Escrow, session: u32, number: i128) -> anyhow::Result<()>
    requires session { IsSession session }
    requires number { IsHuge number }
    requires reserved { IsReserved escrow.old session }
    ensures part { OnOk result (part escrow.new session ≡ part escrow.old session) }
    ensures reserved { OnOk result (IsReserved escrow.new session) }
{
    match escrow.add(session, number) {
        Ok(before) => {
            write_kept(out, escrow, before)?;
            escrow.take_back(session, before);
            out.push_str("; ")?;
            write_bounds(out, escrow)?;
            Ok(())
        }
        Err(_) => bail!("nothing to take back"),
    }
}

// The same with another one in between.
fn try_two(
    out: &mut String,
    escrow: &mut Escrow,
    session: u32,
    number: i128,
    second: i128,
) -> anyhow::Result<()>
    requires session { IsSession session }
    requires number { IsHuge number }
    requires second { IsHuge second }
    requires reserved { IsReserved escrow.old session }
{
    match escrow.add(session, number) {
        Ok(before) => {
            write_kept(out, escrow, before)?;
            out.push_str("; ")?;
            try_one(out, escrow, session, second)?;
            escrow.take_back(session, before);
            out.push_str("; ")?;
            write_bounds(out, escrow)
        }
        Err(_) => bail!("nothing to take back"),
    }
}

fn try_by(out: &mut String, escrow: &mut Escrow, rest: &str) -> anyhow::Result<()> {
    let (session, numbers) = first_word(rest);
    let (number, second) = first_word(numbers);
    let session = session_of(session)?;
    let number = number_of(number)?;
    escrow.reserve(session)?;
    if second.is_empty() {
        return try_one(out, escrow, session, number);
    }
    let second = number_of(second)?;
    try_two(out, escrow, session, number, second)
}

// A call of a session that answers nothing.
fn end(out: &mut String, escrow: &mut Escrow, call: &str, session: &str) -> anyhow::Result<()> {
    let session = session_of(session)?;
    match call {
        "settle" => escrow.settle(session),
        "drop" => escrow.drop_txn(session),
        "reserve" => escrow.reserve(session)?,
        _ => bail!("no such call"),
    }
    write_bounds(out, escrow)
}

fn call_column(out: &mut String, escrow: &mut Escrow, asked: &str) -> anyhow::Result<()> {
    let (call, rest) = first_word(asked);
    match call {
        "add" => add(out, escrow, rest),
        "tried" => try_by(out, escrow, rest),
        "new" => write_bounds(out, escrow),
        _ => end(out, escrow, call, rest),
    }
}

impl Bounds {
    pub fn new() -> Bounds {
        Bounds { escrow: None }
    }

    pub fn answer(&mut self, alloc: Global, asked: &str) -> anyhow::Result<String> {
        if let Some(value) = asked.strip_prefix("new ") {
            let escrow = Escrow::new(alloc, number_of(value)?)?;
            forget(replace(&mut self.escrow, Some(escrow)));
        }
        let mut out = String::new(alloc);
        match &mut self.escrow {
            Some(escrow) => call_column(&mut out, escrow, asked)?,
            None => bail!("no column"),
        }
        Ok(out)
    }
}
