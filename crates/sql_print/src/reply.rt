//! The text of a reply.
ghost use Rattle.std.specs.Prelude.{◌≡◌, ◌∷◌, ◌++◌, [], take, IfOk, OnOk};
ghost use Rattle.std.specs.Fmt.{signed_decimal};
ghost use Rattle.iv_types.specs.Replies as replies;
ghost use Rattle.iv_types.specs.Replies.{spaced, numbers_text, row_text, value_text, members, members_from, refusal_text, bare_reply_text};

use crate::bytes::{
    push_bytes, push_number, push_numbers, push_quoted, push_signed, push_spaced,
    push_spaced_number, push_spaced_signed,
};
use iv_types::{
    Bytes, Cycle, Limit, MOST_SESSIONS, NoMemory, Refusal, Reply, Row, Sessions, Value,
};
use std::alloc::Global;

fn push_value(text: &mut Vec<u8>, value: &Value) -> Result<(), NoMemory>
    ensures { OnOk result (text.new.items ≡ text.old.items ++ spaced (value_text value.now)) }
{
    text.push(b' ')?;
    match value {
        Value::Number(number) => push_signed(text, *number),
        Value::Word(content) => push_quoted(text, content.as_slice()),
    }
}

fn push_row(text: &mut Vec<u8>, row: &Row) -> Result<(), NoMemory>
    ensures { OnOk result (text.new.items ≡ text.old.items ++ row_text row.now) }
{
    for value in row.as_slice() {
        push_value(text, value)?;
    }
    Ok(())
}

// The sessions from 1 on whose bits are set, of so many.
fn push_members(text: &mut Vec<u8>, count: usize, bits: u64) -> Result<(), NoMemory>
    ensures { OnOk result (text.new.items ≡ text.old.items ++ numbers_text (members_from count 1 bits)) }
{
    let mut left = bits;
    for i in 0..count {
        if left % 2 == 1 {
            push_spaced_number(text, i as u64 + 1)?;
        }
        left /= 2;
    }
    Ok(())
}

fn push_sessions(text: &mut Vec<u8>, sessions: Sessions) -> Result<(), NoMemory>
    ensures { OnOk result (text.new.items ≡ text.old.items ++ numbers_text (members sessions)) }
{
    push_members(text, MOST_SESSIONS as usize, sessions.bits)
}

fn push_cycle(text: &mut Vec<u8>, cycle: &Cycle) -> Result<(), NoMemory>
    ensures { OnOk result (text.new.items ≡ text.old.items ++ numbers_text (take cycle.now.length cycle.now.members)) }
{
    let length = (cycle.length as usize).min(MOST_SESSIONS as usize);
    for session in &cycle.members[..length] {
        push_spaced_number(text, *session as u64)?;
    }
    Ok(())
}

fn push_with_numbers(text: &mut Vec<u8>, word: &str, numbers: &[u64]) -> Result<(), NoMemory>
    ensures { OnOk result (text.new.items ≡ text.old.items ++ (word.now ++ numbers_text numbers.now)) }
{
    push_bytes(text, word.as_bytes())?;
    push_numbers(text, numbers)
}

fn push_with_name(text: &mut Vec<u8>, word: &str, name: &Bytes) -> Result<(), NoMemory>
    ensures { OnOk result (text.new.items ≡ text.old.items ++ (word.now ++ spaced name.now)) }
{
    push_bytes(text, word.as_bytes())?;
    push_spaced(text, name.as_slice())
}

fn push_limit(text: &mut Vec<u8>, limit: Limit) -> Result<(), NoMemory>
    ensures { OnOk result (text.new.items ≡ text.old.items ++ refusal_text (Refusal.Limit limit)) }
{
    push_bytes(text, b"6 Limit")?;
    push_spaced_number(text, limit.number() as u64)?;
    push_spaced_signed(text, limit.most() as i128)
}

fn push_bounds(text: &mut Vec<u8>, column: &Bytes, inf: i128, sup: i128) -> Result<(), NoMemory>
    ensures { OnOk result (text.new.items ≡ text.old.items ++ (spaced column.now ++ (spaced (signed_decimal inf) ++ spaced (signed_decimal sup)))) }
{
    push_spaced(text, column.as_slice())?;
    push_spaced_signed(text, inf)?;
    push_spaced_signed(text, sup)
}

fn push_escrow(
    text: &mut Vec<u8>,
    view: &Bytes,
    group: &Row,
    column: &Bytes,
    inf: i128,
    sup: i128,
) -> Result<(), NoMemory>
    ensures { OnOk result (text.new.items ≡ text.old.items ++ refusal_text (Refusal.EscrowRange view.now group.now column.now inf sup)) }
{
    push_with_name(text, "21 EscrowRange", view)?;
    push_row(text, group)?;
    push_bounds(text, column, inf, sup)
}

fn push_deadlock(text: &mut Vec<u8>, cycle: &Cycle) -> Result<(), NoMemory>
    ensures { OnOk result (text.new.items ≡ text.old.items ++ refusal_text (Refusal.Deadlock cycle.now)) }
{
    push_bytes(text, b"20 Deadlock")?;
    push_cycle(text, cycle)
}

// A refusal's code, its name and its values.
fn push_refusal(text: &mut Vec<u8>, refusal: &Refusal) -> Result<(), NoMemory>
    ensures { OnOk result (text.new.items ≡ text.old.items ++ refusal_text refusal.now) }
{
    match refusal {
        Refusal::Syntax(place) => push_with_numbers(text, "1 Syntax", &[*place]),
        Refusal::UnknownName(name) => push_with_name(text, "2 UnknownName", name),
        Refusal::NameTaken(name) => push_with_name(text, "3 NameTaken", name),
        Refusal::WrongType => push_bytes(text, b"4 WrongType"),
        Refusal::WrongShape(rule) => {
            push_with_numbers(text, "5 WrongShape", &[rule.number() as u64])
        }
        Refusal::Limit(limit) => push_limit(text, *limit),
        Refusal::NeedsIndex(table) => push_with_name(text, "7 NeedsIndex", table),
        Refusal::DuplicateKey => push_bytes(text, b"10 DuplicateKey"),
        Refusal::NumberRange => push_bytes(text, b"11 NumberRange"),
        Refusal::NoTransaction => push_bytes(text, b"12 NoTransaction"),
        Refusal::InTransaction => push_bytes(text, b"13 InTransaction"),
        Refusal::ReadOnly => push_bytes(text, b"14 ReadOnly"),
        Refusal::UnknownSavepoint(name) => push_with_name(text, "15 UnknownSavepoint", name),
        Refusal::Deadlock(cycle) => push_deadlock(text, cycle),
        Refusal::EscrowRange {
            view,
            group,
            column,
            inf,
            sup,
        } => push_escrow(text, view, group, column, *inf, *sup),
        Refusal::LogFull {
            used,
            reserved,
            need,
        } => push_with_numbers(text, "22 LogFull", &[*used, *reserved, *need]),
        Refusal::DataFull { used, need } => push_with_numbers(text, "23 DataFull", &[*used, *need]),
        Refusal::TxnFull { kept, need } => push_with_numbers(text, "24 TxnFull", &[*kept, *need]),
        Refusal::HistoryFull { kept, need } => {
            push_with_numbers(text, "25 HistoryFull", &[*kept, *need])
        }
        Refusal::SchemaBusy(session) => push_with_numbers(
            text,
            "26 SchemaBusy",
            &[*session as u64],
        ),
        Refusal::DiskFault => push_bytes(text, b"27 DiskFault"),
        Refusal::Stopped(step) => push_with_numbers(text, "28 Stopped", &[*step]),
        Refusal::NoMemory => push_bytes(text, b"29 NoMemory"),
        Refusal::SessionWaiting => push_bytes(text, b"40 SessionWaiting"),
        Refusal::BadLine => push_bytes(text, b"41 BadLine"),
        Refusal::LineTooLong => push_bytes(text, b"42 LineTooLong"),
    }
}

// A reply without a session number.
fn push_reply(text: &mut Vec<u8>, reply: &Reply) -> Result<(), NoMemory>
    ensures { OnOk result (text.new.items ≡ text.old.items ++ bare_reply_text reply.now) }
{
    match reply {
        Reply::Row(row) => {
            push_bytes(text, b"ROW")?;
            push_row(text, row)
        }
        Reply::Done(count) => push_with_numbers(text, "OK", &[*count]),
        Reply::Commit(number) => push_with_numbers(text, "COMMIT", &[*number]),
        Reply::Snapshot(number) => push_with_numbers(text, "SNAPSHOT", &[*number]),
        Reply::Wait(sessions) => {
            push_bytes(text, b"WAIT")?;
            push_sessions(text, *sessions)
        }
        Reply::Step => push_bytes(text, b"STEP"),
        Reply::Error(refusal) => {
            push_bytes(text, b"ERR ")?;
            push_refusal(text, refusal)
        }
    }
}

/// The text of a reply, without a line's end: behind the session's number and a space where there is one. Numbers are
/// decimal, texts are quoted, and the values of a row or a refusal are separated by one space.
pub fn reply_text(alloc: Global, session: Option<u32>, reply: &Reply) -> Result<Bytes, NoMemory>
    ensures { IfOk result (λ bytes. bytes ≡ replies.reply_text session reply.now) }
{
    let mut text = Vec::new(alloc);
    if let Some(session) = session {
        push_number(&mut text, session as u64)?;
        text.push(b' ')?;
    }
    push_reply(&mut text, reply)?;
    Ok(Bytes::from_vec(text))
}
