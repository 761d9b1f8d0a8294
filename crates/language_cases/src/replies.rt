//! The texts of replies.
//!
//! `reply`: of a reply its text, with escapes. A reply is the number of its session, or `-` where none is named, and one of
//! `row VALUES`, `done NUMBER`, `commit NUMBER`, `snapshot NUMBER`, `wait BITS`, `step`, and a refusal by its name with its
//! values behind it: names, numbers, `Deadlock LENGTH MEMBERS` with all 64 members, and
//! `EscrowRange VIEW COLUMN INF SUP VALUES`.
use anyhow::bail;
use case_text::{read_row, write_escaped};
use iv_types::{Bytes, Cycle, Limit, Refusal, Reply, Sessions, ShapeRule};
use sql_print::reply_text;
use std::alloc::Global;
use std::mem::forget;

const MOST_SESSIONS: usize = 64;

fn bytes_of(alloc: Global, text: &str) -> anyhow::Result<Bytes> {
    Ok(Bytes::from_vec(text.as_bytes().to_vec(alloc)?))
}

// A refusal without values.
fn bare_refusal(word: &str) -> anyhow::Result<Refusal> {
    match word {
        "WrongType" => Ok(Refusal::WrongType),
        "DuplicateKey" => Ok(Refusal::DuplicateKey),
        "NumberRange" => Ok(Refusal::NumberRange),
        "NoTransaction" => Ok(Refusal::NoTransaction),
        "InTransaction" => Ok(Refusal::InTransaction),
        "ReadOnly" => Ok(Refusal::ReadOnly),
        "DiskFault" => Ok(Refusal::DiskFault),
        "NoMemory" => Ok(Refusal::NoMemory),
        "SessionWaiting" => Ok(Refusal::SessionWaiting),
        "BadLine" => Ok(Refusal::BadLine),
        "LineTooLong" => Ok(Refusal::LineTooLong),
        _ => bail!("no refusal without values"),
    }
}

// A refusal with a name.
fn naming_refusal(word: &str, name: Bytes) -> anyhow::Result<Refusal> {
    match word {
        "UnknownName" => Ok(Refusal::UnknownName(name)),
        "NameTaken" => Ok(Refusal::NameTaken(name)),
        "NeedsIndex" => Ok(Refusal::NeedsIndex(name)),
        "UnknownSavepoint" => Ok(Refusal::UnknownSavepoint(name)),
        _ => bail!("no refusal with a name"),
    }
}

fn small(number: u64) -> anyhow::Result<u32> {
    match u32::try_from(number) {
        Ok(number) => Ok(number),
        Err(_) => bail!("a large number"),
    }
}

const RULES: [ShapeRule; 12] = [
    ShapeRule::ColumnTwice,
    ShapeRule::TupleLength,
    ShapeRule::KeySet,
    ShapeRule::SetTwice,
    ShapeRule::NoTable,
    ShapeRule::NoGroup,
    ShapeRule::OtherItem,
    ShapeRule::NotManyToOne,
    ShapeRule::NoViewList,
    ShapeRule::Arithmetic,
    ShapeRule::ViewOfView,
    ShapeRule::NoItem,
];

const LIMITS: [Limit; 18] = [
    Limit::NameBytes,
    Limit::NumberValue,
    Limit::TextBytes,
    Limit::Nesting,
    Limit::Rows,
    Limit::Columns,
    Limit::Relations,
    Limit::Tables,
    Limit::Indexes,
    Limit::Views,
    Limit::Readers,
    Limit::KeyWidth,
    Limit::RowWidth,
    Limit::Sums,
    Limit::DefinitionBytes,
    Limit::Savepoints,
    Limit::Items,
    Limit::Operations,
];

// The shape rule of a number, counted from 1.
fn rule_of(number: u64) -> anyhow::Result<ShapeRule> {
    for rule in RULES {
        if u64::from(rule.number()) == number {
            return Ok(rule);
        }
    }
    bail!("no shape rule has the number")
}

// The limit of a number, counted from 1, which allows so much.
fn limit_of(number: u64, most: u64) -> anyhow::Result<Limit> {
    for limit in LIMITS {
        if u64::from(limit.number()) == number && limit.most() == u128::from(most) {
            return Ok(limit);
        }
    }
    bail!("no limit has the number and allows so much")
}

// A refusal with one number.
fn refusal_of_one(word: &str, number: u64) -> anyhow::Result<Refusal> {
    match word {
        "Syntax" => Ok(Refusal::Syntax(number)),
        "WrongShape" => Ok(Refusal::WrongShape(rule_of(number)?)),
        "SchemaBusy" => Ok(Refusal::SchemaBusy(small(number)?)),
        "Stopped" => Ok(Refusal::Stopped(number)),
        _ => bail!("no refusal with a number"),
    }
}

// A refusal with two numbers.
fn refusal_of_two(word: &str, first: u64, second: u64) -> anyhow::Result<Refusal> {
    match word {
        "Limit" => Ok(Refusal::Limit(limit_of(first, second)?)),
        "DataFull" => Ok(Refusal::DataFull {
            used: first,
            need: second,
        }),
        "TxnFull" => Ok(Refusal::TxnFull {
            kept: first,
            need: second,
        }),
        "HistoryFull" => Ok(Refusal::HistoryFull {
            kept: first,
            need: second,
        }),
        _ => bail!("no refusal with two numbers"),
    }
}

fn numbers_of(alloc: Global, text: &str) -> anyhow::Result<Vec<u64>> {
    let mut numbers = Vec::new(alloc);
    for part in text.split(' ') {
        numbers.push(part.parse::<u64>()?)?;
    }
    Ok(numbers)
}

// A refusal with numbers.
fn refusal_of_numbers(word: &str, numbers: &[u64]) -> anyhow::Result<Refusal> {
    match numbers {
        [number] => refusal_of_one(word, *number),
        [first, second] => refusal_of_two(word, *first, *second),
        [used, reserved, need] => Ok(Refusal::LogFull {
            used: *used,
            reserved: *reserved,
            need: *need,
        }),
        _ => bail!("no refusal with so many numbers"),
    }
}

fn members_of(text: &str) -> anyhow::Result<[u8; 64]> {
    let mut members = [0u8; 64];
    for (place, part) in text.split(' ').enumerate() {
        if place >= MOST_SESSIONS {
            bail!("too many members")
        }
        members[place] = part.parse::<u8>()?;
    }
    Ok(members)
}

fn deadlock(values: &str) -> anyhow::Result<Refusal> {
    let Some((length, members)) = values.split_once(' ') else {
        bail!("no cycle")
    };
    let length = length.parse::<u32>()?;
    let members = members_of(members)?;
    Ok(Refusal::Deadlock(Cycle { length, members }))
}

fn word_and_rest(text: &str) -> (&str, &str) {
    match text.split_once(' ') {
        Some((word, rest)) => (word, rest),
        None => (text, ""),
    }
}

fn escrow_range(alloc: Global, values: &str) -> anyhow::Result<Refusal> {
    let (view, values) = word_and_rest(values);
    let (column, values) = word_and_rest(values);
    let (inf, values) = word_and_rest(values);
    let (sup, values) = word_and_rest(values);
    let inf = inf.parse::<i128>()?;
    let sup = sup.parse::<i128>()?;
    let view = bytes_of(alloc, view)?;
    let column = bytes_of(alloc, column)?;
    let group = read_row(alloc, values)?;
    Ok(Refusal::EscrowRange {
        view,
        group,
        column,
        inf,
        sup,
    })
}

fn refusal_of(alloc: Global, text: &str) -> anyhow::Result<Refusal> {
    let (word, values) = word_and_rest(text);
    if values.is_empty() {
        return bare_refusal(word);
    }
    match word {
        "Deadlock" => deadlock(values),
        "EscrowRange" => escrow_range(alloc, values),
        "UnknownName" | "NameTaken" | "NeedsIndex" | "UnknownSavepoint" => {
            naming_refusal(word, bytes_of(alloc, values)?)
        }
        _ => refusal_of_numbers(word, numbers_of(alloc, values)?.as_slice()),
    }
}

fn reply_of(alloc: Global, text: &str) -> anyhow::Result<Reply> {
    let (word, values) = word_and_rest(text);
    match word {
        "row" => Ok(Reply::Row(read_row(alloc, values)?)),
        "done" => Ok(Reply::Done(values.parse::<u64>()?)),
        "commit" => Ok(Reply::Commit(values.parse::<u64>()?)),
        "snapshot" => Ok(Reply::Snapshot(values.parse::<u64>()?)),
        "wait" => Ok(Reply::Wait(Sessions {
            bits: values.parse::<u64>()?,
        })),
        "step" => Ok(Reply::Step),
        _ => Ok(Reply::Error(refusal_of(alloc, text)?)),
    }
}

fn session_of(text: &str) -> anyhow::Result<Option<u32>> {
    if text == "-" {
        return Ok(None);
    }
    Ok(Some(text.parse::<u32>()?))
}

// The text of the reply that a text describes, to this session.
fn text_of(alloc: Global, session: Option<u32>, text: &str) -> anyhow::Result<Bytes> {
    let reply = reply_of(alloc, text)?;
    let found = reply_text(alloc, session, &reply);
    forget(reply);
    Ok(found?)
}

pub fn reply(alloc: Global, asked: &str) -> anyhow::Result<String> {
    let (session, described) = word_and_rest(asked);
    let text = text_of(alloc, session_of(session)?, described)?;
    let mut out = String::new(alloc);
    write_escaped(&mut out, text.as_slice())?;
    Ok(out)
}
