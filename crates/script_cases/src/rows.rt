//! What comes of a row, by the first word of its table's name.
//!
//! `words:` the words of the command, with the line `1: HELLO` as input; `faults:` which calls of the source and of the
//! sink fail in a script of 40,000 lines `x`, whose replies have 17 bytes each; `asked:` which call of the sink fails in
//! a script of one line; `lines:` what is read of an input, line by line, or how many bytes that is; `reads:` how often a
//! view of many rows is read (`reads`); `made:` the words of the command and which call of the sink fails, where the first
//! call of the source would fail; `init:` the words of the command, the name of a disk, and which calls of the outside, of its
//! disk and of the sink fail, where the first call of the source would fail.
use crate::reads::of_reads;
use crate::running::{Ended, Failing, Initiated, asked, lines_read, run_init, run_words};
use anyhow::bail;
use case_text::{expanded, unescaped, write_escaped};
use std::alloc::Global;

// A number behind a word.
fn number_behind(text: &str, word: &str) -> anyhow::Result<u64> {
    match text.strip_prefix(word) {
        Some(number) => Ok(number.parse::<u64>()?),
        None => bail!("no number"),
    }
}

fn write_ended(alloc: Global, found: &Ended) -> anyhow::Result<String> {
    let status = found.status;
    let mut out = format!(in alloc; "{status:?} ")?;
    write_escaped(&mut out, &found.written)?;
    Ok(out)
}

fn of_words(alloc: Global, asked: &str) -> anyhow::Result<String> {
    let texts = asked.strip_prefix('`').unwrap_or(asked);
    let texts = texts.strip_suffix('`').unwrap_or(texts);
    write_ended(alloc, &run_words(alloc, texts, b"1: HELLO\n", 0, 0)?)
}

// The first call of the source fails, so that a command that asks it shows.
fn of_made(alloc: Global, asked: &str) -> anyhow::Result<String> {
    let Some((texts, write)) = asked.split_once(", ") else {
        bail!("no calls")
    };
    let write = number_behind(write, "write ")?;
    let found = run_words(alloc, texts, b"1: HELLO\n", 1, write)?;
    if found.written.is_empty() {
        let status = found.status;
        return Ok(format!(in alloc; "{status:?} and nothing")?);
    }
    write_ended(alloc, &found)
}

fn of_init(alloc: Global, asked: &str) -> anyhow::Result<String> {
    let Some((texts, rest)) = asked.split_once("`, ") else {
        bail!("no words")
    };
    let texts = texts.strip_prefix('`').unwrap_or(texts);
    let Some((name, rest)) = rest.split_once(", ") else {
        bail!("no name")
    };
    let Some((outside, rest)) = rest.split_once(", ") else {
        bail!("no calls")
    };
    let Some((disk, write)) = rest.split_once(", ") else {
        bail!("no calls")
    };
    let failing = Failing {
        outside: number_behind(outside, "outside ")?,
        disk: number_behind(disk, "disk ")?,
        write: number_behind(write, "write ")?,
    };
    let Initiated {
        ended,
        size,
        faults,
    } = run_init(alloc, texts, name, failing)?;
    let mut out = write_ended(alloc, &ended)?;
    match size {
        Some(size) => out.push_str(format!(in alloc; ", {size} bytes")?.as_str())?,
        None => out.push_str(", no disk")?,
    }
    out.push_str(format!(in alloc; ", {faults} faults")?.as_str())?;
    Ok(out)
}

// So many lines of two bytes.
fn short_lines(alloc: Global) -> anyhow::Result<Vec<u8>> {
    let mut input = Vec::new(alloc);
    for _ in 0..40_000 {
        input.extend_from_slice(b"x\n")?;
    }
    Ok(input)
}

fn of_faults(alloc: Global, asked: &str) -> anyhow::Result<String> {
    let Some((read, write)) = asked.split_once(", ") else {
        bail!("no calls")
    };
    let read = number_behind(read, "read ")?;
    let write = number_behind(write, "write ")?;
    let Ended { status, written } = run_words(
        alloc,
        "script -",
        &short_lines(alloc)?,
        read,
        write,
    )?;
    let replies = written.len() / 17;
    let rest = written.len() % 17;
    Ok(format!(in alloc; "{status:?}, {replies} replies, {rest} bytes")?)
}

fn of_asked(alloc: Global, call: &str) -> anyhow::Result<String> {
    let call = number_behind(call, "write ")?;
    let (status, times) = asked(alloc, b"1: HELLO\n", call)?;
    Ok(format!(in alloc; "{status:?}, asked {times} times")?)
}

// The bytes of a text with short forms and escapes; two backquotes are no byte.
fn bytes(alloc: Global, text: &str) -> anyhow::Result<Vec<u8>> {
    if text == "``" {
        return Ok(Vec::new(alloc));
    }
    let text = expanded(alloc, text)?;
    unescaped(alloc, text.as_str())
}

// What is read of an input, or its number of bytes where they are many.
fn of_lines(alloc: Global, asked: &str) -> anyhow::Result<String> {
    let input = bytes(alloc, asked)?;
    let read = lines_read(alloc, &input)?;
    let mut out = String::new(alloc);
    if read.len() > 40 {
        let bytes = read.len();
        out = format!(in alloc; "{bytes} bytes")?;
    } else if read.is_empty() {
        out.push_str("``")?;
    } else {
        write_escaped(&mut out, &read)?;
    }
    Ok(out)
}

/// What comes of a row.
///
/// # Errors
///
/// Where the table's name or the row has none of these forms, or memory is wanting.
pub fn answer(alloc: Global, table: &str, asked: &str) -> anyhow::Result<String> {
    let Some((word, _)) = table.split_once(": ") else {
        bail!("no kind of rows")
    };
    match word {
        "words" => of_words(alloc, asked),
        "faults" => of_faults(alloc, asked),
        "asked" => of_asked(alloc, asked),
        "made" => of_made(alloc, asked),
        "init" => of_init(alloc, asked),
        "lines" => of_lines(alloc, asked),
        "reads" => of_reads(alloc, asked),
        _ => bail!("no kind of rows"),
    }
}
