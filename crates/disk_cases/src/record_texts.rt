//! Records as texts.
//!
//! `write TRANSACTION TABLE KEY BEFORE AFTER`, with `none` for no row, `delta TRANSACTION VIEW GROUP COUNT SUM..`,
//! `ghost VIEW GROUP`, `clean VIEW GROUP`, `undo TRANSACTION NUMBER`, `commit TRANSACTION COMMIT SESSION`,
//! `abort TRANSACTION`, `schema COMMIT SESSION TEXT`. Keys, groups, rows and texts are hexadecimal digits.
use anyhow::bail;
use case_text::{
    all_words, first_word, from_hexadecimal, number_at, short_number_at, word_at, write_hexadecimal,
};
use iv_types::{Bytes, NumberList};
use std::alloc::Global;
use std::fmt::Write;
use wal_log::Record;

fn bytes_at(alloc: Global, words: &[&str], place: usize) -> anyhow::Result<Bytes> {
    let bytes = from_hexadecimal(alloc, word_at(words, place)?)?;
    Ok(Bytes::from_vec(bytes))
}

fn row_at(alloc: Global, words: &[&str], place: usize) -> anyhow::Result<Option<Bytes>> {
    if word_at(words, place)? == "none" {
        return Ok(None);
    }
    Ok(Some(bytes_at(alloc, words, place)?))
}

fn sums_from(alloc: Global, words: &[&str], place: usize) -> anyhow::Result<NumberList> {
    let Some(rest) = words.get(place..) else {
        bail!("a word is wanting")
    };
    let mut sums = NumberList::new(alloc);
    for word in rest {
        sums.push(word.parse::<i128>()?)?;
    }
    Ok(sums)
}

fn write_of(alloc: Global, words: &[&str]) -> anyhow::Result<Record> {
    let transaction = number_at(words, 0)?;
    let table = short_number_at(words, 1)?;
    let key = bytes_at(alloc, words, 2)?;
    let before = row_at(alloc, words, 3)?;
    let after = row_at(alloc, words, 4)?;
    Ok(Record::Write {
        transaction,
        table,
        key,
        before,
        after,
    })
}

fn delta_of(alloc: Global, words: &[&str]) -> anyhow::Result<Record> {
    let transaction = number_at(words, 0)?;
    let view = short_number_at(words, 1)?;
    let count = word_at(words, 3)?.parse::<i8>()?;
    let group = bytes_at(alloc, words, 2)?;
    let sums = sums_from(alloc, words, 4)?;
    Ok(Record::Delta {
        transaction,
        view,
        group,
        count,
        sums,
    })
}

fn ghost_of(alloc: Global, words: &[&str]) -> anyhow::Result<Record> {
    let view = short_number_at(words, 0)?;
    let group = bytes_at(alloc, words, 1)?;
    Ok(Record::Ghost { view, group })
}

fn clean_of(alloc: Global, words: &[&str]) -> anyhow::Result<Record> {
    let view = short_number_at(words, 0)?;
    let group = bytes_at(alloc, words, 1)?;
    Ok(Record::Clean { view, group })
}

fn undo_of(words: &[&str]) -> anyhow::Result<Record> {
    let transaction = number_at(words, 0)?;
    let number = number_at(words, 1)?;
    Ok(Record::Undo {
        transaction,
        number,
    })
}

fn commit_of(words: &[&str]) -> anyhow::Result<Record> {
    let transaction = number_at(words, 0)?;
    let commit = number_at(words, 1)?;
    let session = short_number_at(words, 2)?;
    Ok(Record::Commit {
        transaction,
        commit,
        session,
    })
}

fn abort_of(words: &[&str]) -> anyhow::Result<Record> {
    let transaction = number_at(words, 0)?;
    Ok(Record::Abort { transaction })
}

fn schema_of(alloc: Global, words: &[&str]) -> anyhow::Result<Record> {
    let commit = number_at(words, 0)?;
    let session = short_number_at(words, 1)?;
    let text = bytes_at(alloc, words, 2)?;
    Ok(Record::Schema {
        commit,
        session,
        text,
    })
}

/// The record of a text.
///
/// # Errors
///
/// Where it is none.
pub fn record_of(alloc: Global, text: &str) -> anyhow::Result<Record> {
    let (kind, rest) = first_word(text);
    let words = all_words(alloc, rest)?;
    match kind {
        "write" => write_of(alloc, &words),
        "delta" => delta_of(alloc, &words),
        "ghost" => ghost_of(alloc, &words),
        "clean" => clean_of(alloc, &words),
        "undo" => undo_of(&words),
        "commit" => commit_of(&words),
        "abort" => abort_of(&words),
        "schema" => schema_of(alloc, &words),
        _ => bail!("no such record"),
    }
}

fn write_bytes(out: &mut String, bytes: &Bytes) -> anyhow::Result<()> {
    out.push(' ')?;
    write_hexadecimal(out, bytes.as_slice())
}

fn write_row(out: &mut String, row: &Option<Bytes>) -> anyhow::Result<()> {
    match row {
        Some(bytes) => write_bytes(out, bytes),
        None => {
            out.push_str(" none")?;
            Ok(())
        }
    }
}

fn write_sums(out: &mut String, sums: &[i128]) -> anyhow::Result<()> {
    for sum in sums {
        write!(out, " {sum}")?;
    }
    Ok(())
}

// Writes a record of bytes.
fn write_large(out: &mut String, entry: &Record) -> anyhow::Result<()> {
    match entry {
        Record::Write {
            transaction,
            table,
            key,
            before,
            after,
        } => {
            write!(out, "write {transaction} {table}")?;
            write_bytes(out, key)?;
            write_row(out, before)?;
            write_row(out, after)
        }
        Record::Delta {
            transaction,
            view,
            group,
            count,
            sums,
        } => {
            write!(out, "delta {transaction} {view}")?;
            write_bytes(out, group)?;
            write!(out, " {count}")?;
            write_sums(out, sums.as_slice())
        }
        Record::Ghost { view, group } => {
            write!(out, "ghost {view}")?;
            write_bytes(out, group)
        }
        Record::Clean { view, group } => {
            write!(out, "clean {view}")?;
            write_bytes(out, group)
        }
        _ => bail!("no such record"),
    }
}

/// Writes a record as `record_of` reads it.
pub fn write_record(out: &mut String, entry: &Record) -> anyhow::Result<()> {
    match entry {
        Record::Undo {
            transaction,
            number,
        } => write!(out, "undo {transaction} {number}")?,
        Record::Commit {
            transaction,
            commit,
            session,
        } => write!(out, "commit {transaction} {commit} {session}")?,
        Record::Abort { transaction } => write!(out, "abort {transaction}")?,
        Record::Schema {
            commit,
            session,
            text,
        } => {
            write!(out, "schema {commit} {session}")?;
            return write_bytes(out, text);
        }
        _ => return write_large(out, entry),
    }
    Ok(())
}
