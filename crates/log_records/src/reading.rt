//! Reading a record from its bytes.
ghost use Rattle.std.specs.Prelude.{◌≡◌, ◌<◌, ◌+◌, ◌^◌, length, IfOk};
ghost use Rattle.std.specs.Int.{w8, w128};
ghost use Rattle.log_records.specs.Reading.{Gives, number_at, piece_at, string_at, optional_at, signed_at, many_at, numbers_at, write_at, delta_at, ghost_at, clean_at, undo_at, commit_at, abort_at, schema_at, fields_at, record_at};

use crate::fault::Unread;
use crate::{Record, Scanned};
use byteorder::{BigEndian, ByteOrder};
use iv_types::{Bytes, NumberList};
use std::alloc::Global;

fn u8_at(bytes: &[u8]) -> Result<(u8, &[u8]), Unread>
    ensures { Gives (λ x. (x.0, x.1.now)) result (number_at 1 bytes.now) }
{
    match bytes {
        [first, rest @ ..] => Ok((*first, rest)),
        [] => Err(Unread::NoRecord),
    }
}

fn u16_at(bytes: &[u8]) -> Result<(u16, &[u8]), Unread>
    ensures { Gives (λ x. (x.0, x.1.now)) result (number_at 2 bytes.now) }
{
    if bytes.len() < 2 {
        return Err(Unread::NoRecord);
    }
    Ok((BigEndian::read_u16(bytes), &bytes[2..]))
}

fn u32_at(bytes: &[u8]) -> Result<(u32, &[u8]), Unread>
    ensures { Gives (λ x. (x.0, x.1.now)) result (number_at 4 bytes.now) }
{
    if bytes.len() < 4 {
        return Err(Unread::NoRecord);
    }
    Ok((BigEndian::read_u32(bytes), &bytes[4..]))
}

fn u64_at(bytes: &[u8]) -> Result<(u64, &[u8]), Unread>
    ensures { Gives (λ x. (x.0, x.1.now)) result (number_at 8 bytes.now) }
{
    if bytes.len() < 8 {
        return Err(Unread::NoRecord);
    }
    Ok((BigEndian::read_u64(bytes), &bytes[8..]))
}

fn u128_at(bytes: &[u8]) -> Result<(u128, &[u8]), Unread>
    ensures { Gives (λ x. (x.0, x.1.now)) result (number_at 16 bytes.now) }
{
    if bytes.len() < 16 {
        return Err(Unread::NoRecord);
    }
    Ok((BigEndian::read_u128(bytes), &bytes[16..]))
}

fn piece_of(alloc: Global, length: usize, bytes: &[u8]) -> Result<(Bytes, &[u8]), Unread>
    ensures { Gives (λ x. (x.0, x.1.now)) result (piece_at length bytes.now) }
{
    if bytes.len() < length {
        return Err(Unread::NoRecord);
    }
    let (piece, rest) = bytes.split_at(length);
    Ok((Bytes::from_vec(Vec::from_slice(alloc, piece)?), rest))
}

#[tactic(auto, unfolding(crate::specs::Reading::string_at))]
fn bytes_of(alloc: Global, bytes: &[u8]) -> Result<(Bytes, &[u8]), Unread>
    ensures { Gives (λ x. (x.0, x.1.now)) result (string_at 2 bytes.now) }
{
    let (length, rest) = u16_at(bytes)?;
    piece_of(alloc, length as usize, rest)
}

#[tactic(auto, unfolding(crate::specs::Reading::string_at))]
fn text_of(alloc: Global, bytes: &[u8]) -> Result<(Bytes, &[u8]), Unread>
    ensures { Gives (λ x. (x.0, x.1.now)) result (string_at 4 bytes.now) }
{
    let (length, rest) = u32_at(bytes)?;
    piece_of(alloc, length as usize, rest)
}

#[tactic(auto, unfolding(crate::specs::Reading::optional_at))]
fn row_of(alloc: Global, bytes: &[u8]) -> Result<(Option<Bytes>, &[u8]), Unread>
    ensures { Gives (λ x. (x.0, x.1.now)) result (optional_at bytes.now) }
{
    match bytes {
        [0, rest @ ..] => Ok((None, rest)),
        [1, rest @ ..] => {
            let (row, rest) = bytes_of(alloc, rest)?;
            Ok((Some(row), rest))
        }
        _ => Err(Unread::NoRecord),
    }
}

#[tactic(auto, unfolding(crate::specs::Reading::signed_at))]
fn count_of(bytes: &[u8]) -> Result<(i8, &[u8]), Unread>
    ensures { Gives (λ x. (x.0, x.1.now)) result (signed_at w8 bytes.now) }
{
    let (count, rest) = u8_at(bytes)?;
    Ok((count.cast_signed(), rest))
}

#[tactic(auto, unfolding(crate::specs::Reading::signed_at))]
fn sum_of(bytes: &[u8]) -> Result<(i128, &[u8]), Unread>
    ensures { Gives (λ x. (x.0, x.1.now)) result (signed_at w128 bytes.now) }
{
    let (sum, rest) = u128_at(bytes)?;
    Ok((sum.cast_signed(), rest))
}

fn many_of(alloc: Global, count: u8, bytes: &[u8]) -> Result<(Vec<i128>, &[u8]), Unread>
    ensures { Gives (λ x. (x.0.items, x.1.now)) result (many_at count bytes.now) }
{
    let mut sums = Vec::new(alloc);
    let mut rest = bytes;
    for _ in 0..count {
        let (sum, after) = sum_of(rest)?;
        sums.push(sum)?;
        rest = after;
    }
    Ok((sums, rest))
}

#[tactic(auto, unfolding(crate::specs::Reading::numbers_at))]
fn sums_of(alloc: Global, bytes: &[u8]) -> Result<(NumberList, &[u8]), Unread>
    ensures { Gives (λ x. (x.0, x.1.now)) result (numbers_at bytes.now) }
{
    let (count, rest) = u8_at(bytes)?;
    let (sums, rest) = many_of(alloc, count, rest)?;
    Ok((NumberList::from_vec(sums), rest))
}

#[tactic(auto, unfolding(crate::specs::Reading::write_at))]
fn write_of(alloc: Global, bytes: &[u8]) -> Result<(Record, &[u8]), Unread>
    ensures { Gives (λ x. (x.0, x.1.now)) result (write_at bytes.now) }
{
    let (transaction, rest) = u64_at(bytes)?;
    let (table, rest) = u32_at(rest)?;
    let (key, rest) = bytes_of(alloc, rest)?;
    let (before, rest) = row_of(alloc, rest)?;
    let (after, rest) = row_of(alloc, rest)?;
    let entry = Record::Write {
        transaction,
        table,
        key,
        before,
        after,
    };
    Ok((entry, rest))
}

#[tactic(auto, unfolding(crate::specs::Reading::delta_at))]
fn delta_of(alloc: Global, bytes: &[u8]) -> Result<(Record, &[u8]), Unread>
    ensures { Gives (λ x. (x.0, x.1.now)) result (delta_at bytes.now) }
{
    let (transaction, rest) = u64_at(bytes)?;
    let (view, rest) = u32_at(rest)?;
    let (group, rest) = bytes_of(alloc, rest)?;
    let (count, rest) = count_of(rest)?;
    let (sums, rest) = sums_of(alloc, rest)?;
    let entry = Record::Delta {
        transaction,
        view,
        group,
        count,
        sums,
    };
    Ok((entry, rest))
}

#[tactic(auto, unfolding(crate::specs::Reading::ghost_at))]
fn ghost_of(alloc: Global, bytes: &[u8]) -> Result<(Record, &[u8]), Unread>
    ensures { Gives (λ x. (x.0, x.1.now)) result (ghost_at bytes.now) }
{
    let (view, rest) = u32_at(bytes)?;
    let (group, rest) = bytes_of(alloc, rest)?;
    Ok((Record::Ghost { view, group }, rest))
}

#[tactic(auto, unfolding(crate::specs::Reading::clean_at))]
fn clean_of(alloc: Global, bytes: &[u8]) -> Result<(Record, &[u8]), Unread>
    ensures { Gives (λ x. (x.0, x.1.now)) result (clean_at bytes.now) }
{
    let (view, rest) = u32_at(bytes)?;
    let (group, rest) = bytes_of(alloc, rest)?;
    Ok((Record::Clean { view, group }, rest))
}

#[tactic(auto, unfolding(crate::specs::Reading::undo_at))]
fn undo_of(bytes: &[u8]) -> Result<(Record, &[u8]), Unread>
    ensures { Gives (λ x. (x.0, x.1.now)) result (undo_at bytes.now) }
{
    let (transaction, rest) = u64_at(bytes)?;
    let (number, rest) = u64_at(rest)?;
    let entry = Record::Undo {
        transaction,
        number,
    };
    Ok((entry, rest))
}

#[tactic(auto, unfolding(crate::specs::Reading::commit_at))]
fn commit_of(bytes: &[u8]) -> Result<(Record, &[u8]), Unread>
    ensures { Gives (λ x. (x.0, x.1.now)) result (commit_at bytes.now) }
{
    let (transaction, rest) = u64_at(bytes)?;
    let (commit, rest) = u64_at(rest)?;
    let (session, rest) = u32_at(rest)?;
    let entry = Record::Commit {
        transaction,
        commit,
        session,
    };
    Ok((entry, rest))
}

#[tactic(auto, unfolding(crate::specs::Reading::abort_at))]
fn abort_of(bytes: &[u8]) -> Result<(Record, &[u8]), Unread>
    ensures { Gives (λ x. (x.0, x.1.now)) result (abort_at bytes.now) }
{
    let (transaction, rest) = u64_at(bytes)?;
    Ok((Record::Abort { transaction }, rest))
}

#[tactic(auto, unfolding(crate::specs::Reading::schema_at))]
fn schema_of(alloc: Global, bytes: &[u8]) -> Result<(Record, &[u8]), Unread>
    ensures { Gives (λ x. (x.0, x.1.now)) result (schema_at bytes.now) }
{
    let (commit, rest) = u64_at(bytes)?;
    let (session, rest) = u32_at(rest)?;
    let (text, rest) = text_of(alloc, rest)?;
    let entry = Record::Schema {
        commit,
        session,
        text,
    };
    Ok((entry, rest))
}

// The fields of a record of this kind.
#[tactic(auto, unfolding(crate::specs::Reading::fields_at))]
fn fields_of(alloc: Global, kind: u8, bytes: &[u8]) -> Result<(Record, &[u8]), Unread>
    ensures { Gives (λ x. (x.0, x.1.now)) result (fields_at kind bytes.now) }
{
    match kind {
        1 => write_of(alloc, bytes),
        2 => delta_of(alloc, bytes),
        3 => ghost_of(alloc, bytes),
        4 => clean_of(alloc, bytes),
        5 => undo_of(bytes),
        6 => commit_of(bytes),
        7 => abort_of(bytes),
        8 => schema_of(alloc, bytes),
        _ => Err(Unread::NoRecord),
    }
}

// The record that begins the bytes, whose first byte has this place.
#[tactic(auto, unfolding(crate::specs::Reading::record_at))]
pub fn record_of(alloc: Global, place: u64, bytes: &[u8]) -> Result<(Scanned, &[u8]), Unread>
    requires { place + length bytes.now < 2 ^ 64 }
    ensures exact { Gives (λ x. (x.0, x.1.now)) result (record_at place bytes.now) }
    ensures ends { IfOk result (λ x. x.0.end + length x.1.now ≡ place + length bytes.now) }
{
    let (kind, rest) = u8_at(bytes)?;
    let (number, rest) = u64_at(rest)?;
    let (entry, rest) = fields_of(alloc, kind, rest)?;
    let end = place + (bytes.len() - rest.len()) as u64;
    let scanned = Scanned {
        place,
        end,
        number,
        entry,
    };
    Ok((scanned, rest))
}
