//! Writing a record as its bytes, behind the first bytes of a buffer.
ghost use Rattle.std.specs.Prelude.{◌≡◌, ◌<◌, ◌≤◌, ◌+◌, ◌^◌, ◌++◌, ◌∷◌, [], length, take, IfSome, IfOk, IsTrue, ℕ};
ghost use Rattle.std.specs.Int.{w8, w128};
ghost use Rattle.std.specs.List.{flat_map, AllByRecursion};
ghost use Rattle.std.specs.Int.RustNames.{FitsSigned};
ghost use Rattle.byteorder.specs.Endian.{big_bytes};
ghost use Rattle.std.specs.Option.{option_copied};
ghost use Rattle.log_records.specs.Buffer.{Filled};
ghost use Rattle.log_records.specs.declared.record.Record.{Record};
ghost use Rattle.log_records.specs.Lent.{stands_for};
ghost use Rattle.log_records.specs.Spelling.{string, optional, signed, numbers, fields, spelling, kind_of, IsShort, Fits};

use crate::LentRecord;
use byteorder::{BigEndian, ByteOrder};
use iv_types::{Bytes, NoMemory};
use std::alloc::Global;

// The most bytes of a key, a group or a row.
const MOST_FIELD: usize = 65_535;

// The most bytes of a definition's text.
const MOST_TEXT: usize = 4_294_967_295;

// The most sums of a Delta.
const MOST_SUMS: usize = 255;

fn put(buffer: &mut [u8], fill: usize, bytes: &[u8]) -> usize
    requires { fill + length bytes.now ≤ length buffer.old }
    ensures { Filled fill buffer.old result buffer.new bytes.now }
{
    buffer[fill..fill + bytes.len()].copy_from_slice(bytes);
    fill + bytes.len()
}

fn put_u8(buffer: &mut [u8], fill: usize, byte: u8) -> usize
    requires { fill + 1 ≤ length buffer.old }
    ensures { Filled fill buffer.old result buffer.new (big_bytes 1 byte) }
{
    put(buffer, fill, &[byte])
}

fn put_u16(buffer: &mut [u8], fill: usize, number: u16) -> usize
    requires { fill + 2 ≤ length buffer.old }
    ensures { Filled fill buffer.old result buffer.new (big_bytes 2 number) }
{
    let mut bytes = [0; 2];
    BigEndian::write_u16(&mut bytes, number);
    put(buffer, fill, &bytes)
}

fn put_u32(buffer: &mut [u8], fill: usize, number: u32) -> usize
    requires { fill + 4 ≤ length buffer.old }
    ensures { Filled fill buffer.old result buffer.new (big_bytes 4 number) }
{
    let mut bytes = [0; 4];
    BigEndian::write_u32(&mut bytes, number);
    put(buffer, fill, &bytes)
}

fn put_u64(buffer: &mut [u8], fill: usize, number: u64) -> usize
    requires { fill + 8 ≤ length buffer.old }
    ensures { Filled fill buffer.old result buffer.new (big_bytes 8 number) }
{
    let mut bytes = [0; 8];
    BigEndian::write_u64(&mut bytes, number);
    put(buffer, fill, &bytes)
}

fn put_sum(buffer: &mut [u8], fill: usize, sum: u128) -> usize
    requires { fill + 16 ≤ length buffer.old }
    ensures { Filled fill buffer.old result buffer.new (big_bytes 16 sum) }
{
    let mut bytes = [0; 16];
    BigEndian::write_u128(&mut bytes, sum);
    put(buffer, fill, &bytes)
}

fn put_bytes(buffer: &mut [u8], fill: usize, bytes: &[u8]) -> usize
    requires short { length bytes.now < 2 ^ 16 }
    requires room { fill + length (string 2 bytes.now) ≤ length buffer.old }
    ensures { Filled fill buffer.old result buffer.new (string 2 bytes.now) }
{
    let sized = put_u16(buffer, fill, bytes.len() as u16);
    put(buffer, sized, bytes)
}

fn put_text(buffer: &mut [u8], fill: usize, bytes: &[u8]) -> usize
    requires short { length bytes.now < 2 ^ 32 }
    requires room { fill + length (string 4 bytes.now) ≤ length buffer.old }
    ensures { Filled fill buffer.old result buffer.new (string 4 bytes.now) }
{
    let sized = put_u32(buffer, fill, bytes.len() as u32);
    put(buffer, sized, bytes)
}

fn put_row(buffer: &mut [u8], fill: usize, row: Option<&[u8]>) -> usize
    requires short { IfSome (option_copied row) (λ bytes. length bytes < 2 ^ 16) }
    requires room { fill + length (optional (option_copied row)) ≤ length buffer.old }
    ensures { Filled fill buffer.old result buffer.new (optional (option_copied row.entry)) }
{
    match row {
        None => put_u8(buffer, fill, 0),
        Some(bytes) => {
            let flagged = put_u8(buffer, fill, 1);
            put_bytes(buffer, flagged, bytes)
        }
    }
}

fn put_sums(buffer: &mut [u8], fill: usize, sums: &[i128]) -> usize
    requires { fill + length (flat_map (signed w128) sums.now) ≤ length buffer.old }
    ensures filled { Filled fill buffer.old result buffer.new (flat_map (signed w128) sums.now) }
    ensures fits { AllByRecursion (FitsSigned w128) sums.now }
{
    let mut at = fill;
    for sum in sums {
        let value = *sum;
        at = put_sum(buffer, at, value.cast_unsigned());
    }
    at
}

fn put_numbers(buffer: &mut [u8], fill: usize, sums: &[i128]) -> usize
    requires few { length sums.now < 2 ^ 8 }
    requires room { fill + length (numbers sums.now) ≤ length buffer.old }
    ensures filled { Filled fill buffer.old result buffer.new (numbers sums.now) }
    ensures fits { AllByRecursion (FitsSigned w128) sums.now }
{
    let counted = put_u8(buffer, fill, sums.len() as u8);
    put_sums(buffer, counted, sums)
}

fn put_write(
    buffer: &mut [u8],
    fill: usize,
    transaction: u64,
    table: u32,
    key: &[u8],
    before: Option<&[u8]>,
    after: Option<&[u8]>,
) -> usize
    requires short { IsShort (Record.Write transaction table key.now (option_copied before) (option_copied after)) }
    requires room { fill + length (fields (Record.Write transaction table key.now (option_copied before) (option_copied after))) ≤ length buffer.old }
    ensures filled { Filled fill buffer.old result buffer.new (fields (Record.Write transaction table key.now (option_copied before.entry) (option_copied after.entry))) }
    ensures fits { Fits (Record.Write transaction table key.now (option_copied before.entry) (option_copied after.entry)) }
{
    let of_transaction = put_u64(buffer, fill, transaction);
    let of_table = put_u32(buffer, of_transaction, table);
    let of_key = put_bytes(buffer, of_table, key);
    let of_before = put_row(buffer, of_key, before);
    put_row(buffer, of_before, after)
}

fn put_delta(
    buffer: &mut [u8],
    fill: usize,
    transaction: u64,
    view: u32,
    group: &[u8],
    count: i8,
    sums: &[i128],
) -> usize
    requires short { IsShort (Record.Delta transaction view group.now count sums.now) }
    requires room { fill + length (fields (Record.Delta transaction view group.now count sums.now)) ≤ length buffer.old }
    ensures filled { Filled fill buffer.old result buffer.new (fields (Record.Delta transaction view group.now count sums.now)) }
    ensures fits { Fits (Record.Delta transaction view group.now count sums.now) }
{
    let of_transaction = put_u64(buffer, fill, transaction);
    let of_view = put_u32(buffer, of_transaction, view);
    let of_group = put_bytes(buffer, of_view, group);
    let of_count = put_u8(buffer, of_group, count.cast_unsigned());
    put_numbers(buffer, of_count, sums)
}

fn put_group(buffer: &mut [u8], fill: usize, view: u32, group: &[u8]) -> usize
    requires short { IsShort (Record.Ghost view group.now) }
    requires room { fill + length (fields (Record.Ghost view group.now)) ≤ length buffer.old }
    ensures filled { Filled fill buffer.old result buffer.new (fields (Record.Ghost view group.now)) }
    ensures fits { Fits (Record.Ghost view group.now) }
{
    let of_view = put_u32(buffer, fill, view);
    put_bytes(buffer, of_view, group)
}

fn put_undo(buffer: &mut [u8], fill: usize, transaction: u64, number: u64) -> usize
    requires { fill + 16 ≤ length buffer.old }
    ensures filled { Filled fill buffer.old result buffer.new (fields (Record.Undo transaction number)) }
    ensures fits { Fits (Record.Undo transaction number) }
{
    let of_transaction = put_u64(buffer, fill, transaction);
    put_u64(buffer, of_transaction, number)
}

fn put_commit(buffer: &mut [u8], fill: usize, transaction: u64, commit: u64, session: u32) -> usize
    requires { fill + 20 ≤ length buffer.old }
    ensures filled { Filled fill buffer.old result buffer.new (fields (Record.Commit transaction commit session)) }
    ensures fits { Fits (Record.Commit transaction commit session) }
{
    let of_transaction = put_u64(buffer, fill, transaction);
    let of_commit = put_u64(buffer, of_transaction, commit);
    put_u32(buffer, of_commit, session)
}

fn put_schema(buffer: &mut [u8], fill: usize, commit: u64, session: u32, text: &[u8]) -> usize
    requires short { IsShort (Record.Schema commit session text.now) }
    requires room { fill + length (fields (Record.Schema commit session text.now)) ≤ length buffer.old }
    ensures filled { Filled fill buffer.old result buffer.new (fields (Record.Schema commit session text.now)) }
    ensures fits { Fits (Record.Schema commit session text.now) }
{
    let of_commit = put_u64(buffer, fill, commit);
    let of_session = put_u32(buffer, of_commit, session);
    put_text(buffer, of_session, text)
}

fn put_fields(buffer: &mut [u8], fill: usize, lent: LentRecord<'_>) -> usize
    requires short { IsShort (stands_for lent) }
    requires room { fill + length (fields (stands_for lent)) ≤ length buffer.old }
    ensures filled { Filled fill buffer.old result buffer.new (fields (stands_for lent.entry)) }
    ensures fits { Fits (stands_for lent.entry) }
{
    match lent {
        LentRecord::Write {
            transaction,
            table,
            key,
            before,
            after,
        } => put_write(buffer, fill, transaction, table, key, before, after),
        LentRecord::Delta {
            transaction,
            view,
            group,
            count,
            sums,
        } => put_delta(buffer, fill, transaction, view, group, count, sums),
        LentRecord::Ghost { view, group } => put_group(buffer, fill, view, group),
        LentRecord::Clean { view, group } => put_group(buffer, fill, view, group),
        LentRecord::Undo {
            transaction,
            number,
        } => put_undo(buffer, fill, transaction, number),
        LentRecord::Commit {
            transaction,
            commit,
            session,
        } => put_commit(buffer, fill, transaction, commit, session),
        LentRecord::Abort { transaction } => put_u64(buffer, fill, transaction),
        LentRecord::Schema {
            commit,
            session,
            text,
        } => put_schema(buffer, fill, commit, session, text),
    }
}

fn kind(lent: LentRecord<'_>) -> u8
    ensures { result ≡ kind_of (stands_for lent.entry) }
{
    match lent {
        LentRecord::Write { .. } => 1,
        LentRecord::Delta { .. } => 2,
        LentRecord::Ghost { .. } => 3,
        LentRecord::Clean { .. } => 4,
        LentRecord::Undo { .. } => 5,
        LentRecord::Commit { .. } => 6,
        LentRecord::Abort { .. } => 7,
        LentRecord::Schema { .. } => 8,
    }
}

/// Puts a record behind the first bytes of the buffer, and answers how many there are then.
pub fn put_entry(buffer: &mut [u8], fill: usize, number: u64, lent: LentRecord<'_>) -> usize
    requires short { IsShort (stands_for lent) }
    requires room { fill + length (spelling number (stands_for lent)) ≤ length buffer.old }
    ensures filled { Filled fill buffer.old result buffer.new (spelling number (stands_for lent.entry)) }
    ensures fits { Fits (stands_for lent.entry) }
{
    let of_kind = put_u8(buffer, fill, kind(lent));
    let of_number = put_u64(buffer, of_kind, number);
    put_fields(buffer, of_number, lent)
}

fn row_size(row: Option<&[u8]>) -> u128
    ensures size { result ≡ length (optional (option_copied row.entry)) }
    ensures most { result < 2 ^ 65 }
{
    match row {
        None => 1,
        Some(bytes) => 3 + bytes.len() as u128,
    }
}

/// How many bytes a record has, also one that is too long to be written.
pub fn entry_size(lent: LentRecord<'_>) -> u128
    ensures size { result ≡ 9 + length (fields (stands_for lent.entry)) }
    ensures small { IsShort (stands_for lent.entry) → result < 2 ^ 33 }
{
    match lent {
        LentRecord::Write {
            key,
            before,
            after,
            ..
        } => 23 + key.len() as u128 + row_size(before) + row_size(after),
        LentRecord::Delta { group, sums, .. } => {
            25 + group.len() as u128 + 16 * sums.len() as u128
        }
        LentRecord::Ghost { group, .. } => 15 + group.len() as u128,
        LentRecord::Clean { group, .. } => 15 + group.len() as u128,
        LentRecord::Undo { .. } => 25,
        LentRecord::Commit { .. } => 29,
        LentRecord::Abort { .. } => 17,
        LentRecord::Schema { text, .. } => 25 + text.len() as u128,
    }
}

/// The bytes of a record with this number: its kind, its number and its fields.
///
/// # Errors
///
/// Where there is no memory for them.
pub fn entry_bytes(alloc: Global, lent: LentRecord<'_>, number: u64) -> Result<Bytes, NoMemory>
    requires { IsShort (stands_for lent) }
    ensures { IfOk result (λ bytes. bytes ≡ spelling number (stands_for lent.entry)) }
{
    let mut bytes = vec![in alloc; 0; entry_size(lent) as usize]?;
    put_entry(&mut bytes, 0, number, lent);
    Ok(Bytes::from_vec(bytes))
}

fn row_is_short(row: Option<&[u8]>) -> bool
    ensures yes { IsTrue result → IfSome (option_copied row.entry) (λ bytes. length bytes < 2 ^ 16) }
    ensures no { IfSome (option_copied row.entry) (λ bytes. length bytes < 2 ^ 16) → IsTrue result }
{
    match row {
        None => true,
        Some(bytes) => bytes.len() <= MOST_FIELD,
    }
}

/// Whether the record's bytes can hold it: keys, groups and rows of at most 65,535 bytes, a text below 2^32 bytes and at
/// most 255 sums.
pub fn is_short(lent: LentRecord<'_>) -> bool
    ensures yes { IsTrue result → IsShort (stands_for lent.entry) }
    ensures no { IsShort (stands_for lent.entry) → IsTrue result }
{
    match lent {
        LentRecord::Write {
            key,
            before,
            after,
            ..
        } => key.len() <= MOST_FIELD && row_is_short(before) && row_is_short(after),
        LentRecord::Delta { group, sums, .. } => {
            group.len() <= MOST_FIELD && sums.len() <= MOST_SUMS
        }
        LentRecord::Ghost { group, .. } => group.len() <= MOST_FIELD,
        LentRecord::Clean { group, .. } => group.len() <= MOST_FIELD,
        LentRecord::Undo { .. } => true,
        LentRecord::Commit { .. } => true,
        LentRecord::Abort { .. } => true,
        LentRecord::Schema { text, .. } => text.len() <= MOST_TEXT,
    }
}
