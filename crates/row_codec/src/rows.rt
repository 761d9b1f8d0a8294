//! Rows in bytes.
ghost use Rattle.std.specs.Prelude.{◌≡◌, ◌≤◌, ◌++◌, List, length, IfOk, IfErr, OnOk};
ghost use Rattle.iv_types.specs.declared.value.Value.{Value};
ghost use Rattle.iv_types.specs.declared.value.Kind.TheVariants as kinds;
ghost use Rattle.iv_types.specs.declared.value.Value.TheVariants as values;
ghost use Rattle.iv_types.specs.Encoding.{Fits, FitAll, value_bytes, row_bytes, longest_text, kinds_of};
ghost use Rattle.iv_types.specs.BadRow.{RowBreaks, IsBadRow};
ghost use Rattle.row_codec.specs.Columns.{Blames, Gives, IsBroken};

use crate::RowFault;
use crate::text::is_utf8;
use byteorder::{BigEndian, ByteOrder};
use iv_types::{Bytes, Kind, LONGEST_TEXT, NoMemory, Row, TableDef, Value};
use std::alloc::Global;

fn put_int(out: &mut Vec<u8>, number: i64) -> Result<(), NoMemory>
    ensures { OnOk result (out.new.items ≡ out.old.items ++ value_bytes kinds.Int (values.Number number)) }
{
    let mut bytes = [0; 8];
    BigEndian::write_i64(&mut bytes, number);
    out.extend_from_slice(&bytes)?;
    Ok(())
}

fn put_huge(out: &mut Vec<u8>, number: i128) -> Result<(), NoMemory>
    ensures { OnOk result (out.new.items ≡ out.old.items ++ value_bytes kinds.Huge (values.Number number)) }
{
    let mut bytes = [0; 16];
    BigEndian::write_i128(&mut bytes, number);
    out.extend_from_slice(&bytes)?;
    Ok(())
}

fn put_text(out: &mut Vec<u8>, text: &[u8]) -> Result<(), NoMemory>
    requires { length text.now ≤ longest_text }
    ensures { OnOk result (out.new.items ≡ out.old.items ++ value_bytes kinds.Text (values.Word text.now)) }
{
    let mut bytes = [0; 2];
    BigEndian::write_u16(&mut bytes, text.len() as u16);
    out.extend_from_slice(&bytes)?;
    out.extend_from_slice(text)?;
    Ok(())
}

// Adds the bytes of a column.
#[tactic(auto, using(iv_types::proofs::Fitting::int_is, iv_types::proofs::Fitting::text_is))]
fn put_value(out: &mut Vec<u8>, kind: Kind, value: &Value) -> Result<(), NoMemory>
    requires { Fits kind value.now }
    ensures { OnOk result (out.new.items ≡ out.old.items ++ value_bytes kind value.now) }
{
    match value {
        Value::Number(number) => match kind {
            Kind::Int => put_int(out, *number as i64),
            Kind::Huge => put_huge(out, *number),
            Kind::Text => unreachable!(),
        },
        Value::Word(text) => match kind {
            Kind::Text => put_text(out, text.as_slice()),
            _ => unreachable!(),
        },
    }
}

/// The bytes of a row of the table.
///
/// # Errors
///
/// Where there is no memory for them.
pub fn encode_row(alloc: Global, table: &TableDef, row: &Row) -> Result<Bytes, NoMemory>
    requires { FitAll (kinds_of table.now) row.now }
    ensures { IfOk result (λ bytes. bytes ≡ row_bytes (kinds_of table.now) row.now) }
{
    let mut bytes = Vec::new(alloc);
    let values = row.as_slice();
    for (place, column) in table.columns.as_slice().iter().enumerate() {
        put_value(&mut bytes, column.kind, &values[place])?;
    }
    Ok(Bytes::from_vec(bytes))
}

fn int_of(bytes: &[u8], place: u64) -> Result<(Value, &[u8]), RowFault>
    ensures taken { IfOk result (λ x. Fits kinds.Int x.0 × (bytes.now ≡ value_bytes kinds.Int x.0 ++ x.1.now)) }
    ensures broken { IfErr result (Blames (IsBroken RowBreaks kinds.Int bytes.now place)) }
{
    if bytes.len() < 8 {
        return Err(RowFault::BadRow { rule: 1, place });
    }
    let number = BigEndian::read_i64(bytes);
    Ok((Value::Number(i128::from(number)), &bytes[8..]))
}

fn huge_of(bytes: &[u8], place: u64) -> Result<(Value, &[u8]), RowFault>
    ensures taken { IfOk result (λ x. Fits kinds.Huge x.0 × (bytes.now ≡ value_bytes kinds.Huge x.0 ++ x.1.now)) }
    ensures broken { IfErr result (Blames (IsBroken RowBreaks kinds.Huge bytes.now place)) }
{
    if bytes.len() < 16 {
        return Err(RowFault::BadRow { rule: 1, place });
    }
    let number = BigEndian::read_i128(bytes);
    if number == i128::MIN {
        return Err(RowFault::BadRow { rule: 2, place });
    }
    Ok((Value::Number(number), &bytes[16..]))
}

fn text_of(alloc: Global, bytes: &[u8], place: u64) -> Result<(Value, &[u8]), RowFault>
    ensures taken { IfOk result (λ x. Fits kinds.Text x.0 × (bytes.now ≡ value_bytes kinds.Text x.0 ++ x.1.now)) }
    ensures broken { IfErr result (Blames (IsBroken RowBreaks kinds.Text bytes.now place)) }
{
    if bytes.len() < 2 {
        return Err(RowFault::BadRow { rule: 1, place });
    }
    let length = BigEndian::read_u16(bytes) as usize;
    let rest = &bytes[2..];
    if rest.len() < length {
        return Err(RowFault::BadRow { rule: 1, place });
    }
    if length > LONGEST_TEXT {
        return Err(RowFault::BadRow { rule: 3, place });
    }
    let text = &rest[..length];
    if !is_utf8(text) {
        return Err(RowFault::BadRow { rule: 4, place });
    }
    let text = Bytes::from_vec(Vec::from_slice(alloc, text)?);
    Ok((Value::Word(text), &rest[length..]))
}

// The column at the front of the bytes, which begins at this place of the row, and the bytes after it.
fn value_of(alloc: Global, kind: Kind, bytes: &[u8], place: u64) -> Result<(Value, &[u8]), RowFault>
    ensures taken { IfOk result (λ x. Fits kind x.0 × (bytes.now ≡ value_bytes kind x.0 ++ x.1.now)) }
    ensures broken { IfErr result (Blames (IsBroken RowBreaks kind bytes.now place)) }
{
    match kind {
        Kind::Int => int_of(bytes, place),
        Kind::Huge => huge_of(bytes, place),
        Kind::Text => text_of(alloc, bytes, place),
    }
}

// The row that the bytes encode.
fn columns_of(alloc: Global, table: &TableDef, bytes: &[u8]) -> Result<Vec<Value>, RowFault>
    ensures found { IfOk result (λ row. FitAll (kinds_of table.now) row.items × (bytes.now ≡ row_bytes (kinds_of table.now) row.items)) }
    ensures fault { IfErr result (Blames (IsBadRow (kinds_of table.now) bytes.now)) }
{
    let mut values = Vec::new(alloc);
    let mut rest = bytes;
    for column in table.columns.as_slice() {
        let place = (bytes.len() - rest.len()) as u64;
        let (value, after) = value_of(alloc, column.kind, rest, place)?;
        values.push(value)?;
        rest = after;
    }
    if !rest.is_empty() {
        let place = (bytes.len() - rest.len()) as u64;
        return Err(RowFault::BadRow { rule: 5, place });
    }
    Ok(values)
}

/// The row that the bytes encode.
///
/// # Errors
///
/// `BadRow` where the bytes are no row of the table, with the first column that fails and the least rule that it
/// breaks, and `NoMemory` where there is no memory for the row.
pub fn decode_row(alloc: Global, table: &TableDef, bytes: &[u8]) -> Result<Row, RowFault>
    ensures found { IfOk result (λ row. FitAll (kinds_of table.now) row × (bytes.now ≡ row_bytes (kinds_of table.now) row)) }
    ensures fault { IfErr result (Blames (IsBadRow (kinds_of table.now) bytes.now)) }
    ensures again { (row : List Value) → FitAll (kinds_of table.now) row → bytes.now ≡ row_bytes (kinds_of table.now) row → Gives result row }
{
    Ok(Row::from_vec(columns_of(alloc, table, bytes)?))
}
