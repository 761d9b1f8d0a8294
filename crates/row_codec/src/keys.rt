//! Keys in bytes. Numbers stand in order where their top bit is flipped, which adds half of what their bytes can count.
//! A text ends at two bytes 0, and each byte 0 of its own has a byte 255 behind it.
ghost use Rattle.std.specs.Prelude.{◌≡◌, ◌++◌, [], List, IfOk, IfErr, IfSome, IfNone, OnOk};
ghost use Rattle.std.specs.List.{flat_map};
ghost use Rattle.std.specs.Int.{w64};
ghost use Rattle.std.specs.Int.RustNames.{FitsSigned};
ghost use Rattle.iv_types.specs.declared.value.Value.{Value};
ghost use Rattle.iv_types.specs.declared.value.Kind.TheVariants as kinds;
ghost use Rattle.iv_types.specs.declared.value.Value.TheVariants as values;
ghost use Rattle.iv_types.specs.Encoding.{Fits, FitAll, key_byte, key_value_bytes, key_bytes};
ghost use Rattle.iv_types.specs.BadRow.{KeyBreaks, IsBadKey};
ghost use Rattle.row_codec.specs.Columns.{Blames, Gives, IsBroken, IsStop};

use crate::RowFault;
use crate::text::is_utf8;
use byteorder::{BigEndian, ByteOrder};
use iv_types::{Bytes, GREATEST_NUMBER, Kind, LEAST_INT, LONGEST_TEXT, NoMemory, Row, Value};
use std::alloc::Global;

// Half of what 8 bytes can count.
const HALF_INT: i128 = -LEAST_INT;

// Half of what 16 bytes can count.
const HALF_HUGE: u128 = GREATEST_NUMBER + 1;

fn put_int(out: &mut Vec<u8>, number: i128) -> Result<(), NoMemory>
    requires { FitsSigned w64 number }
    ensures { OnOk result (out.new.items ≡ out.old.items ++ key_value_bytes kinds.Int (values.Number number)) }
{
    let mut bytes = [0; 8];
    BigEndian::write_u64(&mut bytes, (number + HALF_INT) as u64);
    out.extend_from_slice(&bytes)?;
    Ok(())
}

fn put_huge(out: &mut Vec<u8>, number: i128) -> Result<(), NoMemory>
    ensures { OnOk result (out.new.items ≡ out.old.items ++ key_value_bytes kinds.Huge (values.Number number)) }
{
    let mut bytes = [0; 16];
    BigEndian::write_u128(&mut bytes, number.cast_unsigned().wrapping_add(HALF_HUGE));
    out.extend_from_slice(&bytes)?;
    Ok(())
}

// Adds a byte of a text.
fn put_byte(out: &mut Vec<u8>, byte: u8) -> Result<(), NoMemory>
    ensures { OnOk result (out.new.items ≡ out.old.items ++ key_byte byte) }
{
    out.push(byte)?;
    if byte == 0 {
        out.push(255)?;
    }
    Ok(())
}

fn put_text(out: &mut Vec<u8>, text: &[u8]) -> Result<(), NoMemory>
    ensures { OnOk result (out.new.items ≡ out.old.items ++ key_value_bytes kinds.Text (values.Word text.now)) }
{
    for byte in text {
        put_byte(out, *byte)?;
    }
    out.extend_from_slice(&[0, 0])?;
    Ok(())
}

// Adds the bytes of a column.
#[tactic(auto, using(iv_types::proofs::Fitting::int_is))]
fn put_value(out: &mut Vec<u8>, kind: Kind, value: &Value) -> Result<(), NoMemory>
    requires { Fits kind value.now }
    ensures { OnOk result (out.new.items ≡ out.old.items ++ key_value_bytes kind value.now) }
{
    match value {
        Value::Number(number) => match kind {
            Kind::Int => put_int(out, *number),
            Kind::Huge => put_huge(out, *number),
            Kind::Text => unreachable!(),
        },
        Value::Word(text) => match kind {
            Kind::Text => put_text(out, text.as_slice()),
            _ => unreachable!(),
        },
    }
}

/// The bytes of a key of these columns.
///
/// # Errors
///
/// Where there is no memory for them.
pub fn encode_key(alloc: Global, kinds: &[Kind], values: &[Value]) -> Result<Bytes, NoMemory>
    requires { FitAll kinds.now values.now }
    ensures { IfOk result (λ bytes. bytes ≡ key_bytes kinds.now values.now) }
{
    let mut bytes = Vec::new(alloc);
    for (place, kind) in kinds.iter().enumerate() {
        put_value(&mut bytes, *kind, &values[place])?;
    }
    Ok(Bytes::from_vec(bytes))
}

#[tactic(auto, using(iv_types::proofs::Fitting::int_so))]
fn int_of(bytes: &[u8], place: u64) -> Result<(Value, &[u8]), RowFault>
    ensures taken { IfOk result (λ x. Fits kinds.Int x.0 × (bytes.now ≡ key_value_bytes kinds.Int x.0 ++ x.1.now)) }
    ensures broken { IfErr result (Blames (IsBroken KeyBreaks kinds.Int bytes.now place)) }
{
    if bytes.len() < 8 {
        return Err(RowFault::BadRow { rule: 1, place });
    }
    let shifted = BigEndian::read_u64(bytes);
    Ok((Value::Number(i128::from(shifted) - HALF_INT), &bytes[8..]))
}

fn huge_of(bytes: &[u8], place: u64) -> Result<(Value, &[u8]), RowFault>
    ensures taken { IfOk result (λ x. Fits kinds.Huge x.0 × (bytes.now ≡ key_value_bytes kinds.Huge x.0 ++ x.1.now)) }
    ensures broken { IfErr result (Blames (IsBroken KeyBreaks kinds.Huge bytes.now place)) }
{
    if bytes.len() < 16 {
        return Err(RowFault::BadRow { rule: 1, place });
    }
    let shifted = BigEndian::read_u128(bytes);
    if shifted == 0 {
        return Err(RowFault::BadRow { rule: 2, place });
    }
    let number = shifted.wrapping_sub(HALF_HUGE).cast_signed();
    Ok((Value::Number(number), &bytes[16..]))
}

// The byte of a text at the front, and the bytes after it, or nothing where the text goes no further.
pub fn byte_of(bytes: &[u8]) -> Option<(u8, &[u8])>
    ensures some { IfSome result (λ x. bytes.now ≡ key_byte x.0 ++ x.1.now) }
    ensures none { IfNone result (IsStop bytes.now) }
{
    match bytes {
        [] => None,
        [0, 255, rest @ ..] => Some((0, rest)),
        [0, ..] => None,
        [byte, rest @ ..] => Some((*byte, rest)),
    }
}

// The text at the front, and the bytes after it.
fn front_of(alloc: Global, bytes: &[u8]) -> Result<(Vec<u8>, &[u8]), NoMemory>
    ensures { IfOk result (λ x. (bytes.now ≡ flat_map key_byte x.0.items ++ x.1.now) × IsStop x.1.now) }
{
    let mut text = Vec::new(alloc);
    let mut rest = bytes;
    while let Some((byte, after)) = byte_of(rest) {
        text.push(byte)?;
        rest = after;
    }
    Ok((text, rest))
}

fn text_of(alloc: Global, bytes: &[u8], place: u64) -> Result<(Value, &[u8]), RowFault>
    ensures taken { IfOk result (λ x. Fits kinds.Text x.0 × (bytes.now ≡ key_value_bytes kinds.Text x.0 ++ x.1.now)) }
    ensures broken { IfErr result (Blames (IsBroken KeyBreaks kinds.Text bytes.now place)) }
{
    let (text, rest) = front_of(alloc, bytes)?;
    if rest.len() < 2 {
        return Err(RowFault::BadRow { rule: 1, place });
    }
    if rest[1] != 0 {
        return Err(RowFault::BadRow { rule: 6, place });
    }
    if text.len() > LONGEST_TEXT {
        return Err(RowFault::BadRow { rule: 3, place });
    }
    if !is_utf8(&text) {
        return Err(RowFault::BadRow { rule: 4, place });
    }
    Ok((Value::Word(Bytes::from_vec(text)), &rest[2..]))
}

// The column at the front of the bytes, which begins at this place of the key, and the bytes after it.
fn value_of(alloc: Global, kind: Kind, bytes: &[u8], place: u64) -> Result<(Value, &[u8]), RowFault>
    ensures taken { IfOk result (λ x. Fits kind x.0 × (bytes.now ≡ key_value_bytes kind x.0 ++ x.1.now)) }
    ensures broken { IfErr result (Blames (IsBroken KeyBreaks kind bytes.now place)) }
{
    match kind {
        Kind::Int => int_of(bytes, place),
        Kind::Huge => huge_of(bytes, place),
        Kind::Text => text_of(alloc, bytes, place),
    }
}

// The values that the bytes encode.
fn columns_of(alloc: Global, kinds: &[Kind], bytes: &[u8]) -> Result<Vec<Value>, RowFault>
    ensures found { IfOk result (λ row. FitAll kinds.now row.items × (bytes.now ≡ key_bytes kinds.now row.items)) }
    ensures fault { IfErr result (Blames (IsBadKey kinds.now bytes.now)) }
{
    let mut values = Vec::new(alloc);
    let mut rest = bytes;
    for kind in kinds {
        let place = (bytes.len() - rest.len()) as u64;
        let (value, after) = value_of(alloc, *kind, rest, place)?;
        values.push(value)?;
        rest = after;
    }
    if !rest.is_empty() {
        let place = (bytes.len() - rest.len()) as u64;
        return Err(RowFault::BadRow { rule: 5, place });
    }
    Ok(values)
}

/// The values of the key that the bytes encode.
///
/// # Errors
///
/// `BadRow` where the bytes are no key of these columns, with the first column that fails and the least rule that it
/// breaks, and `NoMemory` where there is no memory for the values.
pub fn decode_key(alloc: Global, kinds: &[Kind], bytes: &[u8]) -> Result<Row, RowFault>
    ensures found { IfOk result (λ row. FitAll kinds.now row × (bytes.now ≡ key_bytes kinds.now row)) }
    ensures fault { IfErr result (Blames (IsBadKey kinds.now bytes.now)) }
    ensures again { (row : List Value) → FitAll kinds.now row → bytes.now ≡ key_bytes kinds.now row → Gives result row }
{
    Ok(Row::from_vec(columns_of(alloc, kinds, bytes)?))
}
