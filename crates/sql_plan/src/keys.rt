//! The keys of any values, also of those that do not fit the columns. Such a value has the bytes that the definition of keys
//! gives it, so that an interval of a plan can be told of whatever rows came before.
ghost use Rattle.std.specs.Prelude.{◌≡◌, ◌<ℤ◌, ◌++◌, ◌+ℤ◌, ◌^◌, pos, IfOk, OnOk};
ghost use Rattle.std.specs.Int.{w64, cast_unsigned};
ghost use Rattle.iv_types.specs.declared.value.Kind.TheVariants as kinds;
ghost use Rattle.iv_types.specs.declared.value.Value.TheVariants as values;
ghost use Rattle.iv_types.specs.Encoding.{key_byte, key_value_bytes, key_bytes};

use byteorder::{BigEndian, ByteOrder};
use iv_types::{Bytes, GREATEST_NUMBER, Kind, LEAST_INT, NoMemory, Value};
use std::alloc::Global;

// How many numbers 8 bytes can tell apart, and half of them.
const ALL_INT: u128 = 1 << 64;

const HALF_INT: i128 = -LEAST_INT;

// Half of what 16 bytes can count.
const HALF_HUGE: u128 = GREATEST_NUMBER + 1;

// A number with half of what 8 bytes can count added. Far below the INT range it is 0.
fn shifted_int(number: i128) -> u128
    ensures { result ≡ cast_unsigned w64 (number +ℤ pos (2 ^ 63)) }
{
    if number < LEAST_INT {
        return ALL_INT.saturating_sub((number + HALF_INT).unsigned_abs());
    }
    number.cast_unsigned().wrapping_add(HALF_INT as u128)
}

// Its lowest 8 bytes stand in the key.
fn put_int(out: &mut Vec<u8>, number: i128) -> Result<(), NoMemory>
    ensures { OnOk result (out.new.items ≡ out.old.items ++ key_value_bytes kinds.Int (values.Number number)) }
{
    let mut bytes = [0; 16];
    BigEndian::write_u128(&mut bytes, shifted_int(number));
    out.extend_from_slice(&bytes[8..])?;
    Ok(())
}

fn put_huge(out: &mut Vec<u8>, number: i128) -> Result<(), NoMemory>
    ensures { OnOk result (out.new.items ≡ out.old.items ++ key_value_bytes kinds.Huge (values.Number number)) }
{
    let mut bytes = [0; 16];
    BigEndian::write_u128(&mut bytes, number.cast_unsigned().wrapping_add(HALF_HUGE));
    out.extend_from_slice(&bytes)?;
    Ok(())
}

// Adds a byte of a text.
fn put_byte(out: &mut Vec<u8>, byte: u8) -> Result<(), NoMemory>
    ensures { OnOk result (out.new.items ≡ out.old.items ++ key_byte byte) }
{
    out.push(byte)?;
    if byte == 0 {
        out.push(255)?;
    }
    Ok(())
}

fn put_text(out: &mut Vec<u8>, text: &[u8]) -> Result<(), NoMemory>
    ensures { OnOk result (out.new.items ≡ out.old.items ++ key_value_bytes kinds.Text (values.Word text.now)) }
{
    for byte in text {
        put_byte(out, *byte)?;
    }
    out.extend_from_slice(&[0, 0])?;
    Ok(())
}

// Adds the bytes of a column. A value of another family has none.
pub fn put_value(out: &mut Vec<u8>, kind: Kind, value: &Value) -> Result<(), NoMemory>
    ensures { OnOk result (out.new.items ≡ out.old.items ++ key_value_bytes kind value.now) }
{
    match value {
        Value::Number(number) => match kind {
            Kind::Int => put_int(out, *number),
            Kind::Huge => put_huge(out, *number),
            Kind::Text => Ok(()),
        },
        Value::Word(text) => match kind {
            Kind::Text => put_text(out, text.as_slice()),
            Kind::Int => Ok(()),
            Kind::Huge => Ok(()),
        },
    }
}

/// The bytes of a key of these columns, by the definition of keys, whether or not the values fit them.
///
/// # Errors
///
/// Where there is no memory for them.
pub fn key_bytes(alloc: Global, kinds: &[Kind], values: &[Value]) -> Result<Bytes, NoMemory>
    ensures { IfOk result (λ bytes. bytes ≡ key_bytes kinds.now values.now) }
{
    let mut bytes = Vec::new(alloc);
    for place in 0..kinds.len().min(values.len()) {
        put_value(&mut bytes, kinds[place], &values[place])?;
    }
    Ok(Bytes::from_vec(bytes))
}
