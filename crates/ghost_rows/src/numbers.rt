//! The numbers of a stored row: the count and the sums, each of 16 bytes.
ghost use Rattle.std.specs.Prelude.{◌≡◌, ◌+◌, ◌*◌, ◌<◌, ◌≤◌, ◌++◌, ◌+ℤ◌, neg_ℤ, ℕ, ℤ, List, length, get_or, pos, FitsSigned, IfOk, OnOk, if◌then◌else◌, vec_capacity, vec_len};
ghost use Rattle.std.specs.Int.{w128, int_wrapping_add};
ghost use Rattle.std.specs.List.{AllByRecursion};
ghost use Rattle.iv_types.specs.declared.value.Kind.TheVariants.{Huge};
ghost use Rattle.iv_types.specs.declared.value.Value.TheVariants.{Number};
ghost use Rattle.iv_types.specs.Encoding.{value_bytes, IsHuge};
ghost use Rattle.txn_machine.specs.Deltas.{worth};
ghost use Rattle.ghost_rows.specs.Numbers.{numbers_bytes, moved, Fits128};
ghost use Rattle.ghost_rows.specs.Kept.{width, IsDelta};

use byteorder::{BigEndian, ByteOrder};
use iv_types::{Bytes, GroupDelta, NoMemory};
use std::alloc::Global;

/// How many numbers a row of the delta's view has.
pub fn width(delta: &GroupDelta) -> usize
    requires { IsDelta delta.now }
    ensures { result ≡ width delta.now }
{
    delta.sums.as_slice().len() + 1
}

/// What a delta adds to a column; the count is column 0, and the sums are those behind it.
pub fn worth(delta: &GroupDelta, column: usize) -> i128
    ensures value { result ≡ worth column delta.now }
    ensures huge { AllByRecursion IsHuge delta.now.sums → IsHuge result }
{
    if column == 0 {
        return i128::from(delta.count);
    }
    match delta.sums.as_slice().get(column - 1) {
        Some(sum) => *sum,
        None => 0,
    }
}

/// The number at the front, and the bytes behind it.
pub fn front(bytes: &[u8]) -> (i128, &[u8])
    requires { 16 ≤ length bytes.now }
    ensures bytes { bytes.now ≡ value_bytes Huge (Number result.0) ++ result.1.now }
    ensures fits { FitsSigned w128 result.0 }
{
    (BigEndian::read_i128(bytes), &bytes[16..])
}

/// Adds the bytes of a number, for which there is room.
pub fn put(out: &mut Vec<u8>, number: i128)
    requires { vec_len out.old + 16 ≤ vec_capacity out.old }
    ensures items { out.new.items ≡ out.old.items ++ value_bytes Huge (Number number) }
    ensures len { vec_len out.new ≡ vec_len out.old + 16 }
    ensures capacity { vec_capacity out.old ≤ vec_capacity out.new }
{
    let mut bytes = [0; 16];
    BigEndian::write_i128(&mut bytes, number);
    match out.extend_from_slice(&bytes) {
        Ok(()) => {}
        Err(_) => unreachable!(),
    }
}

/// Adds the bytes of a number.
///
/// # Errors
///
/// Where there is no memory for them.
pub fn push(out: &mut Vec<u8>, number: i128) -> Result<(), NoMemory>
    ensures { OnOk result (out.new.items ≡ out.old.items ++ value_bytes Huge (Number number)) }
{
    let mut bytes = [0; 16];
    BigEndian::write_i128(&mut bytes, number);
    out.extend_from_slice(&bytes)?;
    Ok(())
}

/// The bytes of a stored row with these numbers.
///
/// # Errors
///
/// Where there is no memory for them.
pub fn bytes_of(alloc: Global, numbers: &[i128]) -> Result<Bytes, NoMemory>
    ensures { IfOk result (λ bytes. bytes ≡ numbers_bytes numbers.now) }
{
    let mut out = Vec::new(alloc);
    for index in 0..numbers.len() {
        push(&mut out, numbers[index])?;
    }
    Ok(Bytes::from_vec(out))
}

// A number with a step added to it, or taken back.
fn stepped(number: i128, step: i128, back: bool) -> i128
    ensures { FitsSigned w128 (number +ℤ (if back then neg_ℤ step else step)) → result ≡ number +ℤ (if back then neg_ℤ step else step) }
{
    if back {
        number.wrapping_sub(step)
    } else {
        number.wrapping_add(step)
    }
}

/// The sum of two numbers, where it fits.
pub fn total(number: i128, more: i128) -> i128
    ensures { result ≡ int_wrapping_add w128 number more }
{
    number.wrapping_add(more)
}

/// Adds the numbers of a stored row with a delta added to them, or taken back. There is room for them.
pub fn put_moved(out: &mut Vec<u8>, stored: &[u8], many: usize, delta: &GroupDelta, back: bool)
    requires room { vec_len out.old + 16 * many ≤ vec_capacity out.old }
    requires stored { length stored.now ≡ 16 * many }
    ensures { (numbers : List ℤ) → Fits128 numbers → Fits128 (moved back 0 numbers delta.now) → stored.now ≡ numbers_bytes numbers
        → out.new.items ≡ out.old.items ++ numbers_bytes (moved back 0 numbers delta.now) }
{
    let mut rest = stored;
    for column in 0..many {
        let (number, after) = front(rest);
        put(out, stepped(number, worth(delta, column), back));
        rest = after;
    }
}

/// The numbers of a stored row.
///
/// # Errors
///
/// Where there is no memory for them.
pub fn numbers_of(alloc: Global, stored: &[u8], many: usize) -> Result<Vec<i128>, NoMemory>
    requires { length stored.now ≡ 16 * many }
    ensures many { IfOk result (λ found. length found.items ≡ many) }
    ensures value { IfOk result (λ found. (numbers : List ℤ) → Fits128 numbers → stored.now ≡ numbers_bytes numbers → found.items ≡ numbers) }
{
    let mut found = Vec::new(alloc);
    let mut rest = stored;
    while !rest.is_empty() {
        let (number, after) = front(rest);
        found.push(number)?;
        rest = after;
    }
    Ok(found)
}
