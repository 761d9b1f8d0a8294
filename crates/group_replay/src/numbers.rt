//! The numbers of a stored row: whether they are zeros, and whether they stay in range with a delta.
ghost use Rattle.std.specs.Prelude.{◌≡◌, ◌↔◌, ◌+◌, ◌*◌, ◌<◌, ◌^◌, ◌+ℤ◌, neg_ℤ, ℕ, ℤ, pos, List, length, IsTrue, IfOk, IfSome, IfNone, if◌then◌else◌};
ghost use Rattle.std.specs.List.{AllByRecursion};
ghost use Rattle.iv_types.specs.Encoding.{IsHuge};
ghost use Rattle.ghost_rows.specs.Numbers.{numbers_bytes, Fits128, moved};

use ghost_rows::numbers::{front, put_moved, worth};
use iv_types::{Bytes, GroupDelta, NoMemory};
use std::alloc::Global;

/// Whether each number of a stored row is 0.
pub(crate) fn are_zeros(stored: &[u8]) -> bool
    requires { (many : ℕ) × (length stored.now ≡ 16 * many) }
    ensures { (numbers : List ℤ) → Fits128 numbers → stored.now ≡ numbers_bytes numbers → IsTrue result ↔ AllByRecursion (λ n. n ≡ pos 0) numbers }
{
    if stored.is_empty() {
        return true;
    }
    let (number, after) = front(stored);
    if number != 0 {
        return false;
    }
    are_zeros(after)
}

// Whether a number with a step added to it, or taken back, is in the HUGE range.
fn is_huge_sum(number: i128, step: i128, back: bool) -> bool
    ensures { IsTrue result ↔ IsHuge (number +ℤ (if back then neg_ℤ step else step)) }
{
    let sum = if back {
        number.checked_sub(step)
    } else {
        number.checked_add(step)
    };
    match sum {
        Some(sum) => sum != i128::MIN,
        None => false,
    }
}

// Whether the numbers of a stored row from a column on are in the HUGE range with a delta added to them, or taken back.
fn stay_in_range(stored: &[u8], column: usize, delta: &GroupDelta, back: bool) -> bool
    requires numbers { (many : ℕ) × (length stored.now ≡ 16 * many) }
    requires columns { column + length stored.now < 2 ^ 64 }
    ensures { (numbers : List ℤ) → Fits128 numbers → stored.now ≡ numbers_bytes numbers → IsTrue result ↔ AllByRecursion IsHuge (moved back column numbers delta.now) }
{
    if stored.is_empty() {
        return true;
    }
    let (number, after) = front(stored);
    if !is_huge_sum(number, worth(delta, column), back) {
        return false;
    }
    stay_in_range(after, column + 1, delta, back)
}

/// The bytes of a stored row with a delta added to its numbers, or taken back, if these are in the HUGE range.
///
/// # Errors
///
/// Where there is no memory for them.
pub(crate) fn sum_of(
    alloc: Global,
    stored: &[u8],
    delta: &GroupDelta,
    back: bool,
) -> Result<Option<Bytes>, NoMemory>
    requires { (many : ℕ) × (length stored.now ≡ 16 * many) }
    ensures bytes { IfOk result (λ found. IfSome found (λ value. (numbers : List ℤ) → Fits128 numbers → stored.now ≡ numbers_bytes numbers → value ≡ numbers_bytes (moved back 0 numbers delta.now))) }
    ensures in_range { IfOk result (λ found. IfSome found (λ value. (numbers : List ℤ) → Fits128 numbers → stored.now ≡ numbers_bytes numbers → AllByRecursion IsHuge (moved back 0 numbers delta.now))) }
    ensures none { IfOk result (λ found. IfNone found ((numbers : List ℤ) → Fits128 numbers → stored.now ≡ numbers_bytes numbers → AllByRecursion IsHuge (moved back 0 numbers delta.now) → ⊥)) }
{
    if !stay_in_range(stored, 0, delta, back) {
        return Ok(None);
    }
    let mut value = Vec::with_capacity(alloc, stored.len())?;
    put_moved(&mut value, stored, stored.len() / 16, delta, back);
    Ok(Some(Bytes::from_vec(value)))
}
