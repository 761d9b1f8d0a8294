//! The numbers of a row, by its bytes.
ghost use Rattle.std.specs.Prelude.{◌≡◌, ◌∷◌, ◌↔◌, ℕ, ℤ, pos, List, Option, Some, IsTrue, IfOk};
ghost use Rattle.std.specs.List.{AllByRecursion};
ghost use Rattle.std.specs.Option.{option_copied};
ghost use Rattle.ghost_rows.specs.Numbers.{numbers_bytes, Fits128};
ghost use Rattle.image_views.specs.Rows.{IsBytesOf, AreBytes};

use ghost_rows::numbers::{bytes_of, front, numbers_of};
use iv_types::{Bytes, NoMemory, NumberList, ViewRow};
use std::alloc::Global;

// What a number takes of a row's bytes.
const NUMBER_BYTES: usize = 16;

/// Whether each number of a stored row is 0.
pub(crate) fn are_zeros(value: &[u8]) -> bool
    requires { AreBytes (Some value.now) }
    ensures { (numbers : List ℤ) → Fits128 numbers → value.now ≡ numbers_bytes numbers → IsTrue result ↔ AllByRecursion (λ n. n ≡ pos 0) numbers }
{
    let mut rest = value;
    while !rest.is_empty() {
        let (number, after) = front(rest);
        if number != 0 {
            return false;
        }
        rest = after;
    }
    true
}

/// The numbers of a row, if there is one.
pub(crate) fn numbers_in(
    alloc: Global,
    bytes: Option<&[u8]>,
) -> Result<Option<NumberList>, NoMemory>
    requires { AreBytes (option_copied bytes) }
    ensures { IfOk result (λ found. (width : ℕ) (row : Option (List ℤ)) → IsBytesOf width (option_copied bytes.entry) row → found ≡ row) }
{
    match bytes {
        None => Ok(None),
        Some(bytes) => {
            let found = numbers_of(alloc, bytes, bytes.len() / NUMBER_BYTES)?;
            Ok(Some(NumberList::from_vec(found)))
        }
    }
}

/// A row's count and its sums.
fn numbers_of_row(alloc: Global, row: &ViewRow) -> Result<NumberList, NoMemory>
    ensures { IfOk result (λ numbers. numbers ≡ row.now.count ∷ row.now.sums) }
{
    let mut numbers = NumberList::new(alloc);
    numbers.push(row.count)?;
    let sums = row.sums.as_slice();
    for index in 0..sums.len() {
        numbers.push(sums[index])?;
    }
    Ok(numbers)
}

/// The bytes of a row's count and its sums.
pub(crate) fn bytes_of_row(alloc: Global, row: &ViewRow) -> Result<Bytes, NoMemory>
    ensures { IfOk result (λ bytes. bytes ≡ numbers_bytes (row.now.count ∷ row.now.sums)) }
{
    let numbers = numbers_of_row(alloc, row)?;
    bytes_of(alloc, numbers.as_slice())
}
