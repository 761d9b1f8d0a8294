//! The range of a column, and sums that stay in it.
ghost use Rattle.std.specs.Prelude.{◌≡◌, ◌+ℤ◌, ◌-ℤ◌, ◌↔◌, IsSome, IfSome, Some, FitsSigned};
ghost use Rattle.std.specs.Int.{w128};
ghost use Rattle.iv_types.specs.Encoding.{IsHuge};

use iv_types::GREATEST_HUGE;

/// The least and the greatest value of a column.
#[derive(Clone, Copy)]
struct Bounds {
    least: i128,
    most: i128,
}

/// The HUGE range.
const HUGE: Bounds = Bounds {
    least: -GREATEST_HUGE,
    most: GREATEST_HUGE,
};

/// A number, if there is one and it lies in the column's range.
fn in_range(number: Option<i128>) -> Option<i128>
    ensures value { IfSome result (λ n. (number ≡ Some n) × IsHuge n) }
    ensures some { IfSome number (λ n. IsHuge n → IsSome result) }
{
    match number {
        Some(n) if HUGE.least <= n && n <= HUGE.most => Some(n),
        _ => None,
    }
}

/// The sum of two numbers, if it lies in the column's range.
pub fn sum(a: i128, b: i128) -> Option<i128>
    ensures value { IfSome result (λ n. n ≡ a +ℤ b) }
    ensures huge { IsSome result ↔ IsHuge (a +ℤ b) }
{
    in_range(a.checked_add(b))
}

/// A total where one part of it becomes another, if it then lies in the column's range.
pub fn exchanged(total: i128, from: i128, to: i128) -> Option<i128>
    requires { FitsSigned w128 (total -ℤ from) }
    ensures value { IfSome result (λ n. n ≡ total -ℤ from +ℤ to) }
    ensures huge { IsSome result ↔ IsHuge (total -ℤ from +ℤ to) }
{
    let rest = total - from;
    sum(rest, to)
}
