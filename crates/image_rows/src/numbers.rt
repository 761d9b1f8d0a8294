//! The value of a view's entry: the count and the sums of a group, each of 16 bytes and in the HUGE range.
ghost use Rattle.std.specs.Prelude.{◌↔◌, suc, IsTrue, IfSome, IfNone};
ghost use Rattle.image_rows.specs.Rows.{AreNumbers, BeginsWithNumber, HasNumber};

use ghost_rows::numbers::front;

/// The bytes behind a number that is in range, where these begin with one.
fn after_number(bytes: &[u8]) -> Option<&[u8]>
    ensures some { IfSome result (λ rest. HasNumber bytes.now rest.now) }
    ensures none { IfNone result (BeginsWithNumber bytes.now → ⊥) }
{
    if bytes.len() < 16 {
        return None;
    }
    let (number, rest) = front(bytes);
    if number == i128::MIN {
        return None;
    }
    Some(rest)
}

/// Whether the bytes are those of a count and of so many sums.
pub(crate) fn are_numbers(sums: usize, bytes: &[u8]) -> bool
    ensures { IsTrue result ↔ AreNumbers (suc sums) bytes.now }
{
    let mut rest = match after_number(bytes) {
        Some(rest) => rest,
        None => return false,
    };
    for _ in 0..sums {
        match after_number(rest) {
            Some(after) => rest = after,
            None => return false,
        }
    }
    rest.is_empty()
}
