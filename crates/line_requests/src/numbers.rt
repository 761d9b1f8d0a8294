//! The numbers that lines begin with.
//!
//! Each function that reads a part of a text has two clauses: what it has read stands there, and what stands there is
//! what it reads.
ghost use Rattle.std.specs.Prelude.{◌≡◌, ◌<◌, ◌≤◌, ◌^◌, ◌++◌, ℕ, List, length, Some, None, IfSome, IsSomeAnd, IsTrue, ◌↔◌, slice_index, nat_le, if◌then◌else◌, decimal};
ghost use Rattle.iv_types.specs.Tokens.{value_of};
ghost use Rattle.iv_meaning.specs.Number.{BeginsWithNoDigit, digits_at_front};
ghost use Rattle.line_requests.specs.Parts.{IsNumbered};

use iv_types::MOST_SESSIONS;

// How many digits a text begins with.
fn digit_count(text: &[u8]) -> usize
    ensures count { result ≡ digits_at_front text.now }
    ensures within { result ≤ length text.now }
{
    for (place, byte) in text.iter().enumerate() {
        if *byte < b'0' || *byte > b'9' {
            return place;
        }
    }
    text.len()
}

// The number that digits write, if it is at most so great.
fn value(digits: &[u8], most: u64) -> Option<u64>
    requires { most ≤ 2 ^ 63 }
    ensures { result ≡ (if nat_le (value_of digits.now) most then Some (value_of digits.now) else None) }
{
    let mut value = 0u64;
    for digit in digits {
        if value > most / 10 {
            return None;
        }
        value = value * 10 + u64::from(digit.saturating_sub(b'0'));
        if value > most {
            return None;
        }
    }
    Some(value)
}

// Whether so many digits at the front of a text write a number: some digits, without a leading zero.
fn is_number(text: &[u8], count: usize) -> bool
    requires { count ≤ length text.now }
    ensures { IsTrue result ↔ ((0 < count) × (slice_index text.now 0 ≡ 48 → count ≡ 1)) }
{
    if count == 0 {
        return false;
    }
    if count == 1 {
        return true;
    }
    text[0] != b'0'
}

// The number of at most so much that a text begins with, and the rest.
fn natural(text: &[u8], most: u64) -> Option<(u64, &[u8])>
    requires { most ≤ 2 ^ 63 }
    ensures sound { IfSome result (λ x. (text.now ≡ decimal x.0 ++ x.1.now) × (x.0 ≤ most) × BeginsWithNoDigit x.1.now) }
    ensures complete { (n : ℕ) (rest : List ℕ) → n ≤ most → BeginsWithNoDigit rest → text.now ≡ decimal n ++ rest → IsSomeAnd result (λ x. (x.0 ≡ n) × (x.1.now ≡ rest)) }
{
    let count = digit_count(text);
    if !is_number(text, count) {
        return None;
    }
    match value(&text[..count], most) {
        Some(value) => Some((value, &text[count..])),
        None => None,
    }
}

/// The number of a session that a line begins with, and the rest behind all its digits.
pub fn numbered(line: &[u8]) -> Option<(u32, &[u8])>
    ensures sound { IfSome result (λ x. IsNumbered x.0 x.1.now line.now) }
    ensures complete { (session : ℕ) (rest : List ℕ) → IsNumbered session rest line.now → IsSomeAnd result (λ x. (x.0 ≡ session) × (x.1.now ≡ rest)) }
{
    let (session, rest) = natural(line, MOST_SESSIONS as u64)?;
    if session == 0 {
        return None;
    }
    Some((session as u32, rest))
}
