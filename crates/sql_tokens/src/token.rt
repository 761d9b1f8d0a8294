//! A token of a text, and what it stands for.
ghost use Rattle.std.specs.Prelude.{◌≡◌, ◌-◌, ◌^◌, ◌≤◌, ◌↔◌, length, pos, IsSome, IfSome, IfOk};
ghost use Rattle.std.specs.Str.{str_to_ascii_lowercase};
ghost use Rattle.iv_types.specs.declared.limit.TheConstants.{GREATEST_NUMBER};
ghost use Rattle.iv_types.specs.Tokens.{value_of};
ghost use Rattle.sql_tokens.specs.View.{piece, content};

use crate::quoted::{measure, unquoted};
use iv_types::{Bytes, NoMemory, Terminal};
use std::alloc::Global;

/// What a token is.
#[derive(Clone, Copy, Debug, PartialEq, Eq)]
pub enum TokenKind {
    /// A keyword or a mark.
    Fixed(Terminal),
    Name,
    /// A run of digits.
    Number,
    /// A text between quotes.
    Text,
    /// What cannot be read.
    Unread,
}

/// A token: what it is, and its bytes in the text, from `start` to before `end`.
#[derive(Clone, Copy, Debug, PartialEq, Eq)]
pub struct Token {
    pub kind: TokenKind,
    pub start: usize,
    pub end: usize,
}

/// The token's bytes, as far as the text has them.
pub fn piece(text: &[u8], token: Token) -> &[u8]
    ensures { result.now ≡ piece text.now token }
{
    let start = token.start.min(text.len());
    let rest = &text[start..];
    if token.end < start {
        return &rest[..0];
    }
    let size = (token.end - start).min(rest.len());
    &rest[..size]
}

/// The token's bytes in lower case, which is the name of a token of this kind.
///
/// # Errors
///
/// Where there is no memory for them.
pub fn name(alloc: Global, text: &[u8], token: Token) -> Result<Bytes, NoMemory>
    ensures { IfOk result (λ bytes. bytes ≡ str_to_ascii_lowercase (piece text.now token)) }
{
    Ok(Bytes::from_vec(piece(text, token).to_ascii_lowercase(alloc)?))
}

// The number that digits write, if it is below 2^128.
fn value(digits: &[u8]) -> Option<u128>
    ensures some { IfSome result (λ n. n ≡ value_of digits.now) }
    ensures fits { IsSome result ↔ (value_of digits.now ≤ 2 ^ 128 - 1) }
{
    let mut value: u128 = 0;
    for digit in digits {
        let shifted = value.checked_mul(10)?;
        value = shifted.checked_add(u128::from(digit.saturating_sub(b'0')))?;
    }
    Some(value)
}

/// The number that the token's digits write. `None` where it is above 2^127 - 1, however many digits there are.
pub fn number(text: &[u8], token: Token) -> Option<i128>
    ensures some { IfSome result (λ n. n ≡ pos (value_of (piece text.now token))) }
    ensures fits { IsSome result ↔ (value_of (piece text.now token) ≤ GREATEST_NUMBER) }
{
    let value = value(piece(text, token))?;
    i128::try_from(value).ok()
}

/// The number of bytes of a quoted text's content, two quotes counted as one. 0 where no quote closes it.
pub fn content_len(text: &[u8], token: Token) -> usize
    ensures { result ≡ length (content (piece text.now token)) }
{
    let bytes = piece(text, token);
    if bytes.is_empty() {
        return 0;
    }
    match measure(&bytes[1..]) {
        Some((long, _)) => long,
        None => 0,
    }
}

/// A quoted text's content, with one quote for two. Nothing where no quote closes it.
///
/// # Errors
///
/// Where there is no memory for it.
pub fn content(alloc: Global, text: &[u8], token: Token) -> Result<Bytes, NoMemory>
    ensures { IfOk result (λ bytes. bytes ≡ content (piece text.now token)) }
{
    let bytes = piece(text, token);
    if bytes.is_empty() {
        return Ok(Bytes::new(alloc));
    }
    unquoted(alloc, &bytes[1..])
}
