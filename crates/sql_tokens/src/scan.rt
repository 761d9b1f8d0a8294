//! The token that a text begins with.
ghost use Rattle.std.specs.Prelude.{◌≡◌, ◌<◌, ◌≤◌, length, drop};
ghost use Rattle.std.specs.Char.{is_ascii_digit};
ghost use Rattle.std.specs.List.{prefix_len};
ghost use Rattle.iv_types.specs.Tokens.{begins_name, is_in_name, mark_of, mark_of_two, mark, word_symbol, quoted, symbol_of_quoted, first_token};
ghost use Rattle.sql_tokens.specs.View.{symbol_of};
ghost use Rattle.sql_tokens.specs.Scan.{spelled};

use crate::TokenKind;
use crate::keyword::keyword;
use crate::quoted::{QUOTE, measure};
use iv_types::Terminal;

fn begins_name(byte: u8) -> bool
    ensures { result ≡ begins_name byte }
{
    byte.is_ascii_alphabetic() || byte == b'_'
}

fn is_in_name(byte: u8) -> bool
    ensures { result ≡ is_in_name byte }
{
    byte.is_ascii_alphanumeric() || byte == b'_'
}

// How many bytes of a name the bytes begin with.
fn word_len(bytes: &[u8]) -> usize
    ensures value { result ≡ prefix_len is_in_name bytes.now }
    ensures within { result ≤ length bytes.now }
{
    let mut size = 0;
    while size < bytes.len() && is_in_name(bytes[size]) {
        size += 1;
    }
    size
}

// How many digits the bytes begin with.
fn digits_len(bytes: &[u8]) -> usize
    ensures value { result ≡ prefix_len is_ascii_digit bytes.now }
    ensures within { result ≤ length bytes.now }
{
    let mut size = 0;
    while size < bytes.len() && bytes[size].is_ascii_digit() {
        size += 1;
    }
    size
}

// What a word is.
fn word_kind(word: &[u8]) -> TokenKind
    ensures { symbol_of result word.now ≡ word_symbol word.now }
{
    match keyword(word) {
        Some(keyword) => TokenKind::Fixed(keyword),
        None => TokenKind::Name,
    }
}

// The mark of one byte that a byte is.
fn short_mark(byte: u8) -> Option<Terminal>
    ensures { result ≡ mark_of byte }
{
    match byte {
        b'(' => Some(Terminal::Open),
        b')' => Some(Terminal::Close),
        b',' => Some(Terminal::Comma),
        b'.' => Some(Terminal::Point),
        b';' => Some(Terminal::Semicolon),
        b'*' => Some(Terminal::Star),
        b'+' => Some(Terminal::Plus),
        b'-' => Some(Terminal::Minus),
        b'=' => Some(Terminal::Equal),
        b'<' => Some(Terminal::Less),
        b'>' => Some(Terminal::Greater),
        _ => None,
    }
}

// The mark that two bytes make.
fn long_mark(first: u8, second: u8) -> Option<Terminal>
    ensures { result ≡ mark_of_two first second }
{
    match (first, second) {
        (b'<', b'=') => Some(Terminal::AtMost),
        (b'<', b'>') | (b'!', b'=') => Some(Terminal::NotEqual),
        (b'>', b'=') => Some(Terminal::AtLeast),
        _ => None,
    }
}

// The longest mark that the bytes begin with, and its size.
fn mark(bytes: &[u8]) -> (TokenKind, usize)
    requires { 0 < length bytes.now }
    ensures read { spelled bytes.now result ≡ mark bytes.now }
    ensures some { 0 < result.1 }
    ensures within { result.1 ≤ length bytes.now }
{
    if bytes.len() > 1
        && let Some(k) = long_mark(bytes[0], bytes[1])
    {
        return (TokenKind::Fixed(k), 2);
    }
    let kind = match short_mark(bytes[0]) {
        Some(k) => TokenKind::Fixed(k),
        None => TokenKind::Unread,
    };
    (kind, 1)
}

// A text with its opening quote, and its size. What no quote closes cannot be read.
fn quoted(bytes: &[u8]) -> (TokenKind, usize)
    requires { 0 < length bytes.now }
    ensures read { spelled bytes.now result ≡ symbol_of_quoted (quoted (drop 1 bytes.now)) }
    ensures some { 0 < result.1 }
    ensures within { result.1 ≤ length bytes.now }
{
    match measure(&bytes[1..]) {
        Some((_, size)) => (TokenKind::Text, size + 1),
        None => (TokenKind::Unread, 1),
    }
}

/// The token that the bytes begin with, which begin with no blank, and its size.
pub fn first(bytes: &[u8]) -> (TokenKind, usize)
    requires { 0 < length bytes.now }
    ensures read { spelled bytes.now result ≡ first_token bytes.now }
    ensures some { 0 < result.1 }
    ensures within { result.1 ≤ length bytes.now }
{
    if begins_name(bytes[0]) {
        let size = word_len(bytes);
        (word_kind(&bytes[..size]), size)
    } else if bytes[0].is_ascii_digit() {
        (TokenKind::Number, digits_len(bytes))
    } else if bytes[0] == QUOTE {
        quoted(bytes)
    } else {
        mark(bytes)
    }
}
