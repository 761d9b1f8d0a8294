//! A text's tokens, from its first byte to its last.
ghost use Rattle.std.specs.Prelude.{◌≡◌, length, map, IfOk};
ghost use Rattle.std.specs.List.{AllByRecursion};
ghost use Rattle.iv_types.specs.Tokens.{is_blank, begins_comment, tokens};
ghost use Rattle.sql_tokens.specs.View.{placed, Spans};

use crate::scan::first;
use crate::{Token, TokenKind};
use iv_types::NoMemory;
use std::alloc::Global;

fn is_blank(byte: u8) -> bool
    ensures { result ≡ is_blank byte }
{
    byte == b' ' || byte == b'\t'
}

fn begins_comment(bytes: &[u8]) -> bool
    ensures { result ≡ begins_comment bytes.now }
{
    bytes.len() > 1 && bytes[0] == b'-' && bytes[1] == b'-'
}

/// The tokens of a text, in order, up to the text's end, a comment or the first token that cannot be read.
///
/// # Errors
///
/// Where there is no memory for them.
pub fn split(alloc: Global, text: &[u8]) -> Result<Vec<Token>, NoMemory>
    ensures read { IfOk result (λ ts. map (placed text.now) ts.items ≡ tokens text.now) }
    ensures spans { IfOk result (λ ts. AllByRecursion (Spans text.now) ts.items) }
{
    let mut tokens = Vec::new(alloc);
    let mut at = 0;
    while at < text.len() {
        if is_blank(text[at]) {
            at += 1;
            continue;
        }
        let rest = &text[at..];
        if begins_comment(rest) {
            return Ok(tokens);
        }
        let (kind, size) = first(rest);
        tokens.push(Token {
            kind,
            start: at,
            end: at + size,
        })?;
        if kind == TokenKind::Unread {
            return Ok(tokens);
        }
        at += size;
    }
    Ok(tokens)
}
