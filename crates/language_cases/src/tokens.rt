//! The tokens of texts.
//!
//! `tokens`: of a text all tokens, `; ` between them, each with the places of its first byte and behind its last and with
//! what it stands for: a name, a number, a text's size and content, a keyword or a mark. `none` is no token.
//!
//! `keywords`: of a text the keywords and marks by their names.
//!
//! `piece`: of the two places of a token in the text `'ab'` the size of its content and, between double quotes, its bytes.
use anyhow::bail;
use case_text::write_escaped;
use sql_tokens::{Token, TokenKind, content, content_len, name, number, piece, split};
use std::alloc::Global;
use std::fmt::Write;

const QUOTED: &str = "'ab'";

fn write_number(out: &mut String, text: &[u8], token: Token) -> anyhow::Result<()> {
    match number(text, token) {
        Some(number) => write!(out, "number {number}")?,
        None => out.push_str("large number")?,
    }
    Ok(())
}

fn write_name(alloc: Global, out: &mut String, text: &[u8], token: Token) -> anyhow::Result<()> {
    let name = name(alloc, text, token)?;
    out.push_str("name ")?;
    write_escaped(out, name.as_slice())
}

fn write_text(alloc: Global, out: &mut String, text: &[u8], token: Token) -> anyhow::Result<()> {
    let size = content_len(text, token);
    let content = content(alloc, text, token)?;
    write!(out, "text {size} '")?;
    write_escaped(out, content.as_slice())?;
    out.push('\'')?;
    Ok(())
}

fn write_meaning(alloc: Global, out: &mut String, text: &[u8], token: Token) -> anyhow::Result<()> {
    match token.kind {
        TokenKind::Fixed(terminal) => {
            out.push_str(terminal.spelling())?;
            Ok(())
        }
        TokenKind::Name => write_name(alloc, out, text, token),
        TokenKind::Number => write_number(out, text, token),
        TokenKind::Text => write_text(alloc, out, text, token),
        TokenKind::Unread => {
            out.push_str("unread")?;
            Ok(())
        }
    }
}

// Writes a token behind those before it.
fn write_token(alloc: Global, out: &mut String, text: &[u8], token: Token) -> anyhow::Result<()> {
    if !out.is_empty() {
        out.push_str("; ")?;
    }
    let start = token.start;
    let end = token.end;
    write!(out, "{start} {end} ")?;
    write_meaning(alloc, out, text, token)
}

pub fn tokens(alloc: Global, text: &str) -> anyhow::Result<String> {
    let bytes = text.as_bytes();
    let mut out = String::new(alloc);
    let tokens = split(alloc, bytes)?;
    for token in tokens.iter() {
        write_token(alloc, &mut out, bytes, *token)?;
    }
    if out.is_empty() {
        out.push_str("none")?;
    }
    Ok(out)
}

// Writes a keyword or a mark by its name behind those before it.
fn write_keyword(out: &mut String, token: Token) -> anyhow::Result<()> {
    if !out.is_empty() {
        out.push(' ')?;
    }
    match token.kind {
        TokenKind::Fixed(terminal) => write!(out, "{terminal:?}")?,
        _ => out.push_str("none")?,
    }
    Ok(())
}

pub fn keywords(alloc: Global, text: &str) -> anyhow::Result<String> {
    let mut out = String::new(alloc);
    let tokens = split(alloc, text.as_bytes())?;
    for token in tokens.iter() {
        write_keyword(&mut out, *token)?;
    }
    Ok(out)
}

pub fn part_of_quoted(alloc: Global, asked: &str) -> anyhow::Result<String> {
    let Some((start, end)) = asked.split_once(' ') else {
        bail!("no two places")
    };
    let token = Token {
        kind: TokenKind::Text,
        start: start.parse::<usize>()?,
        end: end.parse::<usize>()?,
    };
    let text = QUOTED.as_bytes();
    let size = content_len(text, token);
    let mut out = format!(in alloc; "{size} \"")?;
    write_escaped(&mut out, piece(text, token))?;
    out.push('"')?;
    Ok(out)
}
