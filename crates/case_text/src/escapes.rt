//! Bytes as texts of one line.
//!
//! A byte from 32 to 126 stands for itself, but for the backslash, which is doubled; `\t`, `\r` and `\n` are the tab, the
//! carriage return and the line feed, and `\xff` is any byte by its two hexadecimal digits.
use crate::hexadecimal::digit;
use anyhow::bail;
use std::alloc::Global;
use std::fmt::Write;

// The byte of an escape by its letter.
fn short_escape(letter: u8) -> Option<u8> {
    match letter {
        b'\\' => Some(b'\\'),
        b't' => Some(b'\t'),
        b'r' => Some(b'\r'),
        b'n' => Some(b'\n'),
        _ => None,
    }
}

/// How far the reading of a text has come.
#[derive(Clone, Copy)]
enum Reading {
    Plain,
    Escape,
    High,
    Low(u8),
}

/// The bytes of a text with escapes; other bytes stand for themselves.
///
/// # Errors
///
/// Where an escape is none of these.
pub fn unescaped(alloc: Global, text: &str) -> anyhow::Result<Vec<u8>> {
    let mut out = Vec::new(alloc);
    let mut reading = Reading::Plain;
    for letter in text.as_bytes() {
        reading = match (reading, *letter) {
            (Reading::Plain, b'\\') => Reading::Escape,
            (Reading::Plain, letter) => {
                out.push(letter)?;
                Reading::Plain
            }
            (Reading::Escape, b'x') => Reading::High,
            (Reading::Escape, letter) => {
                let Some(byte) = short_escape(letter) else {
                    bail!("no escape")
                };
                out.push(byte)?;
                Reading::Plain
            }
            (Reading::High, letter) => {
                let Some(high) = digit(letter) else {
                    bail!("no digit")
                };
                Reading::Low(high)
            }
            (Reading::Low(high), letter) => {
                let Some(low) = digit(letter) else {
                    bail!("no digit")
                };
                out.push((high & 15) << 4 | low)?;
                Reading::Plain
            }
        };
    }
    Ok(out)
}

// Writes a byte as it stands in a text with escapes.
fn write_byte(out: &mut String, byte: u8) -> anyhow::Result<()> {
    match byte {
        b'\\' => out.push_str("\\\\")?,
        b'\t' => out.push_str("\\t")?,
        b'\r' => out.push_str("\\r")?,
        b'\n' => out.push_str("\\n")?,
        32..=126 => out.push(byte as char)?,
        _ => write!(out, "\\x{byte:02x}")?,
    }
    Ok(())
}

/// Writes bytes as a text with escapes.
pub fn write_escaped(out: &mut String, bytes: &[u8]) -> anyhow::Result<()> {
    for byte in bytes {
        write_byte(out, *byte)?;
    }
    Ok(())
}
