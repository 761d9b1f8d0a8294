//! Bytes as a person writes them: pairs of hexadecimal digits, with blanks between them, and texts between quotes, with
//! escapes.
use case_text::{expanded, from_hexadecimal, unescaped};
use std::alloc::Global;

/// The bytes of a text, short forms expanded.
///
/// # Errors
///
/// Where it has no such form, or memory is wanting.
pub fn bytes_of(alloc: Global, text: &str) -> anyhow::Result<Vec<u8>> {
    let text = expanded(alloc, text)?;
    let mut bytes = Vec::new(alloc);
    let mut is_quoted = false;
    for piece in text.as_str().split('\'') {
        let part = match is_quoted {
            true => unescaped(alloc, piece)?,
            false => from_hexadecimal(alloc, piece)?,
        };
        bytes.extend_from_slice(&part)?;
        is_quoted = !is_quoted;
    }
    Ok(bytes)
}
