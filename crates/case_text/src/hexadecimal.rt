//! Bytes as hexadecimal digits.
use anyhow::bail;
use std::alloc::Global;
use std::fmt::Write;

/// The number of a hexadecimal digit.
pub fn digit(letter: u8) -> Option<u8> {
    match letter {
        b'0'..=b'9' => Some(letter - b'0'),
        b'a'..=b'f' => Some(letter - b'a' + 10),
        _ => None,
    }
}

/// The bytes of pairs of digits, with any blanks between the digits; `-` is no byte.
///
/// # Errors
///
/// Where the text has another byte, or a digit is without its second.
pub fn from_hexadecimal(alloc: Global, text: &str) -> anyhow::Result<Vec<u8>> {
    let mut out = Vec::new(alloc);
    let mut high = None;
    for letter in text.as_bytes() {
        match (high, digit(*letter)) {
            (None, Some(first)) => high = Some(first),
            (Some(first), Some(second)) => {
                out.push((first & 15) << 4 | second)?;
                high = None;
            }
            (_, None) => {
                if *letter != b' ' && *letter != b'-' {
                    bail!("no digit")
                }
            }
        }
    }
    if high.is_some() {
        bail!("half a byte")
    }
    Ok(out)
}

/// Writes the two digits of each byte, and `-` where there is none.
pub fn write_hexadecimal(out: &mut String, bytes: &[u8]) -> anyhow::Result<()> {
    if bytes.is_empty() {
        out.push('-')?;
    }
    for byte in bytes {
        write!(out, "{byte:02x}")?;
    }
    Ok(())
}
