//! Texts at the front of a key's bytes.
ghost use Rattle.std.specs.Prelude.{◌≡◌, ◌<◌, ◌∷◌, [], drop, length, IfSome, IfNone, IfOk};
ghost use Rattle.statement_law.specs.Telling.{text_in, behind_text};

use iv_types::{Bytes, NoMemory};
use std::alloc::Global;

// The first byte of a text, and the bytes behind it, or nothing where the text has ended.
fn byte_of(bytes: &[u8]) -> Option<(u8, &[u8])>
    ensures some { IfSome result (λ x. (text_in bytes.now ≡ x.0 ∷ text_in x.1.now) × (behind_text bytes.now ≡ behind_text x.1.now) × (length x.1.now < length bytes.now)) }
    ensures none { IfNone result ((text_in bytes.now ≡ []) × (behind_text bytes.now ≡ drop 2 bytes.now)) }
{
    match bytes {
        [] => None,
        [0, 255, rest @ ..] => Some((0, rest)),
        [0, ..] => None,
        [byte, rest @ ..] => Some((*byte, rest)),
    }
}

/// The text at the front, up to a byte 0 that has no 255 behind it.
pub fn text_in(alloc: Global, bytes: &[u8]) -> Result<Bytes, NoMemory>
    ensures { IfOk result (λ text. text ≡ text_in bytes.now) }
{
    let mut text = Vec::new(alloc);
    let mut rest = bytes;
    while let Some((byte, after)) = byte_of(rest) {
        text.push(byte)?;
        rest = after;
    }
    Ok(Bytes::from_vec(text))
}

/// The bytes behind so many.
pub fn behind(bytes: &[u8], count: usize) -> &[u8]
    ensures { result.now ≡ drop count bytes.now }
{
    &bytes[count.min(bytes.len())..]
}

/// The bytes behind the text at the front.
pub fn behind_text(bytes: &[u8]) -> &[u8]
    ensures { result.now ≡ behind_text bytes.now }
{
    let mut rest = bytes;
    while let Some((_, after)) = byte_of(rest) {
        rest = after;
    }
    behind(rest, 2)
}
