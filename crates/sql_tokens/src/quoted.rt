//! Texts between quotes, in which two quotes stand for one.
ghost use Rattle.std.specs.Prelude.{◌≡◌, ◌≤◌, length, IfOk, IfSome};
ghost use Rattle.iv_types.specs.Tokens.{quoted};
ghost use Rattle.sql_tokens.specs.View.{content_of};
ghost use Rattle.sql_tokens.specs.Scan.{measure_of, is_quote_at};

use iv_types::{Bytes, NoMemory};
use std::alloc::Global;

/// What opens and closes a text.
pub const QUOTE: u8 = b'\'';

/// What stands behind an opening quote: how many bytes of content there are up to the quote that closes it, two quotes
/// counted as one, and how many bytes that takes with the closing quote. `None` where no quote closes it.
pub fn measure(bytes: &[u8]) -> Option<(usize, usize)>
    ensures value { result ≡ measure_of (quoted bytes.now) }
    ensures within { IfSome result (λ x. x.1 ≤ length bytes.now) }
{
    let mut long = 0;
    let mut size = 0;
    while size < bytes.len() {
        if bytes[size] != QUOTE {
            size += 1;
        } else if is_quote_at(bytes, size + 1) {
            size += 2;
        } else {
            return Some((long, size + 1));
        }
        long += 1;
    }
    None
}

/// What stands behind an opening quote, up to the quote that closes it, with one quote for two. Nothing where no quote
/// closes it.
pub fn unquoted(alloc: Global, bytes: &[u8]) -> Result<Bytes, NoMemory>
    ensures { IfOk result (λ content. content ≡ content_of (quoted bytes.now)) }
{
    let mut content = Vec::new(alloc);
    let mut size = 0;
    while size < bytes.len() {
        let byte = bytes[size];
        if byte != QUOTE {
            size += 1;
        } else if is_quote_at(bytes, size + 1) {
            size += 2;
        } else {
            return Ok(Bytes::from_vec(content));
        }
        content.push(byte)?;
    }
    Ok(Bytes::new(alloc))
}

// Whether a quote stands at a place.
fn is_quote_at(bytes: &[u8], at: usize) -> bool
    ensures { result ≡ is_quote_at bytes.now at }
{
    at < bytes.len() && bytes[at] == QUOTE
}
