//! The texts of definitions, joined of their parts.
ghost use Rattle.std.specs.Prelude.{◌≡◌, ◌<◌, ◌≤◌, length, drop, IfOk};
ghost use Rattle.std.specs.Str.{bytes_eq};
ghost use Rattle.byteorder.specs.Endian.{big_bytes};
ghost use Rattle.image_entries.specs.Parts.{parts_found};
ghost use Rattle.image_catalog.specs.Texts.{BeginsAt, IsFirstText};

use image_entries::Part;
use iv_types::NoMemory;
use std::alloc::Global;

/// The object number's bytes, which stand before the part's own number in its key.
const OBJECT_BYTES: usize = 4;

/// The text of a definition, as its parts have it.
#[derive(Drop)]
pub(crate) struct Text {
    /// Where the page of its first part begins, a byte of the device.
    pub page: u64,
    /// Its bytes.
    pub bytes: Vec<u8>,
    /// How many of all parts stand up to its last.
    pub end: usize,
}

/// Whether a part is the first of its definition.
fn is_first(part: &Part) -> bool
    ensures { result ≡ bytes_eq (drop 4 part.now.key) (big_bytes 2 0) }
{
    let key = part.key.as_slice();
    if key.len() < OBJECT_BYTES {
        return false;
    }
    key[OBJECT_BYTES..] == [0, 0]
}

/// The text whose first part stands at this place.
pub(crate) fn text_at(alloc: Global, parts: &[Part], first: usize) -> Result<Text, NoMemory>
    requires inside { first < length parts.now }
    requires begins { BeginsAt first (parts_found parts.now) }
    ensures text { IfOk result (IsFirstText first (parts_found parts.now)) }
    ensures within { IfOk result (λ text. text.end ≤ length parts.now) }
{
    let page = parts[first].page;
    let mut bytes = parts[first].value.as_slice().to_vec(alloc)?;
    for end in first + 1..parts.len() {
        if is_first(&parts[end]) {
            return Ok(Text { page, bytes, end });
        }
        bytes.extend_from_slice(parts[end].value.as_slice())?;
    }
    let end = parts.len();
    Ok(Text { page, bytes, end })
}
