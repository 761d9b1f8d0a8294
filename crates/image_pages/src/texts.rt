//! What the texts of definitions count among the bytes of data.
ghost use Rattle.std.specs.Prelude.{◌≡◌, ◌-◌, ◌^◌, length, min};
ghost use Rattle.txn_machine.specs.Log.{entry_bytes};
ghost use Rattle.image_entries.specs.Parts.{parts_found};
ghost use Rattle.image_pages.specs.Pages.{found_bytes};

use image_entries::Part;

// An entry counts the six bytes of a part's key, and eight beside its value.
const KEY_AND_HEAD: u64 = 14;

// What the entry of a part counts.
fn part_bytes(part: &Part) -> u64
    ensures { result ≡ entry_bytes 6 (length part.now.value) }
{
    part.value.as_slice().len() as u64 + KEY_AND_HEAD
}

/// What the entries of all parts count. A sum that does not fit stands still at the end of a `u64`.
pub(crate) fn parts_bytes(parts: &[Part]) -> u64
    ensures { result ≡ min (found_bytes (parts_found parts.now)) (2 ^ 64 - 1) }
{
    let mut bytes: u64 = 0;
    for part in parts {
        bytes = bytes.saturating_add(part_bytes(part));
    }
    bytes
}
