//! The keys and the sizes of the parts of definitions: rule 11, as far as no text is read.
ghost use Rattle.std.specs.Prelude.{◌≡◌, ◌↔◌, ◌<◌, length, IsTrue, OnOk, IfErr};
ghost use Rattle.image_entries.specs.Parts.{HasKey, AreFurther, BeginNext, ComeNext, HasNextKey, IsFollowed, HasItsSize, parts_found, KeysStand, SizesStand, TellsKey, TellsSize, TellsDefinition};

use crate::fault::{DEFINITIONS_READ, PART_BYTES, PART_KEY};
use crate::parts::Part;
use byteorder::{BigEndian, ByteOrder};
use image_finding::BadImage;

/// Whether it is the key of this part of this object's definition.
fn is_key(key: &[u8], object: u32, part: u16) -> bool
    ensures { IsTrue result ↔ HasKey key.now object part }
{
    if key.len() != PART_KEY {
        return false;
    }
    if BigEndian::read_u32(key) != object {
        return false;
    }
    if BigEndian::read_u16(&key[4..]) != part {
        return false;
    }
    true
}

/// Whether it is the key of the next part of the same definition.
fn is_further(one: &[u8], next: &[u8]) -> bool
    ensures { IsTrue result ↔ AreFurther one.now next.now }
{
    if one.len() != PART_KEY {
        return false;
    }
    let object = BigEndian::read_u32(one);
    let part = BigEndian::read_u16(&one[4..]);
    is_key(next, object, part.wrapping_add(1))
}

/// Whether it is the key of the first part of the next definition.
fn begins_next(one: &[u8], next: &[u8]) -> bool
    ensures { IsTrue result ↔ BeginNext one.now next.now }
{
    if one.len() != PART_KEY {
        return false;
    }
    let object = BigEndian::read_u32(one);
    is_key(next, object.wrapping_add(1), 0)
}

/// Whether one of the two is so.
fn comes_next(one: &[u8], next: &[u8]) -> bool
    ensures { IsTrue result ↔ ComeNext one.now next.now }
{
    if is_further(one, next) {
        return true;
    }
    begins_next(one, next)
}

/// Whether the key of part `i` is the one that comes next.
fn is_next_key(parts: &[Part], i: usize) -> bool
    requires { i < length parts.now }
    ensures { IsTrue result ↔ HasNextKey i (parts_found parts.now) }
{
    let key = parts[i].key.as_slice();
    if i == 0 {
        return is_key(key, 1, 0);
    }
    comes_next(parts[i - 1].key.as_slice(), key)
}

/// Whether a further part of the same definition stands behind part `i`.
fn is_followed(parts: &[Part], i: usize) -> bool
    requires { i < length parts.now }
    ensures { IsTrue result ↔ IsFollowed i (parts_found parts.now) }
{
    if i + 1 == parts.len() {
        return false;
    }
    is_further(parts[i].key.as_slice(), parts[i + 1].key.as_slice())
}

/// Whether part `i` is full, where a further one stands behind it, and has no more bytes than a full one.
fn has_size(parts: &[Part], i: usize) -> bool
    requires { i < length parts.now }
    ensures { IsTrue result ↔ HasItsSize i (parts_found parts.now) }
{
    let bytes = parts[i].value.as_slice().len();
    if bytes > PART_BYTES {
        return false;
    }
    if bytes == PART_BYTES {
        return true;
    }
    !is_followed(parts, i)
}

/// Tests the keys of all parts.
pub(crate) fn check_keys(parts: &[Part]) -> Result<(), BadImage>
    ensures stands { OnOk result (KeysStand (parts_found parts.now)) }
    ensures told { IfErr result (λ bad. TellsKey (parts_found parts.now) bad) }
{
    for i in 0..parts.len() {
        if !is_next_key(parts, i) {
            return Err(BadImage {
                rule: DEFINITIONS_READ,
                place: parts[i].page,
            });
        }
    }
    Ok(())
}

/// Tests the sizes of all parts.
pub(crate) fn check_sizes(parts: &[Part]) -> Result<(), BadImage>
    ensures stands { OnOk result (SizesStand (parts_found parts.now)) }
    ensures told { IfErr result (λ bad. TellsSize (parts_found parts.now) bad) }
{
    for i in 0..parts.len() {
        if !has_size(parts, i) {
            return Err(BadImage {
                rule: DEFINITIONS_READ,
                place: parts[i].page,
            });
        }
    }
    Ok(())
}

/// Tests the keys of all parts, and then their sizes.
pub(crate) fn check_parts(parts: &[Part]) -> Result<(), BadImage>
    ensures keys { OnOk result (KeysStand (parts_found parts.now)) }
    ensures sizes { OnOk result (SizesStand (parts_found parts.now)) }
    ensures told { IfErr result (λ bad. TellsDefinition (parts_found parts.now) bad) }
{
    match check_keys(parts) {
        Ok(()) => check_sizes(parts),
        Err(bad) => Err(bad),
    }
}
