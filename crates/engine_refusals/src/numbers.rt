//! Numbers at the front of a key's bytes. Of a key that ends before, the bytes that it lacks count as 0.
ghost use Rattle.std.specs.Prelude.{◌≡◌, ◌-ℤ◌, ◌<◌, ◌^◌, ℕ, pos, slice_index};
ghost use Rattle.byteorder.specs.Endian.{big_number};

use byteorder::{BigEndian, ByteOrder};

// Half of what 8 bytes can count.
const HALF_INT: i128 = 1 << 63;

// Half of what 16 bytes can count.
const HALF_HUGE: u128 = 1 << 127;

fn byte_at(bytes: &[u8], place: usize) -> u8
    ensures { result ≡ slice_index bytes.now place }
{
    match bytes.get(place) {
        Some(byte) => *byte,
        None => 0,
    }
}

// The first 16 bytes.
fn front(bytes: &[u8]) -> [u8; 16]
    ensures { (i : ℕ) → i < 16 → slice_index result i ≡ slice_index bytes.now i }
{
    let mut front = [0; 16];
    for place in 0..16 {
        front[place] = byte_at(bytes, place);
    }
    front
}

/// An INT.
#[tactic(auto, using(crate::proofs::Bytes::same_number))]
pub fn int_in(bytes: &[u8]) -> i128
    ensures { result ≡ pos (big_number 8 bytes.now) -ℤ pos (2 ^ 63) }
{
    let front = front(bytes);
    i128::from(BigEndian::read_u64(&front)) - HALF_INT
}

/// A HUGE.
#[tactic(auto, using(crate::proofs::Bytes::same_number))]
pub fn huge_in(bytes: &[u8]) -> i128
    ensures { result ≡ pos (big_number 16 bytes.now) -ℤ pos (2 ^ 127) }
{
    let front = front(bytes);
    let shifted = BigEndian::read_u128(&front);
    if shifted < HALF_HUGE {
        -1 - (HALF_HUGE - 1 - shifted) as i128
    } else {
        (shifted - HALF_HUGE) as i128
    }
}
