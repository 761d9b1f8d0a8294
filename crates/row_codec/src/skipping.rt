//! Where a column of a key ends, without its value.
ghost use Rattle.std.specs.Prelude.{◌≡◌, ◌++◌, ◌∷◌, ℕ, List, length};
ghost use Rattle.std.specs.List.{flat_map};
ghost use Rattle.iv_types.specs.declared.value.Value.{Value};
ghost use Rattle.iv_types.specs.Encoding.{Fits, key_byte, key_value_bytes};

use crate::keys::byte_of;
use iv_types::Kind;

// The bytes behind so many, if there are so many.
fn behind(bytes: &[u8], count: usize) -> &[u8]
    ensures { (front rest : List ℕ) → length front ≡ count → bytes.now ≡ front ++ rest → result.now ≡ rest }
{
    if bytes.len() < count {
        return bytes;
    }
    &bytes[count..]
}

// The bytes behind a text.
fn after_text(bytes: &[u8]) -> &[u8]
    ensures { (text rest : List ℕ) → bytes.now ≡ flat_map key_byte text ++ 0 ∷ 0 ∷ rest → result.now ≡ rest }
{
    let mut left = bytes;
    while let Some((_, after)) = byte_of(left) {
        left = after;
    }
    behind(left, 2)
}

/// The bytes of a key behind the column at their front.
pub fn after_column(kind: Kind, bytes: &[u8]) -> &[u8]
    ensures { (value : Value) (rest : List ℕ) → Fits kind value → bytes.now ≡ key_value_bytes kind value ++ rest → result.now ≡ rest }
{
    match kind {
        Kind::Int => behind(bytes, 8),
        Kind::Huge => behind(bytes, 16),
        Kind::Text => after_text(bytes),
    }
}
