//! Faults that are told.
ghost use Rattle.std.specs.Prelude.{◌≡◌, ℕ, Ok, IfOk};
ghost use Rattle.image_finding.specs.Faults.{IfBad, FindFaults};

use image_finding::FindFault;
use iv_types::NoMemory;

// The rules of the image that are tested here, by their numbers.
pub(crate) const PAGES_FORMED: u8 = 9;

pub(crate) const KEYS_APART: u8 = 10;

/// The rule of the image on definitions: their keys, their sizes and their texts.
pub const DEFINITIONS_READ: u8 = 11;

/// The bytes of a part's key: the object number in four, and its own in two.
pub(crate) const PART_KEY: usize = 6;

/// The bytes of a full part of a definition's text.
pub(crate) const PART_BYTES: usize = 1024;

/// What was made, or want of memory as a fault.
pub(crate) fn with_memory<T>(made: Result<T, NoMemory>) -> Result<T, FindFault>
    ensures made { IfOk result (λ value. made ≡ Ok value) }
    ensures no_rule { IfBad result (λ _. ⊥) }
    ensures no_disk { (count : ℕ) → FindFaults result count count }
{
    match made {
        Ok(value) => Ok(value),
        Err(NoMemory) => Err(FindFault::NoMemory),
    }
}
