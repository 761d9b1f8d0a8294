//! The parts of the definitions of an image: rule 11, as far as no text is read.
ghost use Rattle.std.specs.Prelude.{◌≡◌, ℕ, List, IfOk, OnOk};
ghost use Rattle.std.specs.FinMap as map;
ghost use Rattle.image_finding.specs.Faults.{IfBad, FindFaults};
ghost use Rattle.image_finding.specs.declared.image.FoundImage.{FoundImage};
ghost use Rattle.image_finding.specs.Rules.{IsRefused};
ghost use Rattle.image_finding.specs.Headers.{as_header, StandsUpTo};
ghost use Rattle.image_finding.specs.Images.{HasImage};
ghost use Rattle.image_entries.specs.Entries.{Gathers, found_entries};
ghost use Rattle.image_entries.specs.Parts.{parts_found, definitions_in, KeysStand, SizesStand, TellsDefinition};

use crate::keys::check_parts;
use crate::parts::{Part, definition_parts};
use crate::stored::EntryMap;
use image_finding::FindFault;
use std::alloc::Global;

/// The parts of all definitions among these entries, in the order of their keys.
///
/// # Errors
///
/// `BadImage` with rule 11 and the place of the page of the first part whose key is not that of the objects 1, 2 and so
/// on, each with parts 0, 1 and so on; or, where each is, of the first part that is not full before a further one of its
/// definition, or has more bytes than a full one. `NoMemory` where there was none for them.
pub fn read_parts(alloc: Global, entries: &EntryMap) -> Result<Vec<Part>, FindFault>
    ensures parts { IfOk result (λ parts. parts_found parts.items ≡ definitions_in (map.entries entries.now.entries)) }
    ensures keys { OnOk result (KeysStand (definitions_in (map.entries entries.now.entries))) }
    ensures sizes { OnOk result (SizesStand (definitions_in (map.entries entries.now.entries))) }
    // What is told is the first place at which the rule fails.
    ensures refused { IfBad result (λ bad. TellsDefinition (definitions_in (map.entries entries.now.entries)) bad) }
    // And it is the least rule that fails in the bytes of an image that has just these entries in its stored pages.
    ensures rule { (c : List ℕ) (image : FoundImage) → HasImage c image → Gathers entries.now.entries (found_entries image c) → StandsUpTo 10 c (as_header image.header) → IfBad result (λ bad. IsRefused c bad) }
    // The disk is not asked.
    ensures no_disk { (count : ℕ) → FindFaults result count count }
{
    match definition_parts(alloc, entries) {
        Ok(parts) => tested_parts(parts),
        Err(fault) => Err(fault),
    }
}

/// The parts, tested.
fn tested_parts(parts: Vec<Part>) -> Result<Vec<Part>, FindFault>
    ensures parts { IfOk result (λ tested. tested.items ≡ parts.items) }
    ensures keys { OnOk result (KeysStand (parts_found parts.items)) }
    ensures sizes { OnOk result (SizesStand (parts_found parts.items)) }
    ensures refused { IfBad result (λ bad. TellsDefinition (parts_found parts.items) bad) }
    ensures no_disk { (count : ℕ) → FindFaults result count count }
{
    match check_parts(&parts) {
        Ok(()) => Ok(parts),
        Err(bad) => Err(FindFault::BadImage(bad)),
    }
}
