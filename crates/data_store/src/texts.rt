//! What a definition counts by its text: in the history, in the log and in the data. A number that does not fit stands still at
//! the end of a `u64`.
ghost use Rattle.std.specs.Prelude.{◌≡◌, ◌+◌, ◌-◌, ◌^◌, min};
ghost use Rattle.txn_machine.specs.Counts as counts;
ghost use Rattle.txn_machine.specs.Log as log;
ghost use Rattle.txn_machine.specs.Records as records;

use crate::deltas::capped;

// What a definition counts in the history, besides its text.
const KEPT_BYTES: u128 = 32;

// Of its record and of the end of a block, besides its text.
const RECORD_BYTES: u128 = 30;

// The bytes of a part of its text, and what an entry counts besides a part.
const PART_BYTES: u128 = 1024;

const ENTRY_BYTES: u128 = 14;

/// What a definition of this text counts in the history.
pub fn definition_size(text: &[u8]) -> u64
    ensures { result ≡ min (counts.text_size text.now) (2 ^ 64 - 1) }
{
    capped(KEPT_BYTES + text.len() as u128)
}

/// What it needs in the log: its record, and the end of a block.
pub fn definition_need(text: &[u8]) -> u64
    ensures { result ≡ min (records.definition_bytes text.now + log.block_bytes) (2 ^ 64 - 1) }
{
    capped(RECORD_BYTES + text.len() as u128)
}

/// What the parts of its text count in the data.
pub fn definition_entries(text: &[u8]) -> u64
    ensures { result ≡ min (log.definition_entries text.now) (2 ^ 64 - 1) }
{
    let len = text.len() as u128;
    capped(len + ENTRY_BYTES * len.div_ceil(PART_BYTES))
}
