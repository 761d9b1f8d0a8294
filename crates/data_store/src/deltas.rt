//! What owed deltas count. A sum that does not fit stands still at the end of a `u64`.
ghost use Rattle.std.specs.Prelude.{◌≡◌, ◌+◌, ◌-◌, ◌*◌, ◌^◌, min, map, length, false};
ghost use Rattle.std.specs.List.{sum};
ghost use Rattle.txn_machine.specs.Counts as counts;
ghost use Rattle.txn_machine.specs.Log as log;

use iv_types::GroupDelta;

// What a delta counts in its transaction, besides its group and its sums.
const DELTA_BYTES: u64 = 128;

// What the entry of its row counts in the data besides these: the count, and 8.
const ENTRY_BYTES: u64 = 24;

// What it reserves in the log, besides its group, twice, and its sums: its record, that of its undo, and that of a ghost.
const RESERVED_BYTES: u128 = 65;

/// The end of a `u64`, where a number does not fit.
pub fn capped(number: u128) -> u64
    ensures { result ≡ min number (2 ^ 64 - 1) }
{
    number.min(u128::from(u64::MAX)) as u64
}

// What a delta counts, of so many bytes besides its group and 16 for each sum.
fn delta_len(delta: &GroupDelta, more: u64) -> u64
    ensures { result ≡ min (more + length delta.now.group + 16 * length delta.now.sums) (2 ^ 64 - 1) }
{
    let group = delta.group.as_slice().len() as u128;
    let sums = delta.sums.as_slice().len() as u128;
    capped(u128::from(more) + group + 16 * sums)
}

/// What owed deltas count in a transaction.
pub fn kept_by(owed: &[GroupDelta]) -> u64
    ensures { result ≡ min (sum (map counts.delta_size owed.now)) (2 ^ 64 - 1) }
{
    let mut size: u64 = 0;
    for delta in owed {
        size = size.saturating_add(delta_len(delta, DELTA_BYTES));
    }
    size
}

// What a delta reserves in the log: its record, that of its undo, and that of a ghost.
fn reserved_by(delta: &GroupDelta) -> u64
    ensures { result ≡ min (log.pay_bytes delta.now + log.ghost_bytes delta.now) (2 ^ 64 - 1) }
{
    let group = delta.group.as_slice().len() as u128;
    let sums = delta.sums.as_slice().len() as u128;
    capped(RESERVED_BYTES + 2 * group + 16 * sums)
}

/// What owed deltas reserve in the log.
pub fn reserved(owed: &[GroupDelta]) -> u64
    ensures { result ≡ min (log.owed_bytes false owed.now) (2 ^ 64 - 1) }
{
    let mut size: u64 = 0;
    for delta in owed {
        size = size.saturating_add(reserved_by(delta));
    }
    size
}

/// What the entry of a delta's row counts in the data.
pub fn delta_entry(delta: &GroupDelta) -> u64
    ensures { result ≡ min (log.delta_entry delta.now) (2 ^ 64 - 1) }
{
    delta_len(delta, ENTRY_BYTES)
}

/// What the entries of owed deltas' rows count in the data.
pub fn delta_entries(owed: &[GroupDelta]) -> u64
    ensures { result ≡ min (sum (map log.delta_entry owed.now)) (2 ^ 64 - 1) }
{
    let mut size: u64 = 0;
    for delta in owed {
        size = size.saturating_add(delta_entry(delta));
    }
    size
}
