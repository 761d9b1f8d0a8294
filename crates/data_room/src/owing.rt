//! What owed deltas keep of the data. A sum that does not fit stands still at the end of a `u64`.
ghost use Rattle.std.specs.Prelude.{◌≡◌, ◌≢◌, ◌∷◌, [], ◌-◌, ◌^◌, List, cond, min, map, drop, reverse};
ghost use Rattle.std.specs.List.{sum};
ghost use Rattle.iv_types.specs.declared.lock.GroupDelta.{GroupDelta as Delta};
ghost use Rattle.txn_machine.specs.Log as log;
ghost use Rattle.txn_machine.specs.Log.{unghosted};
ghost use Rattle.data_room.specs.Reserved.{first_bytes};

use data_store::delta_entry;
use iv_types::GroupDelta;
use txn_book::Open;

/// What the entries of deltas' rows count.
pub fn rows_room(owed: &[GroupDelta]) -> u64
    ensures { result ≡ min (sum (map log.delta_entry owed.now)) (2 ^ 64 - 1) }
{
    let mut size: u64 = 0;
    for delta in owed {
        size = size.saturating_add(delta_entry(delta));
    }
    size
}

// How many of the deltas that a transaction owes had their Ghost: the first, or none.
fn ghosts(txn: &Open) -> usize
    ensures { result ≡ cond txn.now.is_ghosted 1 0 }
{
    if txn.is_ghosted { 1 } else { 0 }
}

/// What a transaction keeps for the deltas that it still owes: the rows of all that are not coming back, but for the first one
/// where that had its Ghost.
pub fn owed_room(txn: &Open) -> u64
    ensures { result ≡ min (sum (map log.delta_entry (unghosted txn.now.is_ghosted (drop txn.now.back (reverse txn.now.owed.items))))) (2 ^ 64 - 1) }
{
    let left = txn
        .owed
        .len()
        .saturating_sub(txn.back.saturating_add(ghosts(txn)));
    rows_room(&txn.owed[..left])
}

/// What it keeps for the first of them.
pub fn first_room(txn: &Open) -> u64
    requires { txn.now.owed.items ≢ [] }
    ensures { (d : Delta) (ds : List Delta) → reverse txn.now.owed.items ≡ d ∷ ds → result ≡ min (first_bytes txn.now.is_ghosted d) (2 ^ 64 - 1) }
{
    if txn.is_ghosted {
        return 0;
    }
    match txn.owed.last() {
        Some(delta) => delta_entry(delta),
        None => unreachable!(),
    }
}
