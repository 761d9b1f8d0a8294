//! The steps of an open transaction that can be taken back.
ghost use Rattle.std.specs.Prelude.{◌≡◌, ◌≢◌, ◌+◌, ◌≤◌, ◌<◌, ◌^◌, ℕ, List, [], ◌∷◌, ◌++◌, length, reverse, Some, OnOk, vec_capacity};
ghost use Rattle.iv_types.specs.declared.lock.GroupDelta.{GroupDelta as Delta};
ghost use Rattle.iv_types.specs.declared.lock.KeptStep.{KeptStep as Step};
ghost use Rattle.txn_book.specs.Txns.{txn_of, with_put, with_pay, without_step, kept_in, changes_in, IsRoomy, HasRoomFor};

use crate::open_table::Open;
use iv_types::{Change, GroupDelta, Kept, KeptStep, NoMemory, PrefixList};

/// Makes room for one change that owes so many deltas, for their pays, and for taking all of it back.
///
/// # Errors
///
/// Where there is no memory for it.
pub fn make_room(txn: &mut Open, deltas: usize) -> Result<(), NoMemory>
    requires roomy { IsRoomy txn.old }
    requires few { deltas < 2 ^ 32 }
    ensures roomy { IsRoomy txn.new }
    ensures same { txn_of txn.new ≡ txn_of txn.old }
    ensures room { OnOk result (HasRoomFor deltas txn.new) }
{
    txn.kept.reserve(deltas + 1)?;
    txn.owed.reserve(deltas)?;
    txn.entry.reserve(txn.puts + 1)?;
    Ok(())
}

/// What a change owes and counts, and the number of its log record.
#[derive(Drop)]
pub struct Owing {
    pub number: u64,
    pub owed: Vec<GroupDelta>,
    pub txn_bytes: u64,
    pub history_bytes: u64,
}

// The deltas that a change owes, behind none.
fn owe(owed: &mut Vec<GroupDelta>, mut more: Vec<GroupDelta>)
    requires none { owed.old.items ≡ [] }
    requires room { length more.items ≤ vec_capacity owed.old }
    ensures owed { reverse owed.new.items ≡ more.items }
    ensures room { vec_capacity owed.new ≡ vec_capacity owed.old }
{
    while let Some(delta) = more.pop() {
        owed.push_reserved(delta);
    }
}

/// A change is kept.
pub fn keep(txn: &mut Open, kept: Kept, owing: Owing)
    requires roomy { IsRoomy txn.old }
    requires room { HasRoomFor (length owing.owed.items) txn.old }
    requires paid { txn.old.owed.items ≡ [] }
    requires fits { txn.old.txn_bytes + owing.txn_bytes < 2 ^ 64 }
    requires fits_history { txn.old.history_bytes + owing.history_bytes < 2 ^ 64 }
    ensures roomy { IsRoomy txn.new }
    ensures kept { txn_of txn.new ≡ with_put (txn_of txn.old) kept owing.number owing.owed.items owing.txn_bytes owing.history_bytes }
{
    let Owing {
        number,
        owed,
        txn_bytes,
        history_bytes,
    } = owing;
    txn.kept.push_reserved(KeptStep::Put {
        kept,
        txn_bytes: txn.txn_bytes,
        history_bytes: txn.history_bytes,
        number,
    });
    owe(&mut txn.owed, owed);
    txn.back = 0;
    txn.is_ghosted = false;
    txn.has_written = true;
    txn.puts += 1;
    txn.txn_bytes += txn_bytes;
    txn.history_bytes += history_bytes;
}

/// The next owed delta is paid.
pub fn pay(txn: &mut Open, before: PrefixList, number: u64)
    requires roomy { IsRoomy txn.old }
    requires owes { txn.old.owed.items ≢ [] }
    requires none_back { txn.old.back ≡ 0 }
    ensures roomy { IsRoomy txn.new }
    ensures bytes { txn.new.history_bytes ≡ txn.old.history_bytes }
    ensures paid { (d : Delta) (ds : List Delta) → reverse txn.old.owed.items ≡ d ∷ ds → txn_of txn.new ≡ with_pay (txn_of txn.old) d ds before number }
{
    match txn.owed.pop() {
        Some(delta) => txn.kept.push_reserved(KeptStep::Pay {
            delta,
            before,
            number,
        }),
        None => unreachable!(),
    }
    txn.is_ghosted = false;
    txn.has_written = true;
}

/// The latest kept step is taken back. Of a change, what was kept of it is given; of a pay, the delta is owed again.
pub fn undo(txn: &mut Open) -> Option<Kept>
    requires roomy { IsRoomy txn.old }
    requires keeps { txn.old.kept.items ≢ [] }
    ensures roomy { IsRoomy txn.new }
    ensures bytes { txn.new.history_bytes ≤ txn.old.history_bytes }
    ensures undone { (k : Step) (ks : List Step) → reverse txn.old.kept.items ≡ k ∷ ks → (result ≡ kept_in k) × (txn_of txn.new ≡ without_step (txn_of txn.old) k ks) }
{
    match txn.kept.pop() {
        Some(
            KeptStep::Put {
                kept,
                txn_bytes,
                history_bytes,
                ..
            },
        ) => {
            txn.owed.clear();
            txn.back = 0;
            txn.is_ghosted = false;
            txn.puts -= 1;
            txn.txn_bytes = txn_bytes;
            txn.history_bytes = history_bytes;
            Some(kept)
        }
        Some(KeptStep::Pay { delta, .. }) => {
            txn.owed.push_reserved(delta);
            txn.back += 1;
            None
        }
        None => unreachable!(),
    }
}

/// The changes of a transaction that commits, in order, in the room that was made for them.
pub fn changes_of(txn: Open) -> Vec<Change>
    requires { IsRoomy txn }
    ensures { result.items ≡ reverse (changes_in (reverse txn.kept.items)) }
{
    let Open {
        mut kept,
        mut entry,
        ..
    } = txn;
    while let Some(step) = kept.pop() {
        if let KeptStep::Put { kept, .. } = step {
            entry.push_reserved(kept.change);
        }
    }
    entry.reverse();
    entry
}
