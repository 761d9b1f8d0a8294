//! The record of the step that a transaction kept last.
ghost use Rattle.std.specs.Prelude.{◌≡◌, ◌≢◌, ◌+◌, ◌∷◌, [], ℕ, List, reverse};
ghost use Rattle.iv_types.specs.declared.lock.KeptStep.{KeptStep as Kept};
ghost use Rattle.txn_machine.specs.Keeping.{KeptStep as Step};
ghost use Rattle.txn_machine.specs.Log.{Log};
ghost use Rattle.txn_machine.specs.Store.{Store, schema_of};
ghost use Rattle.log_room.specs.Rooms.{KeepsLatest};
ghost use Rattle.core_journal.specs.Records.{Records, with_one};
ghost use Rattle.core_state.specs.Stands.{Holds, Texts};
ghost use Rattle.core_recording.specs.Appending.{CanAppend, kept_record};

use core_journal::Journal;
use core_state::CoreState;
use iv_types::{KeptStep, SortedMaps};
use record_lending::{number_of, step_of};
use txn_book::Open;

/// The step that a transaction kept last.
pub(crate) fn latest_of(txn: &Open) -> &KeptStep
    requires { txn.now.kept.items ≢ [] }
    ensures { (k : Kept) (ks : List Kept) → reverse txn.now.kept.items ≡ k ∷ ks → result.now ≡ k }
{
    match txn.kept.last() {
        Some(step) => step,
        None => unreachable!(),
    }
}

/// Gives the record of the step that a session's transaction kept last, under its number.
pub fn give_latest<M: SortedMaps, J: Journal>(core: &CoreState<M>, journal: &mut J, session: u32)
    requires { (s : Store) × (l : Log) × (texts : Texts) × (rs : Records) × (k : Step) × Holds M.maps M.spare M.limit core.now s l texts × (h : KeepsLatest s l session k)
        × J.has journal.old rs × CanAppend (J.limit journal.old) (schema_of s) h.number (kept_record (l.logged session).transaction k) rs }
    ensures has { (s : Store) (l : Log) (texts : Texts) (rs : Records) (k : Step) (h : KeepsLatest s l session k) → Holds M.maps M.spare M.limit core.now s l texts → J.has journal.old rs
        → J.has journal.new (with_one (schema_of s) (record { number = h.number; of = kept_record (l.logged session).transaction k }) rs) }
    ensures limit { J.limit journal.new ≡ J.limit journal.old }
    ensures medium { J.medium journal.new ≡ J.medium journal.old }
{
    let txn = core.open_of(session);
    let step = latest_of(txn);
    journal.append(number_of(step), step_of(txn.id, step));
}
