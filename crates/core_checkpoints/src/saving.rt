//! Checkpoint.
ghost use Rattle.std.specs.Prelude.{◌≡◌, ◌+◌, true, false, [], OnOk, OnErr, IfOk};
ghost use Rattle.iv_types.specs.Faults.{Rose};
ghost use Rattle.txn_machine.specs.Acts as act;
ghost use Rattle.txn_machine.specs.Counts.{told_need};
ghost use Rattle.txn_machine.specs.Log as log;
ghost use Rattle.txn_machine.specs.Log.{block_bytes};
ghost use Rattle.txn_machine.specs.State.{State, is_fault};
ghost use Rattle.txn_machine.specs.Store.{committed};
ghost use Rattle.txn_book.specs.Acts.{answer_of};
ghost use Rattle.core_journal.specs.Records.{Records, Saved, restarted};
ghost use Rattle.core_journal.specs.Cuts.{cut_of};
ghost use Rattle.core_state.specs.Stands.{Began};
ghost use Rattle.core_recording.specs.Giving.{IsSaved, CanGive, IsBehind, MayGiveUp};

use crate::carrying::carry_kept;
use core_journal::Checkpoints;
use core_state::CoreState;
use iv_types::{DiskFault, EngineRefusal, SortedMaps};
use txn_book::Answer;

// Has the journal save a checkpoint of what the core holds, with this greatest commit number, and tells what the records take that it
// carries.
#[tactic(none)]
fn write<M: SortedMaps, J: Checkpoints<M>>(
    core: &mut CoreState<M>,
    journal: &mut J,
    number: u64,
) -> Result<u64, DiskFault>
    requires { CanGive M.maps M.spare M.limit J.has J.limit core.old journal.old 0 act.Checkpoint }
    ensures ok { OnOk result (((s : State) (rs : Records) → Began M.maps M.spare M.limit core.old s 0 → IsBehind M.maps M.spare M.limit J.has J.limit core.old journal.old s.log rs → number ≡ (committed s.store).number
        → (saved : Saved) × IsSaved s saved × J.has journal.new (restarted rs saved (block_bytes + 1 + log.carried s.store)) × J.leaves (J.medium journal.old) (J.medium journal.new) (cut_of rs) (record { saved = saved; records = [] })) × (J.faults (J.medium journal.new) ≡ J.faults (J.medium journal.old))) }
    ensures bytes { IfOk result (λ bytes. (s : State) → Began M.maps M.spare M.limit core.old s 0 → bytes ≡ told_need (log.carried s.store)) }
    ensures err { OnErr result (Rose (J.faults (J.medium journal.old)) (J.faults (J.medium journal.new))) }
    // A crash behind a failure leaves what the medium had, or the checkpoint.
    ensures left { OnErr result ((s : State) (rs : Records) → Began M.maps M.spare M.limit core.old s 0 → IsBehind M.maps M.spare M.limit J.has J.limit core.old journal.old s.log rs → number ≡ (committed s.store).number
        → (saved : Saved) × IsSaved s saved × J.leaves (J.medium journal.old) (J.medium journal.new) (cut_of rs) (record { saved = saved; records = [] })) }
    ensures limit { J.limit journal.new ≡ J.limit journal.old }
    ensures began { (s : State) → Began M.maps M.spare M.limit core.old s 0 → Began M.maps M.spare M.limit core.new s 0 }
    ensures rest { core.new ≡ record core.old { store = record core.old.store { tables = core.new.store.tables } } }
{
    journal.begin_checkpoint(core.next);
    let bytes = carry_kept(&core.book, journal);
    match journal.save(core.store.tables.maps_mut(), &core.store.catalog, number) {
        Ok(()) => Ok(bytes),
        Err(fault) => Err(fault),
    }
}

/// Saves a checkpoint: the journal is begun anew with the records of the steps that open transactions keep, and has the maps as they
/// stand. It answers the greatest commit number; where the disk fails, the answer is that fault, and nothing of the core is changed.
/// Takes no memory.
#[tactic(none)]
pub fn save<M: SortedMaps, J: Checkpoints<M>>(core: &mut CoreState<M>, journal: &mut J) -> Answer
    requires { CanGive M.maps M.spare M.limit J.has J.limit core.old journal.old 0 act.Checkpoint }
    ensures gives { MayGiveUp M.maps M.spare M.limit J.has J.limit J.medium J.leaves core.old journal.old 0 act.Checkpoint (answer_of result) core.new journal.new }
    ensures faults { is_fault (answer_of result) ≡ false → J.faults (J.medium journal.new) ≡ J.faults (J.medium journal.old) }
    ensures rose { is_fault (answer_of result) ≡ true → Rose (J.faults (J.medium journal.old)) (J.faults (J.medium journal.new)) }
{
    core.book.book_law();
    let number = core.book.number();
    match write(core, journal, number) {
        Ok(bytes) => {
            core.log_room.save(bytes);
            Answer::Saved(number)
        }
        Err(_fault) => Answer::Refused(EngineRefusal::DiskFault),
    }
}
