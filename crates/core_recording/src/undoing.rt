//! UndoOne.
ghost use Rattle.std.specs.Prelude.{◌≡◌};
ghost use Rattle.txn_machine.specs.Acts as act;
ghost use Rattle.txn_machine.specs.May.{MayAct};
ghost use Rattle.txn_machine.specs.State.{State};
ghost use Rattle.txn_book.specs.Acts.{answer_of};
ghost use Rattle.log_records.specs.Lent.{stands_for};
ghost use Rattle.core_state.specs.Stands.{Began};
ghost use Rattle.core_recording.specs.Appending.{IsUndoOfLatest};
ghost use Rattle.core_recording.specs.Giving.{CanGive, Gives};

use crate::append::give;
use crate::latest::latest_of;
use core_journal::Journal;
use core_pays as pays;
use core_state::CoreState;
use iv_types::SortedMaps;
use log_records::LentRecord;
use record_lending::{number_of, undo_of};
use txn_book::Answer;

// The record of taking back the step that a session's transaction kept last.
#[tactic(none)]
fn undo_of_latest<M: SortedMaps>(core: &CoreState<M>, session: u32) -> LentRecord<'static>
    requires { (s : State) × Began M.maps M.spare M.limit core.now s session × MayAct s.store session act.UndoOne }
    ensures { (s : State) → Began M.maps M.spare M.limit core.now s session → MayAct s.store session act.UndoOne → IsUndoOfLatest s.log session (stands_for result) }
{
    let txn = core.open_of(session);
    undo_of(txn.id, number_of(latest_of(txn)))
}

/// Takes the latest step back that a session's transaction keeps, and gives the record of that to the journal. Takes no memory.
#[tactic(none)]
pub fn undo_one<M: SortedMaps, J: Journal>(
    core: &mut CoreState<M>,
    journal: &mut J,
    session: u32,
) -> Answer
    requires { CanGive M.maps M.spare M.limit J.has J.limit core.old journal.old session act.UndoOne }
    ensures gives { Gives M.maps M.spare M.limit J.has J.limit J.medium J.leaves core.old journal.old session act.UndoOne (answer_of result) core.new journal.new }
    ensures medium { J.medium journal.new ≡ J.medium journal.old }
{
    let number = core.next;
    let undone = undo_of_latest(core, session);
    let said = pays::undo_one(core, session);
    give(journal, number, undone);
    said
}
