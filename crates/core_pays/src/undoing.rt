//! UndoOne.
ghost use Rattle.txn_machine.specs.Acts as act;
ghost use Rattle.txn_machine.specs.May.{MayAct};
ghost use Rattle.txn_machine.specs.State.{State};
ghost use Rattle.txn_book.specs.Acts.{answer_of};
ghost use Rattle.core_state.specs.Stands.{Began, Told};

use crate::keeping::room_of_latest;
use crate::recording::{owed_of_latest, undo_in};
use core_effects::undo;
use core_state::CoreState;
use iv_types::SortedMaps;
use txn_book::Answer;

/// Takes the latest step back that a session's transaction keeps. What was kept for it is given back,
/// and so is what the log has reserved. Takes no memory.
pub fn undo_one<M: SortedMaps>(core: &mut CoreState<M>, session: u32) -> Answer
    requires { (s : State) × Began M.maps M.spare M.limit core.old s session × MayAct s.store session act.UndoOne }
    ensures { (s : State) → Began M.maps M.spare M.limit core.old s session → MayAct s.store session act.UndoOne → Told M.maps M.spare M.limit s session act.UndoOne (answer_of result) core.new }
{
    let room = room_of_latest(core, session);
    let owed = owed_of_latest(core, session);
    undo(core, session);
    core.data_room.give_back(session, room);
    undo_in(&mut core.log_room, owed);
    Answer::Undone {
        left: core.open_of(session).kept.len() as u32,
    }
}
