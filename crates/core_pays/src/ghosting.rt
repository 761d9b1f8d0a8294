//! Ghost.
ghost use Rattle.std.specs.Prelude.{IfOk, OnErr};
ghost use Rattle.txn_machine.specs.Acts as act;
ghost use Rattle.txn_machine.specs.May.{MayAct};
ghost use Rattle.txn_machine.specs.State.{State};
ghost use Rattle.txn_book.specs.Acts.{answer_of};
ghost use Rattle.core_state.specs.Stands.{Began, Told};

use crate::keeping::room_of_first;
use crate::recording::ghost_of_first;
use core_effects::{has_row, make_row, mark_ghosted};
use core_state::CoreState;
use iv_types::{NoMemory, SortedMaps};
use txn_book::Answer;

/// Makes the row of the first delta that a session owes, a row of zeros, where it is absent. What was kept for it is given back,
/// and so is what the log has reserved for its record.
///
/// # Errors
///
/// Where there is no memory for it. Nothing is changed then but room.
pub fn make_ghost<M: SortedMaps>(core: &mut CoreState<M>, session: u32) -> Result<Answer, NoMemory>
    requires { (s : State) × Began M.maps M.spare M.limit core.old s session × MayAct s.store session act.Ghost }
    ensures told { IfOk result (λ said. (s : State) → Began M.maps M.spare M.limit core.old s session → MayAct s.store session act.Ghost → Told M.maps M.spare M.limit s session act.Ghost (answer_of said) core.new) }
    ensures err { OnErr result ((s : State) → Began M.maps M.spare M.limit core.old s session → MayAct s.store session act.Ghost → Began M.maps M.spare M.limit core.new s session) }
{
    let room = room_of_first(core, session);
    let for_ghost = ghost_of_first(core, session);
    if has_row(core, session) {
        mark_ghosted(core, session);
        core.data_room.give_back(session, room);
        core.log_room.find_row(for_ghost);
        return Ok(Answer::Ghosted);
    }
    make_row(core, session)?;
    mark_ghosted(core, session);
    core.data_room.give_back(session, room);
    core.log_room.make_ghost(for_ghost);
    Ok(Answer::Ghosted)
}
