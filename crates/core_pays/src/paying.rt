//! Pay.
ghost use Rattle.std.specs.Prelude.{◌≡◌};
ghost use Rattle.txn_machine.specs.Acts as act;
ghost use Rattle.txn_machine.specs.May.{MayAct};
ghost use Rattle.txn_machine.specs.State.{State};
ghost use Rattle.txn_book.specs.Acts.{answer_of};
ghost use Rattle.core_state.specs.Stands.{Began, Told};
ghost use Rattle.core_pays.specs.Holding.{IsHolding, unpaid_as};

use crate::holding::hold_first;
use crate::keeping::room_of_first;
use crate::recording::{ghost_of_first, record_of_first};
use core_effects::pay_first;
use core_state::CoreState;
use ghost_rows::PayRefusal;
use iv_types::{EngineRefusal, SortedMaps};
use log_room::same_room_law;
use txn_book::Answer;

// How a Pay is answered whose delta is not added.
fn unpaid(why: PayRefusal) -> Answer
    ensures { answer_of result ≡ unpaid_as why }
{
    match why {
        PayRefusal::Absent => Answer::NeedsGhost,
        PayRefusal::Escrow { column, inf, sup } => {
            Answer::Refused(EngineRefusal::Escrow { column, inf, sup })
        }
    }
}

// Pays, where the lock is held. What was kept for the delta's row is given back, and so is what the log has reserved for its records.
fn pay_held<M: SortedMaps>(core: &mut CoreState<M>, session: u32) -> Answer
    requires { (s : State) × IsHolding M.maps M.spare M.limit s session core.old }
    ensures { (s : State) → IsHolding M.maps M.spare M.limit s session core.old → Told M.maps M.spare M.limit s session act.Pay (answer_of result) core.new }
{
    same_room_law();
    let room = room_of_first(core, session);
    let appended = record_of_first(core, session);
    let for_ghost = ghost_of_first(core, session);
    match pay_first(core, session) {
        Ok(()) => {
            core.data_room.give_back(session, room);
            core.log_room.pay(appended, for_ghost);
            Answer::Paid {
                left: core.open_of(session).owed.len() as u32,
            }
        }
        Err(why) => unpaid(why),
    }
}

/// Adds the first delta that a session owes to its view row, under its lock. Takes no memory.
pub fn pay<M: SortedMaps>(core: &mut CoreState<M>, session: u32) -> Answer
    requires { (s : State) × Began M.maps M.spare M.limit core.old s session × MayAct s.store session act.Pay }
    ensures { (s : State) → Began M.maps M.spare M.limit core.old s session → MayAct s.store session act.Pay → Told M.maps M.spare M.limit s session act.Pay (answer_of result) core.new }
{
    match hold_first(core, session) {
        Ok(()) => pay_held(core, session),
        Err(said) => said,
    }
}
