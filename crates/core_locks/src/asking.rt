//! What becomes of an act that asks for locks.
ghost use Rattle.std.specs.Prelude.{◌≡◌, List, IfOk, IfErr, OnOk};
ghost use Rattle.iv_types.specs.declared.lock.Want.{Want};
ghost use Rattle.iv_meaning.specs.Waits.{sessions_of};
ghost use Rattle.lock_desk.specs.Asking.{HasToWait};
ghost use Rattle.txn_machine.specs.Acts.{Act};
ghost use Rattle.txn_machine.specs.Locks.{IsDeadlock};
ghost use Rattle.iv_types.specs.declared.statement.Mode.TheVariants.{Serial};
ghost use Rattle.txn_machine.specs.May.{IsOpen, IsReady};
ghost use Rattle.txn_machine.specs.State.{State};
ghost use Rattle.txn_machine.specs.Steps.{IsFree};
ghost use Rattle.txn_machine.specs.Store.{locks_of};
ghost use Rattle.txn_book.specs.Acts.{answer_of};
ghost use Rattle.core_state.specs.Stands.{Began, Told};
ghost use Rattle.core_locks.specs.Asks.{Asks, others_wait};

use core_state::CoreState;
use iv_types::{Cycle, EngineRefusal, Sessions, SortedMaps, WantList};
use lock_desk::{Asked, ask};
use log_room::same_room_law;
use txn_book::Answer;

// The session waits for these, who are in the way.
fn wait_for<M: SortedMaps>(
    core: &mut CoreState<M>,
    session: u32,
    wants: WantList,
    sessions: Sessions,
) -> Answer
    requires { (s : State) × Began M.maps M.spare M.limit core.old s session × IsReady s.store session Serial }
    ensures { (s : State) (a : Act) → Began M.maps M.spare M.limit core.old s session → IsReady s.store session Serial → Asks s session a wants → HasToWait (locks_of s.store) (others_wait s.waiting session) session wants sessions
        → Told M.maps M.spare M.limit s session a (answer_of result) core.new }
{
    core.locks.wait(session, wants);
    Answer::Blocked(sessions)
}

/// A deadlock meets a session's transaction, which was asking for these locks.
pub fn lose<M: SortedMaps>(core: &mut CoreState<M>, session: u32, cycle: Cycle) -> Answer
    requires { (s : State) × Began M.maps M.spare M.limit core.old s session × IsOpen s.store session }
    ensures { (s : State) (a : Act) (wants : List Want) → Began M.maps M.spare M.limit core.old s session → IsOpen s.store session → Asks s session a wants → IsDeadlock (locks_of s.store) (others_wait s.waiting session) session wants (sessions_of cycle)
        → Told M.maps M.spare M.limit s session a (answer_of result) core.new }
{
    core.book.book_law();
    same_room_law();
    core.book.lose(session);
    Answer::Refused(EngineRefusal::Deadlock(cycle))
}

/// Asks for locks of a session whose serial transaction is open and owes nothing. Where nobody is in the way the wants are given back, and nothing is
/// changed. Else `Err` is the answer of the act that asks for them: it has to wait, or a deadlock meets its transaction.
pub fn ask_for<M: SortedMaps>(
    core: &mut CoreState<M>,
    session: u32,
    wants: WantList,
) -> Result<WantList, Answer>
    requires { (s : State) × Began M.maps M.spare M.limit core.old s session × IsReady s.store session Serial }
    ensures wants { IfOk result (λ free. free ≡ wants) }
    ensures free { OnOk result ((s : State) → Began M.maps M.spare M.limit core.old s session → IsFree s.store session wants) }
    ensures same { OnOk result (core.new ≡ core.old) }
    ensures told { IfErr result (λ said. (s : State) (a : Act) → Began M.maps M.spare M.limit core.old s session → IsReady s.store session Serial → Asks s session a wants → Told M.maps M.spare M.limit s session a (answer_of said) core.new) }
{
    match ask(&core.locks, session, &wants) {
        Asked::Free => Ok(wants),
        Asked::Blocked(sessions) => Err(wait_for(core, session, wants, sessions)),
        Asked::Deadlock(cycle) => Err(lose(core, session, cycle)),
    }
}
