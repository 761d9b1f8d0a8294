//! Peek.
ghost use Rattle.std.specs.Prelude.{◌≡◌, Some, IsSome, IfOk};
ghost use Rattle.txn_machine.specs.Acts as act;
ghost use Rattle.txn_machine.specs.May.{IsOpen, MayAct};
ghost use Rattle.txn_machine.specs.State.{State};
ghost use Rattle.txn_machine.specs.Store.{now};
ghost use Rattle.txn_book.specs.Acts.{answer_of};
ghost use Rattle.txn_book.specs.Opens.{open_at};
ghost use Rattle.core_state.specs.Stands.{Began, Told};

use core_state::CoreState;
use iv_types::{Interval, NoMemory, SortedMaps};
use txn_book::Answer;

// The greatest commit number as a session's open transaction began.
fn own_number<M: SortedMaps>(core: &CoreState<M>, session: u32) -> u64
    requires { IsSome (open_at core.now.book.opens session) }
    ensures { (s : State) → Began M.maps M.spare M.limit core.now s session → IsOpen s.store session → result ≡ (now s.store session).number }
{
    match core.book.get(session) {
        Some(txn) => txn.number,
        None => unreachable!(),
    }
}

/// Reads a table or a view in an interval at the number of a session's snapshot. It takes no lock and notes nothing.
///
/// # Errors
///
/// Where there is no memory for the rows.
pub fn peek<M: SortedMaps>(
    core: &CoreState<M>,
    session: u32,
    index: u32,
    interval: &Interval,
) -> Result<Answer, NoMemory>
    requires { (s : State) × Began M.maps M.spare M.limit core.now s session × MayAct s.store session (act.Peek index interval.now) }
    ensures { IfOk result (λ said. (s : State) → Began M.maps M.spare M.limit core.now s session → MayAct s.store session (act.Peek index interval.now) → Told M.maps M.spare M.limit s session (act.Peek index interval.now) (answer_of said) core.now) }
{
    let number = own_number(core, session);
    Ok(Answer::Rows(core.store.found_at(number, index, interval)?))
}
