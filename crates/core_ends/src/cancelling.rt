//! Cancel.
ghost use Rattle.txn_machine.specs.Acts as act;
ghost use Rattle.txn_machine.specs.State.{State};
ghost use Rattle.txn_book.specs.Acts.{answer_of};
ghost use Rattle.core_state.specs.Stands.{Began, Told};

use core_state::CoreState;
use iv_types::SortedMaps;
use txn_book::Answer;

/// Forgets what a session waits for, which a step that begins has done already.
pub fn cancel<M: SortedMaps>(core: &CoreState<M>, session: u32) -> Answer
    ensures { (s : State) → Began M.maps M.spare M.limit core.now s session → Told M.maps M.spare M.limit s session act.Cancel (answer_of result) core.now }
{
    let _core = core;
    let _session = session;
    Answer::Cancelled
}
