//! Room that is made ahead.
ghost use Rattle.std.specs.Prelude.{◌≡◌, ◌≤◌, ℕ, OnOk};
ghost use Rattle.iv_meaning.specs.Escrow.{IsSession};
ghost use Rattle.lock_manager.specs.Table.{locks_of, room_of};
ghost use Rattle.txn_machine.specs.State.{State};
ghost use Rattle.core_state.specs.Stands.{Began};

use core_state::CoreState;
use iv_types::{NoMemory, SortedMaps};

/// Makes room for so many locks more of a session.
///
/// # Errors
///
/// Where there is no memory for it. Nothing is changed then.
pub fn reserve_locks<M: SortedMaps>(
    core: &mut CoreState<M>,
    session: u32,
    more: u32,
) -> Result<(), NoMemory>
    requires { IsSession session }
    ensures room { OnOk result (more ≤ room_of core.new.locks session) }
    ensures locks { (other : ℕ) → locks_of core.new.locks other ≡ locks_of core.old.locks other }
    ensures began { (s : State) → Began M.maps M.spare M.limit core.old s session → Began M.maps M.spare M.limit core.new s session }
    ensures rest { core.new ≡ record core.old { locks = core.new.locks } }
{
    core.locks.reserve(session, more)
}
