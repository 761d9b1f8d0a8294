//! A session takes locks.
ghost use Rattle.std.specs.Prelude.{◌≡◌, ◌≢◌, ◌+◌, ◌≤◌, ℕ, List, [], length};
ghost use Rattle.iv_meaning.specs.Escrow.{IsSession};
ghost use Rattle.lock_manager.specs.Table.{IsFree, AddAtMost, locks_of, room_of, waiting_of};
ghost use Rattle.txn_machine.specs.Acts.{Act};
ghost use Rattle.txn_machine.specs.Ghosts.{the_views};
ghost use Rattle.txn_machine.specs.Log.{Log, logs};
ghost use Rattle.txn_machine.specs.May.{IsOpen};
ghost use Rattle.txn_machine.specs.Store.{Store, Takes, does};
ghost use Rattle.core_state.specs.Stands.{Holds, Texts};
ghost use Rattle.core_effects.specs.Owing.{OwesNone};

use core_state::CoreState;
use iv_types::{SortedMaps, WantList};

/// Locks are the session's, of which nobody is in the way and for which there is room. Its transaction owes nothing. Takes no
/// memory.
pub fn take<M: SortedMaps>(core: &mut CoreState<M>, session: u32, wants: WantList)
    requires session { IsSession session }
    requires free { IsFree (locks_of core.old.locks) session wants }
    requires reserved { AddAtMost (room_of core.old.locks session) (locks_of core.old.locks session) wants }
    ensures holds { (s : Store) (l : Log) (texts : Texts) (a : Act) → Holds M.maps M.spare M.limit core.old s l texts → IsOpen s session → OwesNone core.old.book session
        → Holds M.maps M.spare M.limit core.new (does the_views s session (Takes wants)) (logs s session a (Takes wants) l) texts }
    ensures own { waiting_of core.new.locks session ≡ [] }
    ensures others { (other : ℕ) → other ≢ session → waiting_of core.new.locks other ≡ waiting_of core.old.locks other }
    ensures room { room_of core.old.locks session ≤ room_of core.new.locks session + length wants }
    ensures rest { core.new ≡ record core.old { locks = core.new.locks } }
{
    core.locks.grant(session, wants);
}
