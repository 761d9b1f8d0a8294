//! Room for the versions that a change will leave.
ghost use Rattle.std.specs.Prelude.{◌≡◌, ◌+◌, ◌≤◌, ◌<◌, ◌^◌, OnOk};
ghost use Rattle.txn_machine.specs.May.{IsOpen};
ghost use Rattle.txn_machine.specs.State.{State};
ghost use Rattle.data_past.specs.Ahead.{all_rows, all_deltas, CanAddAt};
ghost use Rattle.core_state.specs.Stands.{Began};

use core_state::CoreState;
use data_past::reserve_versions;
use iv_types::{NoMemory, SortedMaps};

/// Makes room for the version of one more change of a session and for so many deltas more: among those of its transaction, and in the
/// chains for all that are made.
///
/// # Errors
///
/// Where there is no memory for it. Nothing is changed then but room.
pub fn reserve_ahead<M: SortedMaps>(
    core: &mut CoreState<M>,
    session: u32,
    deltas: usize,
) -> Result<(), NoMemory>
    requires few { deltas ≤ 524288 }
    requires began { (s : State) × Began M.maps M.spare M.limit core.old s session × IsOpen s.store session }
    ensures room { OnOk result (CanAddAt core.new.ahead session deltas) }
    ensures rows { OnOk result (all_rows core.new.ahead + 1 ≤ core.new.store.row_versions.room) }
    ensures deltas { OnOk result (all_deltas core.new.ahead + deltas ≤ core.new.store.delta_versions.room) }
    ensures began { (s : State) → Began M.maps M.spare M.limit core.old s session → Began M.maps M.spare M.limit core.new s session }
    ensures rest { core.new ≡ record core.old { store = record core.old.store { row_versions = core.new.store.row_versions; delta_versions = core.new.store.delta_versions }; ahead = core.new.ahead } }
{
    let (rows, all) = core.ahead.count();
    core.ahead.reserve(session, deltas)?;
    reserve_versions(&mut core.store, rows as u32 + 1, (all + deltas) as u32)
}
