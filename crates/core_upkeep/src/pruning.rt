//! Prune.
ghost use Rattle.std.specs.Prelude.{◌≡◌};
ghost use Rattle.txn_machine.specs.Acts as act;
ghost use Rattle.txn_machine.specs.State.{State};
ghost use Rattle.txn_book.specs.Acts.{answer_of};
ghost use Rattle.version_chain.specs.Versions.{above};
ghost use Rattle.core_state.specs.Stands.{Began, Told};
ghost use Rattle.core_upkeep.specs.Oldest.{oldest};

use core_state::CoreState;
use iv_types::SortedMaps;
use log_room::same_room_law;
use txn_book::Answer;

/// Drops the versions that no open snapshot can need: those of commits up to the least number of an open snapshot, or up to the
/// greatest number where none is open. Takes no memory.
pub fn prune<M: SortedMaps>(core: &mut CoreState<M>) -> Answer
    ensures told { (s : State) → Began M.maps M.spare M.limit core.old s 0 → Told M.maps M.spare M.limit s 0 act.Prune (answer_of result) core.new }
    ensures rows { core.new.store.row_versions.versions ≡ above (oldest core.old.book) core.old.store.row_versions.versions }
    ensures deltas { core.new.store.delta_versions.versions ≡ above (oldest core.old.book) core.old.store.delta_versions.versions }
{
    same_room_law();
    let oldest = core.book.least_snapshot();
    let alloc = core.alloc;
    core.store.row_versions.prune(alloc, oldest);
    core.store.delta_versions.prune(alloc, oldest);
    Answer::Pruned
}
