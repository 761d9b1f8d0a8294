//! A core on a database that was there.
ghost use Rattle.std.specs.Prelude.{◌≡◌, IfOk};
ghost use Rattle.iv_meaning.specs.Database.{Database};
ghost use Rattle.txn_machine.specs.Log.{Opening};
ghost use Rattle.txn_machine.specs.State.{opened_state};
ghost use Rattle.txn_machine.specs.Store.{opened};
ghost use Rattle.txn_machine.specs.Stored.{ViewRows};
ghost use Rattle.core_state.specs.Stands.{Stands};
ghost use Rattle.core_opening.specs.Opening.{CanOpen};

use crate::idle::Idle;
use core_state::{Cleaner, CoreState};
use data_store::DataStore;
use iv_types::{NoMemory, SortedMaps};

/// A core on a database that was there, as it is opened: its store has the database's rows, its stored view rows and the texts of
/// its definitions, and no transaction is open. An area of its log takes so many bytes, where there is such a limit, and its data
/// so many at most. The greatest commit number is that of the database, and the next record of the log has this number. But for
/// its versions the store stays as it was.
///
/// # Errors
///
/// Where there is no memory for it.
pub fn open<M: SortedMaps>(
    mut store: DataStore<M>,
    log: Option<u32>,
    most: u32,
    number: u64,
    next: u64,
) -> Result<CoreState<M>, NoMemory>
    requires stands { (opening : Opening) × (db : Database) × (view : ViewRows) × CanOpen M.maps M.limit store log most number next opening db view }
    ensures stands { IfOk result (λ core. (opening : Opening) (db : Database) (view : ViewRows) → CanOpen M.maps M.limit store log most number next opening db view
        → Stands M.maps M.spare M.limit core (opened_state opening (opened db view))) }
    ensures rest { IfOk result (λ core. core.store ≡ record store { row_versions = core.store.row_versions; delta_versions = core.store.delta_versions }) }
{
    let alloc = store.alloc;
    let Idle {
        seats,
        wants,
        ahead,
        data_room,
        log_room,
        locks,
        book,
    } = Idle::new(alloc, log, most, number)?;
    store.row_versions.prune(alloc, number);
    store.delta_versions.prune(alloc, number);
    Ok(CoreState {
        alloc,
        store,
        book,
        locks,
        wants,
        ahead,
        data_room,
        log_room,
        begun: 0,
        next,
        steps: 0,
        seats,
        cleaner: Cleaner {
            pruned: 0,
            found_none: 0,
            removed: 0,
            saved: 0,
        },
        stop: None,
    })
}
