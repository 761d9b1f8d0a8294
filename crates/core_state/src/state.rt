//! The state of the core.
ghost use Rattle.std.specs.Prelude.{◌≡◌, ◌+◌, ◌<◌, ◌^◌, [], Some, IsSome, IfOk, IfSome, IfNone};
ghost use Rattle.std.specs.FinMap.{empty};
ghost use Rattle.iv_types.specs.Maps.{IsWithin, used};
ghost use Rattle.txn_machine.specs.Log.{Above, Within, block_bytes};
ghost use Rattle.txn_machine.specs.State.{opened_state};
ghost use Rattle.txn_machine.specs.Store.{opened};
ghost use Rattle.data_store.specs.Contents.{no_contents};
ghost use Rattle.data_store.specs.Held.{AreEmpty, IsHeld};
ghost use Rattle.txn_book.specs.Opens.{open_at};
ghost use Rattle.data_room.specs.Reserved.{Where};
ghost use Rattle.core_state.specs.Stands.{Stands, limited};

use crate::seat::{Cleaner, Seats};
use data_past::VersionsAhead;
use data_room::DataRoom;
use data_store::DataStore;
use iv_types::{NoMemory, SortedMaps};
use lock_desk::PayWants;
use lock_manager::LockTable;
use log_room::LogRoom;
use std::alloc::Global;
use txn_book::{Book, Open};
use txn_machine::steps::empty_law;

/// The state of the core.
#[derive(Drop)]
pub struct CoreState<M: SortedMaps> {
    pub alloc: Global,
    /// What is stored.
    pub store: DataStore<M>,
    /// The open transactions, and the history.
    pub book: Book,
    /// What sessions have locked, and what they wait for.
    pub locks: LockTable,
    /// The locks that the pays of open transactions will ask for.
    pub wants: PayWants,
    /// The versions that commits of open transactions will leave, made ahead.
    pub ahead: VersionsAhead,
    /// What open transactions keep of the data, with the limit of the data.
    pub data_room: DataRoom,
    /// What is used and reserved of the log, with its limit.
    pub log_room: LogRoom,
    /// How many serial transactions began, which numbers them in the log.
    pub begun: u64,
    /// The number of the log's next record.
    pub next: u64,
    /// How many steps were done.
    pub steps: u64,
    /// What sessions were told.
    pub seats: Seats,
    pub cleaner: Cleaner,
    /// The step that stopped it.
    pub stop: Option<u64>,
}

// A store that has nothing, whose versions would be kept above this number.
fn new_store<M: SortedMaps>(alloc: Global, maps: M, number: u64) -> Result<DataStore<M>, NoMemory>
    requires { AreEmpty (M.maps maps) }
    ensures maps { IfOk result (λ store. store.tables ≡ maps) }
    ensures held { IfOk result (λ store. IsHeld store.catalog (M.maps store.tables) store.views no_contents) }
    ensures marks { IfOk result (λ store. (store.row_versions.pruned ≡ number) × (store.delta_versions.pruned ≡ number)) }
    ensures past { IfOk result (λ store. (store.row_versions.versions ≡ []) × (store.delta_versions.versions ≡ []) × (store.pending.entries ≡ empty)) }
{
    let mut store = DataStore::new(alloc, maps)?;
    store.row_versions.prune(alloc, number);
    store.delta_versions.prune(alloc, number);
    Ok(store)
}

impl<M: SortedMaps> CoreState<M> {
    /// A core on a database that defines nothing, whose greatest commit number is this one, over maps without an entry
    /// and with this limit, in bytes. An area of its log takes so many bytes, where there is such a limit.
    ///
    /// # Errors
    ///
    /// Where there is no memory for it.
    pub fn new(
        alloc: Global,
        maps: M,
        log: Option<u32>,
        most: u32,
        number: u64,
    ) -> Result<Self, NoMemory>
        requires empty { AreEmpty (M.maps maps) }
        requires log { Within log (block_bytes + 1) }
        requires data { M.limit maps ≡ Some most }
        requires number { number < 2 ^ 63 }
        ensures { IfOk result (λ core. Stands M.maps M.spare M.limit core (opened_state (limited log (Some most)) (opened (record { number = number; schema = []; rows = empty }) empty))) }
    {
        empty_law();
        // The store comes last: its drop is the longest, and is not proved where another part fails.
        Ok(CoreState {
            alloc,
            seats: Seats::new(alloc)?,
            wants: PayWants::new(alloc)?,
            ahead: VersionsAhead::new(alloc)?,
            data_room: DataRoom::new(alloc, Some(most))?,
            log_room: LogRoom::new(log),
            locks: LockTable::new(alloc)?,
            book: Book::new(alloc, number)?,
            store: new_store(alloc, maps, number)?,
            begun: 0,
            next: 1,
            steps: 0,
            cleaner: Cleaner {
                pruned: 0,
                found_none: 0,
                removed: 0,
                saved: 0,
            },
            stop: None,
        })
    }

    /// What the data use, with what is kept of them, if so many bytes more would pass their limit.
    pub fn full_of_data(&self, need: u64) -> Option<u64>
        requires { IsWithin self.now.data_room.limit (used (M.maps self.now.store.tables) + self.now.data_room.total) }
        ensures fits { IfNone result (IsWithin self.now.data_room.limit (used (M.maps self.now.store.tables) + self.now.data_room.total + need)) }
        ensures small { IfNone result (Where self.now.data_room.limit (used (M.maps self.now.store.tables) + self.now.data_room.total + need < 2 ^ 32)) }
        ensures used { IfSome result (λ all. Where self.now.data_room.limit (all ≡ used (M.maps self.now.store.tables) + self.now.data_room.total)) }
        ensures passes { IfSome result (λ all. Above self.now.data_room.limit (all + need)) }
    {
        self.data_room.full(self.store.tables.maps().used(), need)
    }

    /// The open transaction of a session that has one.
    pub fn open_of(&self, session: u32) -> &Open
        requires { IsSome (open_at self.now.book.opens session) }
        ensures { open_at self.now.book.opens session ≡ Some result.now }
    {
        match self.book.get(session) {
            Some(txn) => txn,
            None => unreachable!(),
        }
    }
}
