//! What stands in memory while the records of an image are replayed.
ghost use Rattle.std.specs.Prelude.{◌≡◌, []};
ghost use Rattle.txn_log.specs.Replay.{Pages};
ghost use Rattle.record_replay.specs.Past.{carrying};
ghost use Rattle.record_replay.specs.Standing.{Has, HasReplayed};

use data_store::DataStore;
use iv_types::SortedMaps;
use live_records::LiveRecords;

/// A store on which the records of an image are replayed, one after another.
#[derive(Drop)]
pub struct Replay<M: SortedMaps> {
    /// What the records that were replayed leave. No transaction is open in it.
    pub store: DataStore<M>,
    /// What transactions keep that have not ended, and which have.
    pub live: LiveRecords,
    /// The greatest commit number.
    pub commits: u64,
    /// The least number that the next record may have.
    pub next: u64,
}

impl<M: SortedMaps> Replay<M> {
    /// No record is replayed yet, on a store that has what the pages of an image have. The commit number is that of the image's
    /// header.
    pub fn new(store: DataStore<M>, commits: u64) -> Self
        requires { (p : Pages) × Has M.maps M.limit store p × (commits ≡ p.db.number) }
        ensures begins { (p : Pages) → Has M.maps M.limit store p → commits ≡ p.db.number → HasReplayed M.maps M.limit result (carrying p [] []) }
        ensures store { result.store ≡ store }
        ensures commits { result.commits ≡ commits }
    {
        let live = LiveRecords::new(store.alloc);
        Replay {
            store,
            live,
            commits,
            next: 0,
        }
    }
}
