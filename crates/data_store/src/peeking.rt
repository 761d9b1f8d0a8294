//! What a store had in an interval at a commit number.
ghost use Rattle.std.specs.Prelude.{◌≡◌, ◌≤◌, IfOk};
ghost use Rattle.iv_meaning.specs.Schema.{numbered};
ghost use Rattle.iv_meaning.specs.Database.{Database};
ghost use Rattle.txn_machine.specs.Stored as machine;
ghost use Rattle.txn_machine.specs.Steps.{FindsIn};
ghost use Rattle.data_store.specs.Contents.{Contents};
ghost use Rattle.data_store.specs.Reading.{CanBeRead};
ghost use Rattle.data_store.specs.Peeking.{WereAll, CanPeek};

use crate::store::DataStore;
use iv_types::{Definition, Interval, NoMemory, RowList, SortedMaps};

impl<M: SortedMaps> DataStore<M> {
    /// The rows of a table or a view in an interval at a commit number, in the order of its keys: those that `found` would have
    /// given then. The number is not below what was pruned.
    ///
    /// # Errors
    ///
    /// Where there is no memory for them.
    pub fn found_at(
        &self,
        number: u64,
        index: u32,
        interval: &Interval,
    ) -> Result<RowList, NoMemory>
        requires rows_kept { self.now.row_versions.pruned ≤ number }
        requires deltas_kept { self.now.delta_versions.pruned ≤ number }
        requires past { CanPeek number self.now.row_versions.versions self.now.delta_versions.versions self.now.pending.entries self.now.catalog (M.maps self.now.tables) self.now.views index }
        ensures { IfOk result (λ rows. (c : Contents) (db : Database) (past : machine.ViewRows) → CanBeRead self.now.catalog (M.maps self.now.tables) self.now.views c → db.schema ≡ c.objects
            → WereAll number self.now.row_versions.versions self.now.delta_versions.versions self.now.pending.entries self.now.catalog (M.maps self.now.tables) self.now.views c db.rows past
            → FindsIn db past (numbered c.objects index) index interval.now rows) }
    {
        self.catalog.number_law();
        let Some(definition) = self.catalog.get(index) else {
            unreachable!()
        };
        match definition {
            Definition::View(_) => self.shown_at(number, index, interval),
            _ => self.rows_at(number, index, interval),
        }
    }
}
