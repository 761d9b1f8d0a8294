//! What a change of a row asks for, and what it owes to the views.
ghost use Rattle.std.specs.Prelude.{◌≡◌, IfOk};
ghost use Rattle.iv_meaning.specs.Schema.{numbered};
ghost use Rattle.txn_machine.specs.Deltas as machine;
ghost use Rattle.txn_machine.specs.Steps.{put_wants};
ghost use Rattle.txn_machine.specs.RowChanges.{row_change};
ghost use Rattle.txn_machine.specs.ViewLaws.{IsRight};
ghost use Rattle.data_store.specs.Contents.{Contents};
ghost use Rattle.data_store.specs.Held.{IsHeld};
ghost use Rattle.data_store.specs.Reading.{CanChange};

use crate::store::DataStore;
use iv_types::{Change, DeltaList, NoMemory, SortedMaps, WantList};
use table_store::table_of;
use view_delta::{owed, wants_of};

impl<M: SortedMaps> DataStore<M> {
    /// The locks of a change of a row of a table: on its entries before and after, and on what has to be looked up to know what
    /// it owes.
    ///
    /// # Errors
    ///
    /// Where there is no memory for them.
    pub fn put_wants(&self, change: &Change) -> Result<WantList, NoMemory>
        requires { CanChange self.now.catalog (M.maps self.now.tables) self.now.views change.now }
        ensures { IfOk result (λ wants. (c : Contents) → IsHeld self.now.catalog (M.maps self.now.tables) self.now.views c
            → wants ≡ put_wants c.objects (numbered c.objects change.now.table) (row_change change.now)) }
    {
        let table = table_of(&self.catalog, change.table);
        wants_of(self.alloc, &self.catalog, table, change)
    }

    /// What a change owes to view after view, in the order in which they were made, by the rows that are stored.
    ///
    /// # Errors
    ///
    /// Where there is no memory for it.
    pub fn owed(&self, change: &Change) -> Result<DeltaList, NoMemory>
        requires { CanChange self.now.catalog (M.maps self.now.tables) self.now.views change.now }
        ensures { IfOk result (λ deltas. (c : Contents) → IsHeld self.now.catalog (M.maps self.now.tables) self.now.views c
            → IsRight c.objects c.rows (row_change change.now) → deltas ≡ machine.owed c.objects c.rows (row_change change.now)) }
    {
        owed(self.alloc, &self.catalog, &self.tables, change)
    }
}
