//! What a store had at a commit number.
ghost use Rattle.std.specs.Prelude.{◌≡◌, ◌≤◌, IfOk};
ghost use Rattle.std.specs.Option.{option_copied};
ghost use Rattle.std.specs.FinMap.{get};
ghost use Rattle.iv_meaning.specs.Database.{Rows};
ghost use Rattle.table_store.specs.Stored.{IsTableAnd, OfTable};

use crate::store::DataStore;
use iv_types::{Bytes, NoMemory, Row, SortedMaps};
use row_codec::row_law;
use table_store::{row_of, table_of};

impl<M: SortedMaps> DataStore<M> {
    ghost use Rattle.data_store.specs.Past.{committed_value, value_at, WereRows};

    /// The committed value under a key of an index, if there is one.
    pub fn committed(&self, index: u32, key: &[u8]) -> Option<&[u8]>
        ensures { option_copied result ≡ committed_value self.now.pending.entries (M.maps self.now.tables) (index, key.now) }
    {
        match self.pending.get(index, key) {
            Some(pending) => match &pending.committed {
                Some(bytes) => Some(bytes.as_slice()),
                None => None,
            },
            None => self.tables.maps().get(index, key),
        }
    }

    /// The value under a key of an index at a commit number.
    pub(crate) fn value_at(
        &self,
        number: u64,
        index: u32,
        key: &[u8],
    ) -> Result<Option<Bytes>, NoMemory>
        requires { self.now.row_versions.pruned ≤ number }
        ensures { IfOk result (λ found. found ≡ value_at number self.now.row_versions.versions self.now.pending.entries (M.maps self.now.tables) (index, key.now)) }
    {
        self.row_versions
            .at(self.alloc, number, index, key, self.committed(index, key))
    }

    /// The row of a table that stood under an encoded primary key at a commit number, if one did. The number is not below what
    /// was pruned.
    ///
    /// # Errors
    ///
    /// Where there is no memory for it.
    pub fn row_at(&self, number: u64, table: u32, key: &[u8]) -> Result<Option<Row>, NoMemory>
        requires kept { self.now.row_versions.pruned ≤ number }
        requires rows { IsTableAnd self.now.catalog table (λ t. (rows : Rows) × WereRows number self.now.row_versions.versions self.now.pending.entries (M.maps self.now.tables) rows t) }
        ensures { IfOk result (λ row. (rows : Rows) → OfTable self.now.catalog table (WereRows number self.now.row_versions.versions self.now.pending.entries (M.maps self.now.tables) rows)
            → get rows (table, key.now) ≡ row) }
    {
        row_law();
        let definition = table_of(&self.catalog, table);
        match self.value_at(number, table, key)? {
            Some(bytes) => Ok(Some(row_of(self.alloc, definition, bytes.as_slice())?)),
            None => Ok(None),
        }
    }
}
