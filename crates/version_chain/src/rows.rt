//! Versions of rows.
ghost use Rattle.std.specs.Prelude.{◌≡◌, ◌+◌, ◌≤◌, length, IfOk};
ghost use Rattle.std.specs.Option.{option_copied};
ghost use Rattle.version_chain.specs.Chains.{pushed, row_at};

use crate::chains::{Chains, is_of};
use crate::copying::copied_row;
use crate::search::first;
use iv_types::{Bytes, NoMemory};
use std::alloc::Global;

/// A row of an index as it was before a commit: None where there was none under the key.
#[derive(Drop)]
pub struct Version {
    pub index: u32,
    pub key: Bytes,
    pub before: Option<Bytes>,
}

/// Chains of the versions of rows.
pub type RowChains = Chains<Option<Bytes>>;

impl Chains<Option<Bytes>> {
    /// Adds the version of a row that a commit with this number left, behind the versions of its place with no greater
    /// numbers. One that is not above what was pruned is let go at once. It takes no memory.
    pub fn push(&mut self, number: u64, change: Version)
        requires room { 1 ≤ self.old.room }
        ensures versions { self.new.versions ≡ pushed (((change.index, change.key), number), change.before) self.old.pruned self.old.versions }
        ensures pruned { self.new.pruned ≡ self.old.pruned }
        ensures room { self.new.room + length self.new.versions ≡ self.old.room + length self.old.versions }
    {
        self.add(change.index, change.key, number, change.before);
    }

    /// The row that stood under a key at a commit number, which is not below what was pruned, where this one stands there now.
    ///
    /// # Errors
    ///
    /// Where there is no memory for it.
    pub fn at(
        &self,
        alloc: Global,
        number: u64,
        index: u32,
        key: &[u8],
        now: Option<&[u8]>,
    ) -> Result<Option<Bytes>, NoMemory>
        requires kept { self.now.pruned ≤ number }
        ensures { IfOk result (λ row. row ≡ row_at number (index, key.now) (option_copied now.entry) self.now.versions) }
    {
        match first(self.tree(), index, key, number, true) {
            Some(node) if is_of(node, index, key) => match &node.held {
                Some(before) => copied_row(alloc, Some(before.as_slice())),
                None => Ok(None),
            },
            _ => copied_row(alloc, now),
        }
    }
}
