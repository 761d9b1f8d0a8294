//! Locks and the changes that they stand for.
ghost use Rattle.std.specs.Prelude.{◌≡◌, IfOk};
ghost use Rattle.std.specs.Option.{option_copied};

use crate::{Bytes, Interval, NoMemory, NumberList, Row, Sequence, copied_row};
use std::alloc::Global;

/// How a lock is held: Share conflicts with all but Share, Increment with all but Increment.
#[derive(Clone, Copy, PartialEq, Eq)]
pub enum LockMode {
    Share,
    Exclusive,
    Increment,
}

/// A lock that is asked for: an interval of an index, by the index's object number.
#[derive(Drop)]
pub struct Want {
    pub index: u32,
    pub interval: Interval,
    pub mode: LockMode,
}

/// Locks that are asked for together.
pub type WantList = Sequence<Want>;

/// What one row adds to a view's row or takes from it: a count of 1 or -1, and the values of its sums.
#[derive(Drop)]
pub struct GroupDelta {
    pub view: u32,
    /// The encoded group.
    pub group: Bytes,
    pub count: i8,
    pub sums: NumberList,
}

impl GroupDelta {
    /// The same delta again.
    ///
    /// # Errors
    ///
    /// Where there is no memory for it.
    pub fn copied(&self, alloc: Global) -> Result<GroupDelta, NoMemory>
        ensures { IfOk result (λ copy. copy ≡ self.now) }
    {
        Ok(GroupDelta {
            view: self.view,
            group: self.group.copied(alloc)?,
            count: self.count,
            sums: self.sums.copied(alloc)?,
        })
    }
}

/// A list of deltas.
pub type DeltaList = Sequence<GroupDelta>;

/// A row of a view: its encoded group, its count and its sums.
#[derive(Drop)]
pub struct ViewRow {
    pub group: Bytes,
    pub count: i128,
    pub sums: NumberList,
}

/// Rows of a view.
pub type ViewRowList = Sequence<ViewRow>;

/// A change of a row of a table, under its encoded primary key.
#[derive(Drop)]
pub struct Change {
    pub table: u32,
    pub key: Bytes,
    pub before: Option<Row>,
    pub after: Option<Row>,
}

/// The same row again, if there is one.
///
/// # Errors
///
/// Where there is no memory for it.
pub fn copied_perhaps(alloc: Global, row: Option<&Row>) -> Result<Option<Row>, NoMemory>
    ensures { IfOk result (λ copy. copy ≡ option_copied row.entry) }
{
    match row {
        Some(row) => Ok(Some(copied_row(alloc, row)?)),
        None => Ok(None),
    }
}

impl Change {
    /// The same change again.
    ///
    /// # Errors
    ///
    /// Where there is no memory for it.
    pub fn copied(&self, alloc: Global) -> Result<Change, NoMemory>
        ensures { IfOk result (λ copy. copy ≡ self.now) }
    {
        Ok(Change {
            table: self.table,
            key: self.key.copied(alloc)?,
            before: copied_perhaps(alloc, self.before.as_ref())?,
            after: copied_perhaps(alloc, self.after.as_ref())?,
        })
    }
}

/// A list of changes.
pub type ChangeList = Sequence<Change>;

/// The sum of a transaction's kept increments of a column, and the least and the greatest of its sums on the way, 0
/// included (O'Neil, The escrow transactional method, 1986).
#[derive(Clone, Copy, PartialEq, Eq)]
pub struct Prefix {
    pub sum: i128,
    pub lo: i128,
    pub hi: i128,
}

/// The prefixes of a view row's columns: the count and at most eight sums.
pub type PrefixList = [Prefix; 9];

/// An entry of an index.
#[derive(Drop)]
pub struct IndexEntry {
    pub index: u32,
    pub key: Bytes,
    pub value: Bytes,
}

/// A list of index entries.
pub type IndexEntryList = Sequence<IndexEntry>;

/// A change that was made, with the index entries that it removed and made.
#[derive(Drop)]
pub struct Kept {
    pub change: Change,
    pub gone: IndexEntryList,
    pub made: IndexEntryList,
}

/// A step of a transaction that can be taken back, with the number of its log record.
#[derive(Drop)]
pub enum KeptStep {
    /// A change, and the bytes that its transaction counted before it: for its own limit, and for the history's.
    Put {
        kept: Kept,
        txn_bytes: u64,
        history_bytes: u64,
        number: u64,
    },
    /// A delta that was paid, and the session's prefixes on its row before it.
    Pay {
        delta: GroupDelta,
        before: PrefixList,
        number: u64,
    },
}

/// The kept steps of a transaction, in order.
pub type KeptList = Sequence<KeptStep>;
