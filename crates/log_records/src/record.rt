//! The records of the log.
ghost use Rattle.std.specs.Prelude.{◌≡◌};
ghost use Rattle.std.specs.Option.{option_copied};
ghost use Rattle.log_records.specs.Lent.{stands_for};

use iv_types::{Bytes, NumberList, Sequence};

/// One record of the log. A key, a group, a row and a text are bytes as they are stored.
#[derive(Drop)]
pub enum Record {
    /// A transaction set the row of a key of a table. `None` is no row.
    Write {
        transaction: u64,
        table: u32,
        key: Bytes,
        before: Option<Bytes>,
        after: Option<Bytes>,
    },
    /// A transaction added these numbers to the row of a group of a view.
    Delta {
        transaction: u64,
        view: u32,
        group: Bytes,
        count: i8,
        sums: NumberList,
    },
    /// A view got a row of zeros.
    Ghost {
        view: u32,
        group: Bytes,
    },
    /// A view lost a row of zeros.
    Clean {
        view: u32,
        group: Bytes,
    },
    /// A transaction took back its `Write` or `Delta` of this record number.
    Undo {
        transaction: u64,
        number: u64,
    },
    /// A transaction of this session ended, and its changes stand.
    Commit {
        transaction: u64,
        commit: u64,
        session: u32,
    },
    /// A transaction ended, and none of its changes stand.
    Abort {
        transaction: u64,
    },
    /// A session defined a table, an index or a view by this text.
    Schema {
        commit: u64,
        session: u32,
        text: Bytes,
    },
}

/// A record whose key, group, rows, text and sums are lent by who has them. It takes no memory, and is copied freely.
#[derive(Clone, Copy)]
pub enum LentRecord<'a> {
    /// A transaction set the row of a key of a table. `None` is no row.
    Write {
        transaction: u64,
        table: u32,
        key: &'a [u8],
        before: Option<&'a [u8]>,
        after: Option<&'a [u8]>,
    },
    /// A transaction added these numbers to the row of a group of a view.
    Delta {
        transaction: u64,
        view: u32,
        group: &'a [u8],
        count: i8,
        sums: &'a [i128],
    },
    /// A view got a row of zeros.
    Ghost {
        view: u32,
        group: &'a [u8],
    },
    /// A view lost a row of zeros.
    Clean {
        view: u32,
        group: &'a [u8],
    },
    /// A transaction took back its `Write` or `Delta` of this record number.
    Undo {
        transaction: u64,
        number: u64,
    },
    /// A transaction of this session ended, and its changes stand.
    Commit {
        transaction: u64,
        commit: u64,
        session: u32,
    },
    /// A transaction ended, and none of its changes stand.
    Abort {
        transaction: u64,
    },
    /// A session defined a table, an index or a view by this text.
    Schema {
        commit: u64,
        session: u32,
        text: &'a [u8],
    },
}

// The bytes of a row, if there is one.
fn lent_row(row: &Option<Bytes>) -> Option<&[u8]>
    ensures { option_copied result ≡ row.now }
{
    match row {
        Some(bytes) => Some(bytes.as_slice()),
        None => None,
    }
}

impl Record {
    /// This record, whose bytes are lent.
    pub fn lend(&self) -> LentRecord<'_>
        ensures { stands_for result ≡ self.now }
    {
        match self {
            Record::Write {
                transaction,
                table,
                key,
                before,
                after,
            } => LentRecord::Write {
                transaction: *transaction,
                table: *table,
                key: key.as_slice(),
                before: lent_row(before),
                after: lent_row(after),
            },
            Record::Delta {
                transaction,
                view,
                group,
                count,
                sums,
            } => LentRecord::Delta {
                transaction: *transaction,
                view: *view,
                group: group.as_slice(),
                count: *count,
                sums: sums.as_slice(),
            },
            Record::Ghost { view, group } => LentRecord::Ghost {
                view: *view,
                group: group.as_slice(),
            },
            Record::Clean { view, group } => LentRecord::Clean {
                view: *view,
                group: group.as_slice(),
            },
            Record::Undo {
                transaction,
                number,
            } => LentRecord::Undo {
                transaction: *transaction,
                number: *number,
            },
            Record::Commit {
                transaction,
                commit,
                session,
            } => LentRecord::Commit {
                transaction: *transaction,
                commit: *commit,
                session: *session,
            },
            Record::Abort { transaction } => LentRecord::Abort {
                transaction: *transaction,
            },
            Record::Schema {
                commit,
                session,
                text,
            } => LentRecord::Schema {
                commit: *commit,
                session: *session,
                text: text.as_slice(),
            },
        }
    }
}

/// A record as it was read: where its first byte stands, where the byte after it stands, both counted from 0, and its
/// number.
#[derive(Drop)]
pub struct Scanned {
    pub place: u64,
    pub end: u64,
    pub number: u64,
    pub entry: Record,
}

/// A list of records that were read.
pub type RecordList = Sequence<Scanned>;
