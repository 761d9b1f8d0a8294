//! Why a statement or a line is refused.
ghost use Rattle.std.specs.Prelude.{◌≡◌};
ghost use Rattle.iv_types.specs.declared.refusal.Refusal.TheVariants as refusal;

use crate::fault::NoMemory as OutOfMemory;
use crate::{Bytes, Cycle, Limit, Row, ShapeRule};
use std::alloc::{AllocError, AllocFailed};
use thiserror::Error;

/// A refusal, with the values that its text names. Codes 1 to 15 depend on the statement, the session's mode and the
/// database alone; codes 20 to 29 are the engine's.
#[derive(Debug, Drop, Error)]
pub enum Refusal {
    /// Code 1: the text leaves the grammar at this byte, counted from 0.
    #[error("the text leaves the grammar")]
    Syntax(u64),
    /// Code 2: this name stands for no one object or column.
    #[error("a name is not known")]
    UnknownName(Bytes),
    /// Code 3: this new name is already used.
    #[error("a name is taken")]
    NameTaken(Bytes),
    /// Code 4: an expression's type is wrong.
    #[error("an expression has the wrong type")]
    WrongType,
    /// Code 5: this shape rule fails.
    #[error("the statement has the wrong shape")]
    WrongShape(ShapeRule),
    /// Code 6: a counted size passes this limit.
    #[error("a size passes its limit")]
    Limit(Limit),
    /// Code 7: this table has no index that begins with the columns by which a view joins it.
    #[error("a join view needs an index")]
    NeedsIndex(Bytes),
    /// Code 10: an inserted primary key is there.
    #[error("a row with this primary key is there")]
    DuplicateKey,
    /// Code 11: a value leaves its type, or a sum the HUGE range.
    #[error("a number is out of range")]
    NumberRange,
    /// Code 12: COMMIT, ROLLBACK, ROLLBACK TO or SAVEPOINT outside a transaction.
    #[error("no transaction is open")]
    NoTransaction,
    /// Code 13: BEGIN or a CREATE statement inside a transaction.
    #[error("a transaction is open")]
    InTransaction,
    /// Code 14: INSERT, UPDATE or DELETE inside a snapshot transaction.
    #[error("a snapshot is read only")]
    ReadOnly,
    /// Code 15: ROLLBACK TO names no live savepoint.
    #[error("a savepoint is not known")]
    UnknownSavepoint(Bytes),
    /// Code 20: recording this wait would close the given cycle.
    #[error("waiting would close a cycle")]
    Deadlock(Cycle),
    /// Code 21: the sum of a view's column could leave the HUGE range. The bounds are those before the delta.
    #[error("a sum could leave its range")]
    EscrowRange {
        view: Bytes,
        group: Row,
        column: Bytes,
        inf: i128,
        sup: i128,
    },
    /// Code 22: the log area is full, in bytes.
    #[error("the log is full")]
    LogFull {
        used: u64,
        reserved: u64,
        need: u64,
    },
    /// Code 23: the data is full, in bytes.
    #[error("the data is full")]
    DataFull {
        used: u64,
        need: u64,
    },
    /// Code 24: the transaction's notes are full, in bytes.
    #[error("the transaction is full")]
    TxnFull {
        kept: u64,
        need: u64,
    },
    /// Code 25: the history is full, in bytes.
    #[error("the history is full")]
    HistoryFull {
        kept: u64,
        need: u64,
    },
    /// Code 26: this session, the least such, has an open transaction or snapshot.
    #[error("a session has an open transaction")]
    SchemaBusy(u32),
    /// Code 27: the disk failed in this step.
    #[error("the disk failed")]
    DiskFault,
    /// Code 28: this step of this opening failed at the disk, or is the last step.
    #[error("the engine is stopped")]
    Stopped(u64),
    /// Code 29: there was no memory for the statement, which changed nothing.
    #[error("out of memory")]
    NoMemory,
    /// Code 40: the session still has an unfinished line.
    #[error("the session waits")]
    SessionWaiting,
    /// Code 41: the line is not UTF-8 or has none of the forms of a line.
    #[error("the line has none of the forms of a line")]
    BadLine,
    /// Code 42: the line is too long to be read.
    #[error("the line is too long")]
    LineTooLong,
}

impl From<OutOfMemory> for Refusal {
    ghost from_gives = { λ _ r. r ≡ refusal.NoMemory };

    fn from(_: OutOfMemory) -> Self {
        Refusal::NoMemory
    }
}

impl From<AllocError> for Refusal {
    ghost from_gives = { λ _ r. r ≡ refusal.NoMemory };

    fn from(_: AllocError) -> Self {
        Refusal::NoMemory
    }
}

impl<T: Drop> From<AllocFailed<T>> for Refusal {
    ghost from_gives = { λ _ r. r ≡ refusal.NoMemory };

    fn from(_: AllocFailed<T>) -> Self {
        Refusal::NoMemory
    }
}

/// A refusal of the engine, without lists.
#[derive(Clone, Copy, Debug, PartialEq, Eq, Error)]
pub enum EngineRefusal {
    /// Code 20.
    #[error("waiting would close a cycle")]
    Deadlock(Cycle),
    /// Code 21, of the column of this place in the view's row, the count being 0.
    #[error("a sum could leave its range")]
    Escrow { column: u32, inf: i128, sup: i128 },
    /// Code 22, in bytes.
    #[error("the log is full")]
    LogFull { used: u64, reserved: u64, need: u64 },
    /// Code 23, in bytes.
    #[error("the data is full")]
    DataFull { used: u64, need: u64 },
    /// Code 24, in bytes.
    #[error("the transaction is full")]
    TxnFull { kept: u64, need: u64 },
    /// Code 25, in bytes.
    #[error("the history is full")]
    HistoryFull { kept: u64, need: u64 },
    /// Code 26.
    #[error("a session has an open transaction")]
    SchemaBusy(u32),
    /// Code 27.
    #[error("the disk failed")]
    DiskFault,
    /// Code 28.
    #[error("the engine is stopped")]
    Stopped(u64),
    /// Code 29.
    #[error("out of memory")]
    NoMemory,
}

impl Refusal {
    /// Lets a refusal go. Its drop is proved here, so that no crate above proves it again.
    pub fn let_go(self) {
        let _ = self;
    }
}
