//! Steps and answers.
use iv_types::{
    Bytes, Catalog, DeltaList, EngineRefusal, Interval, LockMode, Mode, Refusal, Row, RowList,
    Sessions, Statement,
};
use std::mem::drop;

/// What a session asks of an engine: the atomic step.
#[derive(Drop)]
pub struct Step {
    /// From 1 to 64, or 0 for the engine's own steps.
    pub session: u32,
    pub act: Act,
}

impl Step {
    /// Lets a step go. Its drop is proved here, so that no crate above proves it again.
    pub fn let_go(self) {
        self.act.let_go();
    }
}

/// What a step is to do.
#[derive(Drop)]
pub enum Act {
    /// Opens a transaction.
    Begin(Mode),
    /// Gives a copy of the catalog.
    Defs,
    /// Locks an interval of an index and gives its rows, in the order of the index's keys.
    Fetch {
        index: u32,
        interval: Interval,
        mode: LockMode,
    },
    /// Reads an interval as of a snapshot's number.
    Peek {
        index: u32,
        interval: Interval,
    },
    /// Sets the row, or none, under a key of a table.
    Put {
        table: u32,
        key: Bytes,
        new: Option<Row>,
    },
    /// Adds the first owed delta to its view row.
    Pay,
    /// Makes that row, if it is absent.
    Ghost,
    /// Takes the latest kept Put or Pay back.
    UndoOne,
    /// Ends the session's transaction, which keeps no change, without a commit.
    End,
    /// Commits the session's transaction.
    Commit,
    /// Runs one CREATE statement as a transaction of its own.
    Schema(Statement),
    /// Removes a ghost.
    Clean,
    /// Drops the versions that no open snapshot can need.
    Prune,
    /// Writes what is stored to the disk's pages, with the records of open transactions.
    Checkpoint,
    /// Forgets what the session waits for.
    Cancel,
}

impl Act {
    /// Lets an act go, as a step. `drop` is proved for all types, where the end of a scope would have the whole drop proved
    /// here.
    pub fn let_go(self) {
        drop(self);
    }
}

/// What a step is answered.
#[derive(Drop)]
pub enum Answer {
    /// A transaction is open, with the greatest commit number and the number of definitions.
    Begun {
        number: u64,
        defs: u32,
    },
    Defs(Catalog),
    Rows(RowList),
    /// The row that was there, and the deltas that the change owes.
    Changed {
        before: Option<Row>,
        owed: DeltaList,
    },
    /// So many deltas are still owed.
    Paid {
        left: u32,
    },
    /// The row of the first owed delta is absent.
    NeedsGhost,
    Ghosted,
    /// So many kept steps are left.
    Undone {
        left: u32,
    },
    /// The transaction has ended without a commit.
    Ended,
    /// The transaction is committed, and this is its number; where it kept no change, the greatest number, or of a
    /// snapshot its own.
    Committed(u64),
    /// So many ghosts were removed.
    Cleaned(u32),
    Pruned,
    /// With the greatest commit number.
    Saved(u64),
    Cancelled,
    /// The step waits for these sessions, and did nothing.
    Blocked(Sessions),
    /// The engine refuses the step.
    Refused(EngineRefusal),
    /// The statement's meaning is a refusal.
    Denied(Refusal),
}

impl Answer {
    /// Lets an answer go, as a step.
    pub fn let_go(self) {
        drop(self);
    }
}

/// The last refusal of a session's steps, and the number of that step, counted from 1.
#[derive(Clone, Copy)]
pub struct LastRefusal {
    pub step: u64,
    pub refusal: EngineRefusal,
}
