//! Runs that the machine allows, and answers that it does not.
ghost use Rattle.txn_machine.specs.Example.{DiskFails, FullMisses, LogFillsUp, BothCommit, DeletedComesBack, InsertRuns, LaterMisses, MissesAtFirst, OneRollsBack, RingIsRefused, ShopOpened, SnapshotIsKept, UndoIsCovered};

/// The example's database is one to begin from, so that the laws hold of its runs.
pub fn shop_opened()
    ensures { ShopOpened }
{}

/// An insert that makes a new group of a view, step by step.
pub fn insert_runs()
    ensures { InsertRuns }
{}

/// Two open inserts into one group: both commit, and the view has both.
pub fn both_commit()
    ensures { BothCommit }
{}

/// One of them commits and the other is taken back: the view has what was committed.
pub fn one_rolls_back()
    ensures { OneRollsBack }
{}

/// The only sale of a shop is deleted, and comes back as that is taken back.
pub fn deleted_comes_back()
    ensures { DeletedComesBack }
{}

/// Bounds cover what undo passes through: an insert is refused that a deletion taken back would leave no room for.
pub fn undo_is_covered()
    ensures { UndoIsCovered }
{}

/// Two readers that insert for each other: one waits, and the other is refused.
pub fn ring_is_refused()
    ensures { RingIsRefused }
{}

/// A snapshot reads what was committed as it began, and versions are kept for it until it ends.
pub fn snapshot_is_kept()
    ensures { SnapshotIsKept }
{}

/// Answers that the opened state refuses.
pub fn misses_at_first()
    ensures { MissesAtFirst }
{}

/// Answers that later states refuse.
pub fn later_misses()
    ensures { LaterMisses }
{}

/// A log area with room for one transaction: who begins, who is refused, and what a checkpoint leaves.
pub fn log_fills_up()
    ensures { LogFillsUp }
{}

/// A disk that fails a checkpoint stops the engine.
pub fn disk_fails()
    ensures { DiskFails }
{}

/// Answers that are refused while the log is full.
pub fn full_misses()
    ensures { FullMisses }
{}
