//! Laws of the machine over every list of steps. Each function is there for its contract.
ghost use Rattle.txn_machine.specs.Laws.{AbsentLaw, BoundsLaw, CommittedLaw, LocksLaw, ShareLaw, SoundLaw, StoredLaw};
ghost use Rattle.txn_machine.specs.Laws.{AnySubsetLaw, BlockedLaw, CanCommitLaw, CommitLaw, DeadlockLaw, EmptyLaw, FetchLaw, FrameLaw, GhostedLaw, InRangeLaw, MarkLaw, PartLaw, PeekLaw, PruneLaw, RepliesLaw, RollBackLaw, RowsAtLaw, SnapshotLaw, SnapshotReadableLaw, SnapshotRepliesLaw, WaitsLaw};

/// There is a database to begin from: one that defines nothing.
pub fn empty_law()
    ensures { EmptyLaw }
{}

/// The stored rows with what is kept taken back are what was opened and then committed.
pub fn committed_law()
    ensures { CommittedLaw }
{}

/// What is committed is sound, and it is with the changes of any sessions.
pub fn sound_law()
    ensures { SoundLaw }
{}

/// A stored view row is what is committed, evaluated afresh, and what open transactions paid.
pub fn stored_law()
    ensures { StoredLaw }
{}

/// Where no row is stored, no combination is committed and no pay is kept.
pub fn absent_law()
    ensures { AbsentLaw }
{}

/// What a transaction paid and owes is what its changes make of the view.
pub fn share_law()
    ensures { ShareLaw }
{}

/// The escrow bounds of each column lie in its range.
pub fn bounds_law()
    ensures { BoundsLaw }
{}

/// The numbers of views are in range, in what is committed and for a session that owes nothing.
pub fn in_range_law()
    ensures { InRangeLaw }
{}

/// No two sessions hold locks that conflict.
pub fn locks_law()
    ensures { LocksLaw }
{}

/// Recorded waits have no cycle: a grant closes none, and a wait is recorded only where it closes none.
pub fn waits_law()
    ensures { WaitsLaw }
{}

/// A ghost that is asked for is stored, and stays so while an Increment lock is held on it, so that its pay needs none again.
pub fn ghosted_law()
    ensures { GhostedLaw }
{}

/// What a Fetch answers is what its interval has in the committed database with the session's own changes.
pub fn fetch_law()
    ensures { FetchLaw }
{}

/// A step leaves what another session's open transaction may read by its locks.
pub fn frame_law()
    ensures { FrameLaw }
{}

/// A step leaves the part of every other session, and the schema that an open transaction sees.
pub fn part_law()
    ensures { PartLaw }
{}

/// A serial transaction is told what it would be told alone on the database that is committed then.
pub fn replies_law()
    ensures { RepliesLaw }
{}

/// A snapshot is told what it would be told alone on the database at its number.
pub fn snapshot_replies_law()
    ensures { SnapshotRepliesLaw }
{}

/// A commit is the entry of its number.
pub fn commit_law()
    ensures { CommitLaw }
{}

/// Any open transactions that owe nothing could commit at once.
pub fn any_subset_law()
    ensures { AnySubsetLaw }
{}

/// Nothing is dropped that an open snapshot can need.
pub fn mark_law()
    ensures { MarkLaw }
{}

/// What versions are needed from the mark on is kept.
pub fn prune_law()
    ensures { PruneLaw }
{}

/// A view row at a snapshot's number is today's less what is pending and what came later.
pub fn snapshot_law()
    ensures { SnapshotLaw }
{}

/// The rows at a number are those of today with later changes taken back.
pub fn rows_at_law()
    ensures { RowsAtLaw }
{}

/// At each number from the opened database's up to what is committed, and so at an open snapshot's, the views' numbers are in range.
pub fn snapshot_readable_law()
    ensures { SnapshotReadableLaw }
{}

/// What a Peek is answered is what is read of the meaning at its snapshot's number, and it can always be answered so.
pub fn peek_law()
    ensures { PeekLaw }
{}

/// Where a step is blocked it is answered so, unless memory is wanting.
pub fn blocked_law()
    ensures { BlockedLaw }
{}

/// Where a wait would close a cycle the step is answered so, unless memory is wanting.
pub fn deadlock_law()
    ensures { DeadlockLaw }
{}

/// What a transaction keeps can always be taken back, and then it can end.
pub fn roll_back_law()
    ensures { RollBackLaw }
{}

/// A transaction that owes nothing can always commit.
pub fn can_commit_law()
    ensures { CanCommitLaw }
{}
