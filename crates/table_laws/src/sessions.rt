//! Laws of a stored table in which several sessions made changes that they keep, and of the base below those changes.
ghost use Rattle.table_laws.specs.Laws.{AtFirstLaw, MadeAgainLaw, OwnRowLaw, SeveralOwnersLaw};
ghost use Rattle.table_laws.specs.Laws.{StoredCommitLaw, StoredRollBackLaw, StoredTotalLaw, StoredUndoLaw, StoredWriteLaw};

/// The kept changes of all sessions taken back from the stored table, in any order of the sessions, leave the base.
pub fn several_owners_law<K, X>()
    ensures { SeveralOwnersLaw K X }
{}

/// The kept changes of all sessions made again to the base, in any order of the sessions, give the stored table.
pub fn made_again_law<K, X>()
    ensures { MadeAgainLaw K X }
{}

/// A sum over the stored table is that over the base and what the kept changes of each session are worth.
pub fn stored_total_law<K, X>()
    ensures { StoredTotalLaw K X }
{}

/// Before any change the stored table is the base.
pub fn at_first_law<K, X>()
    ensures { AtFirstLaw K X }
{}

/// A session may change a row that no other session changed.
pub fn stored_write_law<K, X>()
    ensures { StoredWriteLaw K X }
{}

/// A session may take back its latest change.
pub fn stored_undo_law<K, X>()
    ensures { StoredUndoLaw K X }
{}

/// A session may commit: its changes are made to the base.
pub fn stored_commit_law<K, X>()
    ensures { StoredCommitLaw K X }
{}

/// A session may roll back: its changes are taken back from the stored table.
pub fn stored_roll_back_law<K, X>()
    ensures { StoredRollBackLaw K X }
{}

/// A session reads, where no other session made a change, what its own changes leave there of the base.
pub fn own_row_law<K, X>()
    ensures { OwnRowLaw K X }
{}
