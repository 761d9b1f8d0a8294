//! Numbers of records and of commits.
ghost use Rattle.std.specs.Prelude.{◌≡◌, ◌↔◌, ◌+◌, ◌≤◌, IsTrue};
ghost use Rattle.txn_log.specs.Refused.{most_number};

use crate::replay::Replay;
use iv_types::SortedMaps;

// The greatest number that a record may have.
const MOST_NUMBER: u64 = 1 << 62;

impl<M: SortedMaps> Replay<M> {
    /// Whether a record of this number may come next.
    pub(crate) fn may_come(&self, number: u64) -> bool
        ensures { IsTrue result ↔ ((self.now.next ≤ number) × (number ≤ most_number)) }
    {
        self.next <= number && number <= MOST_NUMBER
    }

    /// Whether a commit number is the next.
    pub(crate) fn is_next(&self, commit: u64) -> bool
        ensures { IsTrue result ↔ (commit ≡ self.now.commits + 1) }
    {
        commit != 0 && commit - 1 == self.commits
    }
}
