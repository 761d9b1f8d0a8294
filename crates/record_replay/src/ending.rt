//! Commits and Aborts.
ghost use Rattle.std.specs.Prelude.{◌≡◌, ◌+◌, ◌≤◌, ℕ, IfOk, OnOk};
ghost use Rattle.txn_log.specs.Refused.{Placed, most_number};
ghost use Rattle.log_records.specs.declared.record.Record.TheVariants.{Commit, Abort};
ghost use Rattle.record_replay.specs.Past.{Past, left_by, Comes};
ghost use Rattle.record_replay.specs.Standing.{HasReplayed};
ghost use Rattle.record_replay.specs.Telling.{Tells};

use crate::answer::{Head, Replayed, misfit};
use crate::replay::Replay;
use iv_types::{NoMemory, SortedMaps};

impl<M: SortedMaps> Replay<M> {
    /// Replays a Commit.
    ///
    /// # Errors
    ///
    /// Where there is no memory for it.
    pub(crate) fn commit(
        &mut self,
        head: Head,
        transaction: u64,
        commit: u64,
    ) -> Result<Replayed, NoMemory>
        requires replayed { (x : Past) × HasReplayed M.maps M.limit self.old x }
        requires number { (self.old.next ≤ head.number) × (head.number ≤ most_number) }
        ensures told { IfOk result (λ answer. (session : ℕ) (x : Past) → HasReplayed M.maps M.limit self.old x → (r : Placed) → Comes (left_by x).db.schema head (Commit transaction commit session) r → Tells M.maps M.limit self.new x r answer) }
        ensures texts { OnOk result (M.maps self.new.store.tables 0 ≡ M.maps self.old.store.tables 0) }
        ensures commits { self.new.commits ≤ self.old.commits + 1 }
        ensures rest { self.new.store ≡ record self.old.store { catalog = self.new.store.catalog; tables = self.new.store.tables; views = self.new.store.views } }
    {
        if self.live.has_ended(transaction) || !self.is_next(commit) {
            return Ok(misfit(head.place));
        }
        self.live.end(transaction)?;
        self.commits = commit;
        self.next = head.number + 1;
        Ok(Replayed::Passed)
    }

    /// Replays an Abort.
    ///
    /// # Errors
    ///
    /// Where there is no memory for it.
    pub(crate) fn abort(&mut self, head: Head, transaction: u64) -> Result<Replayed, NoMemory>
        requires replayed { (x : Past) × HasReplayed M.maps M.limit self.old x }
        requires number { (self.old.next ≤ head.number) × (head.number ≤ most_number) }
        ensures told { IfOk result (λ answer. (x : Past) → HasReplayed M.maps M.limit self.old x → (r : Placed) → Comes (left_by x).db.schema head (Abort transaction) r → Tells M.maps M.limit self.new x r answer) }
        ensures texts { OnOk result (M.maps self.new.store.tables 0 ≡ M.maps self.old.store.tables 0) }
        ensures commits { self.new.commits ≡ self.old.commits }
        ensures rest { self.new.store ≡ record self.old.store { catalog = self.new.store.catalog; tables = self.new.store.tables; views = self.new.store.views } }
    {
        if self.live.has_ended(transaction) {
            return Ok(misfit(head.place));
        }
        self.live.end(transaction)?;
        self.next = head.number + 1;
        Ok(Replayed::Passed)
    }
}
