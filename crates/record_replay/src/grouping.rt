//! Ghosts and Cleans.
ghost use Rattle.std.specs.Prelude.{◌≡◌, ◌≤◌, IfOk, OnOk};
ghost use Rattle.txn_log.specs.Refused.{Placed, most_number};
ghost use Rattle.log_records.specs.declared.record.Record.TheVariants.{Ghost, Clean};
ghost use Rattle.record_replay.specs.Past.{Past, left_by, Comes};
ghost use Rattle.record_replay.specs.Standing.{HasReplayed};
ghost use Rattle.record_replay.specs.Telling.{Tells};

use crate::answer::{Head, Replayed, misfit};
use crate::replay::Replay;
use group_replay::{make_row, remove_row};
use iv_types::{NoMemory, SortedMaps};
use record_reading::read_group;

impl<M: SortedMaps> Replay<M> {
    /// Replays a Ghost.
    ///
    /// # Errors
    ///
    /// Where there is no memory for it.
    pub(crate) fn ghost_made(
        &mut self,
        head: Head,
        view: u32,
        group: &[u8],
    ) -> Result<Replayed, NoMemory>
        requires replayed { (x : Past) × HasReplayed M.maps M.limit self.old x }
        requires number { (self.old.next ≤ head.number) × (head.number ≤ most_number) }
        ensures told { IfOk result (λ answer. (x : Past) → HasReplayed M.maps M.limit self.old x → (r : Placed) → Comes (left_by x).db.schema head (Ghost view group.now) r → Tells M.maps M.limit self.new x r answer) }
        ensures texts { OnOk result (M.maps self.new.store.tables 0 ≡ M.maps self.old.store.tables 0) }
        ensures commits { self.new.commits ≡ self.old.commits }
        ensures rest { self.new.store ≡ record self.old.store { catalog = self.new.store.catalog; tables = self.new.store.tables; views = self.new.store.views } }
    {
        let sums = match read_group(self.store.alloc, &self.store.catalog, view, group)? {
            Some(sums) => sums,
            None => return Ok(misfit(head.place)),
        };
        if !make_row(&mut self.store, view, group, sums)? {
            return Ok(misfit(head.place));
        }
        self.next = head.number + 1;
        Ok(Replayed::Passed)
    }

    /// Replays a Clean.
    ///
    /// # Errors
    ///
    /// Where there is no memory for it.
    pub(crate) fn group_cleaned(
        &mut self,
        head: Head,
        view: u32,
        group: &[u8],
    ) -> Result<Replayed, NoMemory>
        requires replayed { (x : Past) × HasReplayed M.maps M.limit self.old x }
        requires number { (self.old.next ≤ head.number) × (head.number ≤ most_number) }
        ensures told { IfOk result (λ answer. (x : Past) → HasReplayed M.maps M.limit self.old x → (r : Placed) → Comes (left_by x).db.schema head (Clean view group.now) r → Tells M.maps M.limit self.new x r answer) }
        ensures texts { OnOk result (M.maps self.new.store.tables 0 ≡ M.maps self.old.store.tables 0) }
        ensures commits { self.new.commits ≡ self.old.commits }
        ensures rest { self.new.store ≡ record self.old.store { catalog = self.new.store.catalog; tables = self.new.store.tables; views = self.new.store.views } }
    {
        if read_group(self.store.alloc, &self.store.catalog, view, group)?.is_none() {
            return Ok(misfit(head.place));
        }
        if !remove_row(&mut self.store, view, group) {
            return Ok(misfit(head.place));
        }
        self.next = head.number + 1;
        Ok(Replayed::Passed)
    }
}
