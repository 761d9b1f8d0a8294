//! Writes and Deltas.
ghost use Rattle.std.specs.Prelude.{◌≡◌, ◌<◌, ◌≤◌, false, IfOk, OnOk};
ghost use Rattle.iv_meaning.specs.Objects.{schema_of};
ghost use Rattle.txn_log.specs.Fitting.{IsKnown};
ghost use Rattle.txn_log.specs.Refused.{Placed, most_number};
ghost use Rattle.log_records.specs.Spelling.{kind_of};
ghost use Rattle.live_records.specs.Live.{what_of, has_ended};
ghost use Rattle.record_replay.specs.Past.{Past, left_by, Comes, IsReadable};
ghost use Rattle.record_replay.specs.Standing.{HasReplayed};
ghost use Rattle.record_replay.specs.Telling.{IsRecordOf, Tells};
ghost use Rattle.record_replay.specs.declared.answer.Replayed.TheVariants.{Passed};

use crate::answer::{Head, Replayed, Tried, misfit, out_of_range};
use crate::changing::do_change;
use crate::reading::read_live;
use crate::replay::Replay;
use iv_types::{NoMemory, SortedMaps};
use live_records::LiveRecord;
use log_records::Record;

impl<M: SortedMaps> Replay<M> {
    // Does what a record says of a transaction that has not ended, if it fits what stands there, and has the transaction keep it.
    fn do_live(&mut self, own: LiveRecord) -> Result<Replayed, NoMemory>
        requires replayed { (x : Past) × HasReplayed M.maps M.limit self.old x }
        requires known { IsKnown (schema_of self.old.store.catalog) (what_of own.change) }
        requires number { (self.old.next ≤ own.number) × (own.number ≤ most_number) }
        requires lives { has_ended self.old.live own.transaction ≡ false }
        ensures told { IfOk result (λ answer. (x : Past) → HasReplayed M.maps M.limit self.old x → (r : Placed) → IsRecordOf r own → Tells M.maps M.limit self.new x r answer) }
        ensures texts { OnOk result (M.maps self.new.store.tables 0 ≡ M.maps self.old.store.tables 0) }
        ensures commits { self.new.commits ≡ self.old.commits }
        ensures rest { self.new.store ≡ record self.old.store { catalog = self.new.store.catalog; tables = self.new.store.tables; views = self.new.store.views } }
    {
        let place = own.place;
        match do_change(&mut self.store, &own.change)? {
            Tried::Done => {
                self.next = own.number + 1;
                self.live.keep(own)?;
                Ok(Replayed::Passed)
            }
            Tried::Misfit => {
                own.let_go();
                Ok(misfit(place))
            }
            Tried::OutOfRange => {
                own.let_go();
                Ok(out_of_range(place))
            }
        }
    }

    // Does what a record says, if its transaction has not ended and it fits what stands there.
    fn keep_live(&mut self, own: LiveRecord) -> Result<Replayed, NoMemory>
        requires replayed { (x : Past) × HasReplayed M.maps M.limit self.old x }
        requires known { IsKnown (schema_of self.old.store.catalog) (what_of own.change) }
        requires number { (self.old.next ≤ own.number) × (own.number ≤ most_number) }
        ensures told { IfOk result (λ answer. (x : Past) → HasReplayed M.maps M.limit self.old x → (r : Placed) → IsRecordOf r own → Tells M.maps M.limit self.new x r answer) }
        ensures texts { OnOk result (M.maps self.new.store.tables 0 ≡ M.maps self.old.store.tables 0) }
        ensures commits { self.new.commits ≡ self.old.commits }
        ensures rest { self.new.store ≡ record self.old.store { catalog = self.new.store.catalog; tables = self.new.store.tables; views = self.new.store.views } }
    {
        if self.live.has_ended(own.transaction) {
            let place = own.place;
            own.let_go();
            return Ok(misfit(place));
        }
        self.do_live(own)
    }

    /// Replays a Write or a Delta.
    ///
    /// # Errors
    ///
    /// Where there is no memory for it.
    pub(crate) fn keep(&mut self, head: Head, entry: &Record) -> Result<Replayed, NoMemory>
        requires replayed { (x : Past) × HasReplayed M.maps M.limit self.old x }
        requires number { (self.old.next ≤ head.number) × (head.number ≤ most_number) }
        requires kind { kind_of entry.now < 3 }
        ensures told { IfOk result (λ answer. (x : Past) → HasReplayed M.maps M.limit self.old x → (r : Placed) → Comes (left_by x).db.schema head entry.now r → Tells M.maps M.limit self.new x r answer) }
        ensures reads { IfOk result (λ answer. answer ≡ Passed → IsReadable (schema_of self.old.store.catalog) entry.now) }
        ensures texts { OnOk result (M.maps self.new.store.tables 0 ≡ M.maps self.old.store.tables 0) }
        ensures commits { self.new.commits ≡ self.old.commits }
        ensures rest { self.new.store ≡ record self.old.store { catalog = self.new.store.catalog; tables = self.new.store.tables; views = self.new.store.views } }
    {
        match read_live(self.store.alloc, &self.store.catalog, head, entry)? {
            Some(own) => self.keep_live(own),
            None => Ok(misfit(head.place)),
        }
    }
}
