//! Undos.
ghost use Rattle.std.specs.Prelude.{◌≡◌, ◌≤◌, None, IfOk, OnOk};
ghost use Rattle.iv_meaning.specs.Objects.{schema_of};
ghost use Rattle.txn_log.specs.Replay.{Stored};
ghost use Rattle.txn_log.specs.Fitting.{IsKnown};
ghost use Rattle.txn_log.specs.Refused.{Placed, most_number};
ghost use Rattle.log_records.specs.declared.record.Record.TheVariants.{Undo};
ghost use Rattle.live_records.specs.declared.record.LiveRecord.{LiveRecord};
ghost use Rattle.live_records.specs.Live.{what_of, SetsOne, IsLatest};
ghost use Rattle.record_replay.specs.Past.{Past, left_by, pages_in, Comes};
ghost use Rattle.record_replay.specs.Standing.{Has, HasReplayed};
ghost use Rattle.record_replay.specs.Telling.{TellsBack, Tells};

use crate::answer::{Head, Replayed, Tried, misfit, out_of_range};
use crate::changing::take_back;
use crate::replay::Replay;
use data_store::DataStore;
use iv_types::{NoMemory, SortedMaps};
use live_records::{LiveRecord, LiveRecords};

/// Takes back what a record says, if that fits what stands there. Where it does not, the place is that of this record.
///
/// # Errors
///
/// Where there is no memory for it. What the store has is not told then.
pub(crate) fn reverse<M: SortedMaps>(
    store: &mut DataStore<M>,
    own: &LiveRecord,
) -> Result<Replayed, NoMemory>
    requires has { (s : Stored) × Has M.maps M.limit store.old (pages_in s) }
    requires known { IsKnown (schema_of store.old.catalog) (what_of own.now.change) }
    ensures told { IfOk result (λ answer. (s : Stored) → Has M.maps M.limit store.old (pages_in s) → TellsBack M.maps M.limit store.new own.now s answer) }
    ensures texts { OnOk result (M.maps store.new.tables 0 ≡ M.maps store.old.tables 0) }
    ensures rest { store.new ≡ record store.old { tables = store.new.tables; views = store.new.views } }
{
    match take_back(store, &own.change)? {
        Tried::Done => Ok(Replayed::Passed),
        Tried::Misfit => Ok(misfit(own.place)),
        Tried::OutOfRange => Ok(out_of_range(own.place)),
    }
}

// Lets the latest record go that a transaction keeps.
fn drop_latest(live: &mut LiveRecords, transaction: u64)
    requires { (q : LiveRecord) × IsLatest live.old transaction q }
    ensures dropped { (q : LiveRecord) → IsLatest live.old transaction q → SetsOne live.old transaction q.number None live.new }
    ensures ended { live.new.ended ≡ live.old.ended }
{
    if let Some(own) = live.take_latest(transaction) {
        own.let_go();
    }
}

impl<M: SortedMaps> Replay<M> {
    /// Replays an Undo.
    ///
    /// # Errors
    ///
    /// Where there is no memory for it.
    pub(crate) fn undo(
        &mut self,
        head: Head,
        transaction: u64,
        number: u64,
    ) -> Result<Replayed, NoMemory>
        requires replayed { (x : Past) × HasReplayed M.maps M.limit self.old x }
        requires number { (self.old.next ≤ head.number) × (head.number ≤ most_number) }
        ensures told { IfOk result (λ answer. (x : Past) → HasReplayed M.maps M.limit self.old x → (r : Placed) → Comes (left_by x).db.schema head (Undo transaction number) r → Tells M.maps M.limit self.new x r answer) }
        ensures texts { OnOk result (M.maps self.new.store.tables 0 ≡ M.maps self.old.store.tables 0) }
        ensures commits { self.new.commits ≡ self.old.commits }
        ensures rest { self.new.store ≡ record self.old.store { catalog = self.new.store.catalog; tables = self.new.store.tables; views = self.new.store.views } }
    {
        let Some(latest) = self.live.latest(transaction) else {
            return Ok(misfit(head.place));
        };
        if latest.number != number {
            return Ok(misfit(head.place));
        }
        match reverse(&mut self.store, latest)? {
            Replayed::Passed => {
                drop_latest(&mut self.live, transaction);
                self.next = head.number + 1;
                Ok(Replayed::Passed)
            }
            broken => Ok(broken),
        }
    }
}
