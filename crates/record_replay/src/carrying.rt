//! Carried records.
ghost use Rattle.std.specs.Prelude.{◌≡◌, ◌≤◌, ◌∷◌, List, IfOk, OnOk};
ghost use Rattle.iv_meaning.specs.Objects.{schema_of};
ghost use Rattle.txn_log.specs.Replay.{Deed, Pages};
ghost use Rattle.txn_log.specs.Fitting.{IsKnown};
ghost use Rattle.txn_log.specs.Refused.{Placed, most_number};
ghost use Rattle.live_records.specs.Live.{what_of, deed_of};
ghost use Rattle.record_replay.specs.Past.{carrying, Comes, IsReadable};
ghost use Rattle.record_replay.specs.Standing.{HasReplayed};
ghost use Rattle.record_replay.specs.Telling.{IsRecordOf, TellsCarried};
ghost use Rattle.record_replay.specs.declared.answer.Replayed.TheVariants.{Passed};

use crate::answer::{Head, Replayed, misfit};
use crate::changing::set_carried;
use crate::reading::read_live;
use crate::replay::Replay;
use iv_types::{NoMemory, SortedMaps};
use live_records::LiveRecord;
use log_records::Record;

impl<M: SortedMaps> Replay<M> {
    // Has the transaction of a carried record keep it.
    fn carry_live(&mut self, own: LiveRecord) -> Result<(), NoMemory>
        requires replayed { (p : Pages) × (first : List Placed) × (ds : List Deed) × HasReplayed M.maps M.limit self.old (carrying p first ds) }
        requires known { IsKnown (schema_of self.old.store.catalog) (what_of own.change) }
        requires number { (self.old.next ≤ own.number) × (own.number ≤ most_number) }
        ensures told { OnOk result ((p : Pages) (first : List Placed) (ds : List Deed) → HasReplayed M.maps M.limit self.old (carrying p first ds)
            → (r : Placed) → IsRecordOf r own → HasReplayed M.maps M.limit self.new (carrying p (r ∷ first) (deed_of own ∷ ds))) }
        ensures texts { OnOk result (M.maps self.new.store.tables 0 ≡ M.maps self.old.store.tables 0) }
        ensures commits { self.new.commits ≡ self.old.commits }
        ensures rest { self.new.store ≡ record self.old.store { catalog = self.new.store.catalog; tables = self.new.store.tables; views = self.new.store.views } }
    {
        set_carried(&mut self.store, &own.change)?;
        self.next = own.number + 1;
        self.live.keep(own)
    }

    /// Replays a carried record, which comes behind other carried ones alone: the row of a Write is set, whatever stands there, and
    /// its transaction keeps it. A record that is neither Write nor Delta, one that does not fit its table or view, and one whose
    /// number does not rise or is above 2^62, fail rule 13.
    ///
    /// # Errors
    ///
    /// Where there is no memory for it. What stands there is not told then, nor where a rule fails.
    pub fn carry(&mut self, head: Head, entry: &Record) -> Result<Replayed, NoMemory>
        requires { (p : Pages) × (first : List Placed) × (ds : List Deed) × HasReplayed M.maps M.limit self.old (carrying p first ds) }
        ensures told { IfOk result (λ answer. (p : Pages) (first : List Placed) (ds : List Deed) → HasReplayed M.maps M.limit self.old (carrying p first ds)
            → (r : Placed) → Comes p.db.schema head entry.now r → TellsCarried M.maps M.limit self.new p first ds r answer) }
        ensures reads { IfOk result (λ answer. answer ≡ Passed → IsReadable (schema_of self.old.store.catalog) entry.now) }
        ensures texts { OnOk result (M.maps self.new.store.tables 0 ≡ M.maps self.old.store.tables 0) }
        ensures commits { self.new.commits ≡ self.old.commits }
        ensures rest { self.new.store ≡ record self.old.store { catalog = self.new.store.catalog; tables = self.new.store.tables; views = self.new.store.views } }
    {
        if !self.may_come(head.number) {
            return Ok(misfit(head.place));
        }
        match read_live(self.store.alloc, &self.store.catalog, head, entry)? {
            Some(own) => {
                self.carry_live(own)?;
                Ok(Replayed::Passed)
            }
            None => Ok(misfit(head.place)),
        }
    }
}
