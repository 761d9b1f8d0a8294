//! What is left at the end, taken back.
ghost use Rattle.std.specs.Prelude.{◌≡◌, ◌++◌, List, IfOk, OnOk};
ghost use Rattle.iv_meaning.specs.Objects.{schema_of};
ghost use Rattle.txn_log.specs.Replay.{Stored};
ghost use Rattle.txn_log.specs.Fitting.{IsKnown};
ghost use Rattle.txn_log.specs.Refused.{Placed};
ghost use Rattle.live_records.specs.Live.{what_of};
ghost use Rattle.record_replay.specs.Past.{Past, left_by, pages_in};
ghost use Rattle.record_replay.specs.Standing.{Has, HasReplayed};
ghost use Rattle.record_replay.specs.Reversing.{CanReverse};
ghost use Rattle.record_replay.specs.Telling.{TellsBack, TellsReversed};

use crate::answer::Replayed;
use crate::replay::Replay;
use crate::undoing::reverse;
use data_store::DataStore;
use iv_types::{NoMemory, SortedMaps};
use live_records::{LiveRecord, LiveRecords, OrderedRecords};
use std::mem;

// Takes back what a record says, and lets it go.
fn reverse_one<M: SortedMaps>(
    store: &mut DataStore<M>,
    own: LiveRecord,
) -> Result<Replayed, NoMemory>
    requires has { (s : Stored) × Has M.maps M.limit store.old (pages_in s) }
    requires known { IsKnown (schema_of store.old.catalog) (what_of own.change) }
    ensures told { IfOk result (λ answer. (s : Stored) → Has M.maps M.limit store.old (pages_in s) → TellsBack M.maps M.limit store.new own s answer) }
    ensures texts { OnOk result (M.maps store.new.tables 0 ≡ M.maps store.old.tables 0) }
    ensures rest { store.new ≡ record store.old { tables = store.new.tables; views = store.new.views } }
{
    let answer = reverse(store, &own)?;
    own.let_go();
    Ok(answer)
}

// Takes back these records, the latest first.
fn reverse_each<M: SortedMaps>(
    store: &mut DataStore<M>,
    left: &mut OrderedRecords,
) -> Result<Replayed, NoMemory>
    requires { (rs : List Placed) × (s : Stored) × CanReverse M.maps M.limit store.old left.old rs s }
    ensures told { IfOk result (λ answer. (rs : List Placed) (s : Stored) → CanReverse M.maps M.limit store.old left.old rs s → TellsReversed M.maps M.limit store.new rs s answer) }
    ensures texts { OnOk result (M.maps store.new.tables 0 ≡ M.maps store.old.tables 0) }
    ensures rest { store.new ≡ record store.old { tables = store.new.tables; views = store.new.views } }
{
    while let Some(own) = left.pop() {
        let answer = reverse_one(store, own)?;
        if answer != Replayed::Passed {
            return Ok(answer);
        }
    }
    Ok(Replayed::Passed)
}

impl<M: SortedMaps> Replay<M> {
    /// Takes back what transactions keep that have not ended, the latest record first. The first one that can't be taken back fails
    /// rule 13, or rule 14 if by it a number leaves the HUGE range, at that record's place. Then the store has what was committed.
    ///
    /// # Errors
    ///
    /// Where there is no memory for it. What the store has is not told then, nor where a rule fails.
    pub fn reverse(&mut self) -> Result<Replayed, NoMemory>
        requires { (x : Past) × HasReplayed M.maps M.limit self.old x }
        ensures told { IfOk result (λ answer. (x : Past) → HasReplayed M.maps M.limit self.old x → TellsReversed M.maps M.limit self.new.store (x.after ++ x.first) (left_by x) answer) }
        ensures texts { OnOk result (M.maps self.new.store.tables 0 ≡ M.maps self.old.store.tables 0) }
        ensures rest { self.new.store ≡ record self.old.store { catalog = self.new.store.catalog; tables = self.new.store.tables; views = self.new.store.views } }
        ensures commits { self.new.commits ≡ self.old.commits }
        ensures next { self.new.next ≡ self.old.next }
    {
        let live = mem::replace(&mut self.live, LiveRecords::new(self.store.alloc));
        let mut left = live.into_order()?;
        reverse_each(&mut self.store, &mut left)
    }
}
