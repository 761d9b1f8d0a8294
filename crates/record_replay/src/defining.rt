//! Definitions.
ghost use Rattle.std.specs.Prelude.{◌≡◌, ◌+◌, ◌≤◌, ℕ, false, IfOk, OnOk};
ghost use Rattle.iv_types.specs.Maps.{map_size};
ghost use Rattle.txn_machine.specs.Log.{definition_entries};
ghost use Rattle.txn_log.specs.Replay.{Pages};
ghost use Rattle.txn_log.specs.Refused.{Placed, most_number};
ghost use Rattle.log_records.specs.declared.record.Record.TheVariants.{Schema};
ghost use Rattle.record_replay.specs.Past.{Past, left_by, Comes};
ghost use Rattle.record_replay.specs.Standing.{Has, HasReplayed};
ghost use Rattle.record_replay.specs.Telling.{Defines, Tells};

use crate::answer::{Head, Replayed, misfit};
use crate::replay::Replay;
use data_store::DataStore;
use definition_replay::replay_definition;
use image_catalog::put_next_text;
use iv_types::{NoMemory, SortedMaps};

// Defines the object that a text makes, if it is accepted beside what stands there, and puts the text behind those before it. Answers
// whether it is.
fn define_text<M: SortedMaps>(store: &mut DataStore<M>, text: &[u8]) -> Result<bool, NoMemory>
    requires has { (p : Pages) × Has M.maps M.limit store.old p }
    ensures told { IfOk result (λ defines. (p : Pages) → Has M.maps M.limit store.old p → Defines M.maps M.limit store.new p text.now defines) }
    ensures texts { OnOk result (map_size (M.maps store.new.tables 0) ≤ map_size (M.maps store.old.tables 0) + definition_entries text.now) }
    ensures untouched { IfOk result (λ defines. defines ≡ false → store.new ≡ store.old) }
    ensures rest { store.new ≡ record store.old { catalog = store.new.catalog; tables = store.new.tables } }
{
    let number = store.catalog.next_number();
    if !replay_definition(store, text)? {
        return Ok(false);
    }
    put_next_text(store.alloc, store.tables.maps_mut(), number, text)?;
    Ok(true)
}

impl<M: SortedMaps> Replay<M> {
    /// Replays a definition.
    ///
    /// # Errors
    ///
    /// Where there is no memory for it.
    pub(crate) fn define(
        &mut self,
        head: Head,
        commit: u64,
        text: &[u8],
    ) -> Result<Replayed, NoMemory>
        requires replayed { (x : Past) × HasReplayed M.maps M.limit self.old x }
        requires number { (self.old.next ≤ head.number) × (head.number ≤ most_number) }
        ensures told { IfOk result (λ answer. (session : ℕ) (x : Past) → HasReplayed M.maps M.limit self.old x → (r : Placed) → Comes (left_by x).db.schema head (Schema commit session text.now) r → Tells M.maps M.limit self.new x r answer) }
        ensures texts { OnOk result (map_size (M.maps self.new.store.tables 0) ≤ map_size (M.maps self.old.store.tables 0) + definition_entries text.now) }
        ensures commits { self.new.commits ≤ self.old.commits + 1 }
        ensures rest { self.new.store ≡ record self.old.store { catalog = self.new.store.catalog; tables = self.new.store.tables; views = self.new.store.views } }
    {
        if !self.is_next(commit) {
            return Ok(misfit(head.place));
        }
        if !define_text(&mut self.store, text)? {
            return Ok(misfit(head.place));
        }
        self.commits = commit;
        self.next = head.number + 1;
        Ok(Replayed::Passed)
    }
}
