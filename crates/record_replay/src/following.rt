//! Records after the redo place.
ghost use Rattle.std.specs.Prelude.{◌≡◌, ◌+◌, ◌≤◌, IfOk, OnOk};
ghost use Rattle.iv_types.specs.Maps.{map_size};
ghost use Rattle.iv_meaning.specs.Objects.{schema_of};
ghost use Rattle.txn_log.specs.Refused.{Placed};
ghost use Rattle.record_replay.specs.Past.{Past, left_by, Comes, IsReadable};
ghost use Rattle.record_replay.specs.Standing.{HasReplayed};
ghost use Rattle.record_replay.specs.Texts.{text_entries};
ghost use Rattle.record_replay.specs.Telling.{Tells};
ghost use Rattle.record_replay.specs.declared.answer.Replayed.TheVariants.{Passed};

use crate::answer::{Head, Replayed, misfit};
use crate::replay::Replay;
use iv_types::{NoMemory, SortedMaps};
use log_records::Record;

impl<M: SortedMaps> Replay<M> {
    /// Replays a record after the redo place. One that does not fit what stands there fails rule 13, one by which a number leaves
    /// the HUGE range rule 14, each at its own place, but an Undo that can't be done at that of the record that it names.
    ///
    /// # Errors
    ///
    /// Where there is no memory for it. What stands there is not told then, nor where a rule fails.
    #[tactic(auto, using(crate::proofs::Texts::same_counts))]
    pub fn follow(&mut self, head: Head, entry: &Record) -> Result<Replayed, NoMemory>
        requires { (x : Past) × HasReplayed M.maps M.limit self.old x }
        ensures told { IfOk result (λ answer. (x : Past) → HasReplayed M.maps M.limit self.old x → (r : Placed) → Comes (left_by x).db.schema head entry.now r → Tells M.maps M.limit self.new x r answer) }
        ensures reads { IfOk result (λ answer. answer ≡ Passed → IsReadable (schema_of self.old.store.catalog) entry.now) }
        // Index 0 counts at most what the text of a definition does beside what it counted.
        ensures texts { OnOk result (map_size (M.maps self.new.store.tables 0) ≤ map_size (M.maps self.old.store.tables 0) + text_entries entry.now) }
        ensures commits { self.new.commits ≤ self.old.commits + 1 }
        ensures rest { self.new.store ≡ record self.old.store { catalog = self.new.store.catalog; tables = self.new.store.tables; views = self.new.store.views } }
    {
        if !self.may_come(head.number) {
            return Ok(misfit(head.place));
        }
        match entry {
            Record::Write { .. } => self.keep(head, entry),
            Record::Delta { .. } => self.keep(head, entry),
            Record::Ghost { view, group } => self.ghost_made(head, *view, group.as_slice()),
            Record::Clean { view, group } => self.group_cleaned(head, *view, group.as_slice()),
            Record::Undo {
                transaction,
                number,
            } => self.undo(head, *transaction, *number),
            Record::Commit {
                transaction,
                commit,
                ..
            } => self.commit(head, *transaction, *commit),
            Record::Abort { transaction } => self.abort(head, *transaction),
            Record::Schema { commit, text, .. } => self.define(head, *commit, text.as_slice()),
        }
    }
}
