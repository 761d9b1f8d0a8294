//! Journals.
ghost use Rattle.std.specs.Prelude.{◌≡◌, ◌+◌, ◌∷◌, ◌<◌, ◌≤◌, ◌^◌, ℕ, List, [], Option, length, OnOk, OnErr};
ghost use Rattle.iv_types.specs.Faults.{Rose};
ghost use Rattle.txn_machine.specs.Log.{Within, block_bytes};
ghost use Rattle.log_records.specs.Area.{Entry};
ghost use Rattle.log_records.specs.Lent.{stands_for};
ghost use Rattle.log_records.specs.Spelling.{IsShort, spelling};
ghost use Rattle.core_journal.specs.Records.{Records, flushed_all, restarted};
ghost use Rattle.core_journal.specs.Cuts.{Cut, cut_of};

use iv_types::{Catalog, DiskFault, SortedMaps};
use log_records::LentRecord;

/// Where an engine gives the records of its steps.
pub trait Journal {
    /// Whether it has these records.
    ghost has: { Self → Records → Type 0 };

    /// Whether a checkpoint has begun, behind these records and with this number for the next one, that carries these, the latest
    /// first, which take so many bytes of the area with those that begin and end their block.
    ghost carries: { Self → Records → ℕ → List Entry → ℕ → Type 0 };

    /// The bytes of an area of its log, where there is such a limit.
    ghost limit: { Self → Option ℕ };

    /// What it writes to.
    ghost Medium: { Type 0 };

    ghost medium: { Self → Self.Medium };

    /// How often its medium has failed. The count stands still at the end of a `u64`.
    ghost faults: { Self.Medium → ℕ };

    /// Whether its medium has this.
    ghost stands_on: { Self → Cut → Type 0 };

    /// Whether a crash at any moment from the one to the other leaves one of these two.
    ghost leaves: { Self.Medium → Self.Medium → Cut → Cut → Type 0 };

    /// Takes a record under its number, for which the area has room. It waits until it is flushed.
    fn append(&mut self, number: u64, lent: LentRecord<'_>)
        requires short { IsShort (stands_for lent) }
        requires number { number ≤ 2 ^ 63 }
        requires room { (rs : Records) × has self.old rs × Within (limit self.old) (rs.used + length (spelling number (stands_for lent))) }
        ensures has { (rs : Records) → has self.old rs → has self.new (record rs { waiting = record { number = number; entry = stands_for lent.entry } ∷ rs.waiting; used = rs.used + length (spelling number (stands_for lent.entry)) }) }
        ensures limit { limit self.new ≡ limit self.old }
        ensures medium { medium self.new ≡ medium self.old };

    /// Writes all records that wait to its disk, as a block, and has them settle there.
    ///
    /// # Errors
    ///
    /// Where the disk fails. The records that waited may be on it or not.
    fn flush(&mut self) -> Result<(), DiskFault>
        requires { (rs : Records) × has self.old rs × Within (limit self.old) (rs.used + block_bytes) }
        ensures ok { OnOk result (((rs : Records) → has self.old rs → has self.new (flushed_all rs)) × (faults (medium self.new) ≡ faults (medium self.old))) }
        ensures err { OnErr result (Rose (faults (medium self.old)) (faults (medium self.new))) }
        ensures any_moment { (rs : Records) → has self.old rs → leaves (medium self.old) (medium self.new) (cut_of rs) (cut_of (flushed_all rs)) }
        ensures limit { limit self.new ≡ limit self.old };

    /// Begins a checkpoint, which is to take over all that its records say. It carries none yet, and the next record is to have this
    /// number.
    fn begin_checkpoint(&mut self, next: u64)
        requires few { (rs : Records) × has self.old rs × (rs.saves ≤ 2 ^ 62) × Within (limit self.old) (block_bytes + 1) }
        ensures carries { (rs : Records) → has self.old rs → carries self.new rs next [] (block_bytes + 1) }
        ensures stands { (rs : Records) → has self.old rs → stands_on self.new (cut_of rs) }
        ensures limit { limit self.new ≡ limit self.old }
        ensures medium { medium self.new ≡ medium self.old };

    /// Carries a record under its number, for which the area has room.
    fn carry(&mut self, number: u64, lent: LentRecord<'_>)
        requires short { IsShort (stands_for lent) }
        requires room { (rs : Records) × (next : ℕ) × (es : List Entry) × (used : ℕ) × carries self.old rs next es used × Within (limit self.old) (used + length (spelling number (stands_for lent))) }
        ensures carries { (rs : Records) (next : ℕ) (es : List Entry) (used : ℕ) → carries self.old rs next es used
            → carries self.new rs next (record { number = number; entry = stands_for lent.entry } ∷ es) (used + length (spelling number (stands_for lent.entry))) }
        ensures stands { (x : Cut) → stands_on self.old x → stands_on self.new x }
        ensures limit { limit self.new ≡ limit self.old }
        ensures medium { medium self.new ≡ medium self.old };

    /// The count of faults is a `u64`.
    ghost counts_in: { (medium : Self.Medium) → faults medium < 2 ^ 64 };
}

/// A journal that saves checkpoints of an engine over such maps. A checkpoint is begun, each record of it is carried, and then it
/// is saved.
pub trait Checkpoints<M: SortedMaps>: Journal {
    /// Saves the checkpoint: what the maps have of these definitions, with their greatest commit number. It has then no record but
    /// those that it carries, and that is what was saved last.
    ///
    /// # Errors
    ///
    /// Where the disk fails. It may have the checkpoint or not.
    fn save(&mut self, maps: &mut M, catalog: &Catalog, commits: u64) -> Result<(), DiskFault>
        requires { (rs : Records) × (next : ℕ) × (es : List Entry) × (used : ℕ) × Self.carries self.old rs next es used × (M.limit maps.old ≡ rs.image_limit) }
        ensures ok { OnOk result (((rs : Records) (next : ℕ) (es : List Entry) (used : ℕ) → Self.carries self.old rs next es used
            → Self.has self.new (restarted rs (record { maps = M.maps maps.old; definitions = catalog.now; commits = commits; next = next; carried = es }) used))
            × (Self.faults (Self.medium self.new) ≡ Self.faults (Self.medium self.old))) }
        ensures err { OnErr result (Rose (Self.faults (Self.medium self.old)) (Self.faults (Self.medium self.new))) }
        ensures any_moment { (rs : Records) (next : ℕ) (es : List Entry) (used : ℕ) (x : Cut) → Self.carries self.old rs next es used → Self.stands_on self.old x
            → Self.leaves (Self.medium self.old) (Self.medium self.new) x (record { saved = record { maps = M.maps maps.old; definitions = catalog.now; commits = commits; next = next; carried = es }; records = [] }) }
        ensures maps { M.maps maps.new ≡ M.maps maps.old }
        ensures spare { M.spare maps.new ≡ M.spare maps.old }
        ensures data_limit { M.limit maps.new ≡ M.limit maps.old }
        ensures limit { Self.limit self.new ≡ Self.limit self.old };
}
