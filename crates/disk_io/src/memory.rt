//! A disk in memory that keeps a record of its calls, so that a crash may leave all that the contract allows.
ghost use Rattle.std.specs.Prelude.{◌≡◌, ◌≤◌, ◌<◌, ◌+◌, ◌-◌, ◌^◌, ◌∷◌, ◌++◌, [], ℕ, List, length, replicate, take, not, nat_le, ◌&&◌, ◌==◌, is_ok, IfOk, OnOk, refl};
ghost use Rattle.disk_io.specs.Disk.{AreBytes, part, splice, Only, Elapses, CountsFault};
ghost use Rattle.disk_io.specs.Events.{Wrote, Synced, after, MayLeave, AllFit, all_fit_prop, LeftSince, counts_last, only_last, since_size, since_bytes};
ghost use Rattle.std.specs.List.{list_any};
ghost use Rattle.disk_io.specs.Counts.{one_up};
ghost use Rattle.disk_io.specs.Recorded.{recorded, size_kept, bytes_kept, reads_kept};

use crate::record::CallRecord;
use crate::replay::{overwrite, zeros};
use crate::{Disk, Torn};
use iv_types::{Failed, NoMemory, Sequence};
use std::alloc::Global;

/// The numbers of the calls that are to fail, counted from 1.
pub type CallList = Sequence<u64>;

/// A disk in memory. It fails at the calls that it was told to fail at, and where the room for its record is wanting,
/// and nowhere else. A call that fails changes and records nothing.
#[derive(Drop)]
pub struct MemoryDisk {
    alloc: Global,
    first: Vec<u8>,
    bytes: Vec<u8>,
    kept: CallRecord,
    failing: CallList,
    made: u64,
    faults: u64,
    ghost replays: { bytes.items ≡ after (recorded kept) first.items },
    ghost fits: { AllFit (length first.items) (recorded kept) } by { all_fit_prop (length first.items) (recorded kept) },
    ghost of_bytes: { AreBytes first.items },
    ghost counts: { faults < 2 ^ 64 },
}

impl MemoryDisk {
    ghost use Rattle.disk_io.specs.Images.{image_of};
    ghost use Rattle.disk_io.specs.Memory.{first_of, bytes_of, record_of, faults_of, IsNew};

    /// A disk of that many zeros. Its record has `room` bytes, of which a write takes its length and 32, a sync 32 and
    /// a read nothing. All memory is taken here, and the calls of `Disk` take none.
    pub fn new(
        alloc: Global,
        bytes: u64,
        room: u64,
        failing: CallList,
    ) -> Result<MemoryDisk, NoMemory>
        ensures { IfOk result (IsNew (replicate bytes 0) room failing) }
    {
        let first = zeros(alloc, bytes as usize)?;
        MemoryDisk::over(alloc, first, room, failing)
    }

    // A disk that holds these bytes.
    fn over(
        alloc: Global,
        first: Vec<u8>,
        room: u64,
        failing: CallList,
    ) -> Result<MemoryDisk, NoMemory>
        ensures { IfOk result (IsNew first.items room failing) }
    {
        let bytes = first.as_slice().to_vec(alloc)?;
        let kept = CallRecord::new(alloc, room)?;
        Ok(MemoryDisk {
            alloc,
            first,
            bytes,
            kept,
            failing,
            made: 0,
            faults: 0,
        })
    }

    /// How many calls are recorded: the writes and syncs that did not fail.
    pub fn recorded(&self) -> u64
        ensures { result ≡ length (record_of self.now) }
    {
        self.kept.count() as u64
    }

    /// How many calls have failed. The count stands still at the end of a `u64`.
    pub fn faults(&self) -> u64
        ensures { result ≡ faults_of self.now }
    {
        self.faults
    }

    /// A new disk without failing calls, with that room for its record. It holds what a crash after that many recorded
    /// calls leaves, where each range written since the last sync before it is torn so.
    pub fn image(&self, moment: u64, torn: Torn, room: u64) -> Result<MemoryDisk, NoMemory>
        requires { moment ≤ length (record_of self.now) }
        ensures new { IfOk result (IsNew (image_of torn (take moment (record_of self.now)) (first_of self.now)) room []) }
        ensures crash { IfOk result (λ d. MayLeave (take moment (record_of self.now)) (first_of self.now) (λ c. c ≡ first_of self.now) (bytes_of d)) }
    {
        let bytes = self
            .kept
            .image(self.alloc, moment as usize, torn, &self.first)?;
        MemoryDisk::over(self.alloc, bytes, room, Sequence::new(self.alloc))
    }
}

// Counts one call, and says whether it is one that is to fail.
fn is_to_fail(made: &mut u64, failing: &[u64]) -> bool
    ensures counted { made.new ≡ one_up made.old }
    ensures listed { result ≡ list_any (λ n. n == one_up made.old) failing.now }
{
    *made = made.saturating_add(1);
    failing.contains(made)
}

impl Disk for MemoryDisk {
    ghost use Rattle.disk_io.specs.Memory.{first_of, bytes_of, record_of, faults_of, room_of, fails_next, IsCall, Images, ImagesSince, Tears};

    ghost is_told = { Unit {0} };

    ghost size_of = { λ d. length d.first.items };

    ghost seen = { λ d. d.bytes.items };

    ghost may_leave = { λ d c. MayLeave (recorded d.kept) d.first.items (λ b. b ≡ d.first.items) c };

    ghost moment = { λ d. length (recorded d.kept) };

    ghost left_since = { λ d t c. LeftSince (recorded d.kept) d.first.items t c };

    ghost faults = { λ d. d.faults };

    ghost has_size = { λ _ d. size_kept d.kept d.first.items d.bytes.items d.replays d.fits };

    ghost has_bytes = { λ _ d. bytes_kept d.kept d.first.items d.bytes.items d.replays d.fits d.of_bytes };

    ghost leaves_size = { λ d t c left. since_size (recorded d.kept) d.first.items d.fits d.of_bytes t c left };

    ghost leaves_bytes = { λ d t c left. since_bytes (recorded d.kept) d.first.items d.fits d.of_bytes t c left };

    ghost reads_image = { λ _ d _ _. reads_kept d.kept d.first.items d.bytes.items d.replays d.fits d.of_bytes };

    ghost counts_now = { λ d t c le now. counts_last (recorded d.kept) d.first.items t c le now };

    ghost only_now = { λ d c left. only_last (recorded d.kept) d.first.items c left };

    ghost counts_in = { λ d. d.counts };

    fn size(&self) -> u64 {
        self.first.len() as u64
    }

    fn read(&mut self, at: u64, into: &mut [u8]) -> Result<(), Failed>
        requires { at + length into.old ≤ length (first_of self.old) }
        ensures exact { is_ok result ≡ not (fails_next self.old) }
        ensures call { IsCall (bytes_of self.old) (record_of self.old) (room_of self.old) (is_ok result) self.old self.new }
        ensures bytes { Unit {0} → OnOk result (into.new ≡ part at (length into.old) (bytes_of self.old)) }
        ensures size { length (first_of self.new) ≡ length (first_of self.old) }
        ensures seen { Unit {0} → bytes_of self.new ≡ bytes_of self.old }
        ensures crash { (c : List ℕ) → Images self.new c → Images self.old c }
        ensures time { Elapses (length (record_of self.old)) (length (record_of self.new)) (ImagesSince self.old) (ImagesSince self.new) (Images self.new) }
        ensures cause { CountsFault result (faults_of self.old) (faults_of self.new) }
    {
        if is_to_fail(&mut self.made, self.failing.as_slice()) {
            return Err(Failed::counted(&mut self.faults));
        }
        let at = at as usize;
        into.copy_from_slice(&self.bytes[at..at + into.len()]);
        Ok(())
    }

    fn write_at(&mut self, at: u64, from: &[u8]) -> Result<(), Failed>
        requires { at + length from.now ≤ length (first_of self.old) }
        ensures exact { is_ok result ≡ not (fails_next self.old) && nat_le (length from.now + 32) (room_of self.old) }
        ensures call { IsCall (splice at from.now (bytes_of self.old)) (record_of self.old ++ Wrote at from.now ∷ []) (room_of self.old - (length from.now + 32)) (is_ok result) self.old self.new }
        ensures written { Unit {0} → OnOk result (bytes_of self.new ≡ splice at from.now (bytes_of self.old)) }
        ensures size { length (first_of self.new) ≡ length (first_of self.old) }
        ensures crash { Tears at (length from.now) self.old self.new }
        ensures time { Elapses (length (record_of self.old)) (length (record_of self.new)) (ImagesSince self.old) (ImagesSince self.new) (Images self.new) }
        ensures cause { CountsFault result (faults_of self.old) (faults_of self.new) }
    {
        if is_to_fail(&mut self.made, self.failing.as_slice()) {
            return Err(Failed::counted(&mut self.faults));
        }
        let at = at as usize;
        if self.kept.note_write(at, from).is_err() {
            return Err(Failed::counted(&mut self.faults));
        }
        overwrite(&mut self.bytes, at, from);
        Ok(())
    }

    fn sync(&mut self) -> Result<(), Failed>
        ensures exact { is_ok result ≡ not (fails_next self.old) && nat_le 32 (room_of self.old) }
        ensures call { IsCall (bytes_of self.old) (record_of self.old ++ Synced ∷ []) (room_of self.old - 32) (is_ok result) self.old self.new }
        ensures durable { OnOk result (Only (bytes_of self.old) (Images self.new)) }
        ensures size { length (first_of self.new) ≡ length (first_of self.old) }
        ensures seen { Unit {0} → bytes_of self.new ≡ bytes_of self.old }
        ensures crash { (c : List ℕ) → Images self.new c → Images self.old c }
        ensures time { Elapses (length (record_of self.old)) (length (record_of self.new)) (ImagesSince self.old) (ImagesSince self.new) (Images self.new) }
        ensures cause { CountsFault result (faults_of self.old) (faults_of self.new) }
    {
        if is_to_fail(&mut self.made, self.failing.as_slice()) {
            return Err(Failed::counted(&mut self.faults));
        }
        if self.kept.note_sync().is_err() {
            return Err(Failed::counted(&mut self.faults));
        }
        Ok(())
    }
}
