//! An outside in memory, for tests.
ghost use Rattle.std.specs.Prelude.{◌≡◌, ◌≢◌, ◌+◌, ◌<◌, ◌≤◌, ◌^◌, ◌⊎◌, ℕ, List, [], Option, Some, None, IfOk, OnOk, OnErr, replicate, vec_len, vec_capacity, MatchOption};
ghost use Rattle.outside.specs.Closed.{times_in, times_open};
ghost use Rattle.outside.specs.Places.{places_out};

use crate::closed::ClosedDisk;
use crate::finding::{place_of, take_closed};
use crate::list_disk::ListDisk;
use crate::outside::Outside;
use crate::unmade::Unmade;
use disk_io::{Disk, MemoryDisk};
use iv_types::{CallList, Failed, NoMemory};
use std::alloc::Global;

/// An outside that keeps its disks in memory, by name. Of its calls `open_disk` and `make_disk`, counted from 1, those fail that
/// are listed, and so does one that opens a disk that is not there; no others.
#[derive(Drop)]
pub struct ListOutside {
    closed: Vec<ClosedDisk>,
    opened: Option<String>,
    room: u64,
    disk_failing: CallList,
    failing: CallList,
    calls: u64,
    faults: u64,
    ghost counts: { faults < 2 ^ 64 },
    ghost has_place: { vec_len closed + places_out opened ≤ vec_capacity closed },
    ghost once: { (name : List ℕ) → times_in closed.items name + times_open opened name ≤ 1 },
}

impl ListOutside {
    ghost use Rattle.std.specs.Prelude.{IsSomeAnd};
    ghost use Rattle.disk_io.specs.Memory.{IsNew};
    ghost use Rattle.outside.specs.ListOutside.{lies_of, faults_of, room_of, disk_failing_of, fails_next, IsNewOutside, OneCallMore};
    ghost use Rattle.outside.specs.Disks.{memory_of, faults_since};

    /// An outside without disks. The disks that it makes have that much room for their records, and fail at those of their own
    /// calls that are listed first; the second list has the calls of the outside that are to fail.
    pub fn new(alloc: Global, room: u64, disk_failing: CallList, failing: CallList) -> Self
        ensures { IsNewOutside room disk_failing failing result }
    {
        ListOutside {
            closed: Vec::new(alloc),
            opened: None,
            room,
            disk_failing,
            failing,
            calls: 0,
            faults: 0,
        }
    }

    /// How often a disk could not be opened or made, or was closed after a fault. The count stands still at the end of a `u64`.
    pub fn faults(&self) -> u64
        ensures { result ≡ faults_of self.now }
    {
        self.faults
    }

    /// The disk that lies under a name, where one does.
    pub fn disk(&self, name: &str) -> Option<&MemoryDisk>
        ensures { MatchOption result (lies_of self.now name.now ≡ None) (λ memory. IsSomeAnd (lies_of self.now name.now) (λ disk. memory_of disk ≡ memory.now)) }
    {
        let at = place_of(&self.closed, name)?;
        Some(self.closed[at].disk.memory())
    }

    // Counts one call, and says whether it is one that is to fail.
    fn is_to_fail(&mut self) -> bool
        ensures listed { result ≡ fails_next self.old }
        ensures counted { OneCallMore self.old self.new }
    {
        self.calls = self.calls.saturating_add(1);
        self.failing.as_slice().contains(&self.calls)
    }

    // A disk of so many zeros.
    fn new_disk(&self, alloc: Global, bytes: u64) -> Result<ListDisk, NoMemory>
        ensures made { IfOk result (λ disk. IsNew (replicate bytes 0) (room_of self.now) (disk_failing_of self.now) (memory_of disk)) }
        ensures faults { IfOk result (λ disk. faults_since disk ≡ 0) }
    {
        let failing = self.disk_failing.copied(alloc)?;
        let memory = MemoryDisk::new(alloc, bytes, self.room, failing)?;
        Ok(ListDisk::new(memory))
    }
}

// Lets a disk go.
fn let_go(disk: ListDisk) {
    let _ = disk;
}

impl Outside for ListOutside {
    ghost use Rattle.disk_io.specs.Memory.{IsNew};
    ghost use Rattle.disk_io.specs.Counts.{one_up};
    ghost use Rattle.std.specs.Prelude.{IsTrue, Err};
    ghost use Rattle.iv_types.specs.Faults.{CountsFault};
    ghost use Rattle.outside.specs.declared.unmade.Unmade.TheVariants as Unmade;
    ghost use Rattle.outside.specs.Outside.{CountsUnmade, CountsClosed, OthersStay, ReadsAsBefore};
    ghost use Rattle.outside.specs.ListOutside.{lies_of, open_of, faults_of, room_of, disk_failing_of, calls_of, fails_next, FailsWhere, KeepsSettings};
    ghost use Rattle.outside.specs.Disks.{memory_of, faults_since};

    type Disk = ListDisk;

    ghost is_told = { Unit {0} };

    ghost lies = { lies_of };

    ghost opened_as = { open_of };

    ghost faults = { faults_of };

    ghost counts_in = { λ o. o.counts };

    #[tactic(auto, using(crate::proofs::Closings::times_none, crate::proofs::Closings::still_once))]
    fn open_disk(&mut self, _alloc: Global, name: &str) -> Result<ListDisk, Unmade>
        ensures count { IfOk result (λ disk. faults_since disk ≡ 0) }
        ensures opened { Unit {0} → IfOk result (λ disk. ReadsAsBefore ⟦<ListDisk as Disk>⟧.size_of ⟦<ListDisk as Disk>⟧.seen ⟦<ListDisk as Disk>⟧.may_leave (lies_of self.old name.now) disk) }
        ensures opened_as { Unit {0} → OnOk result (open_of self.new ≡ Some name.now) }
        ensures nothing_else { Unit {0} → OnOk result (lies_of self.new name.now ≡ None) }
        ensures others { Unit {0} → OnOk result (OthersStay name.now (lies_of self.old) (lies_of self.new)) }
        ensures lie { Unit {0} → OnErr result ((name : List ℕ) → lies_of self.new name ≡ lies_of self.old name) }
        ensures opened_as_err { Unit {0} → OnErr result (open_of self.new ≡ open_of self.old) }
        ensures cause { CountsUnmade result (faults_of self.old) (faults_of self.new) }

        // It fails exactly at the listed calls, and where no disk lies under the name.
        ensures exact { FailsWhere (IsTrue (fails_next self.old) ⊎ (lies_of self.old name.now ≡ None)) result }
        ensures memory { result ≢ Err Unmade.NoMemory }
        ensures calls { calls_of self.new ≡ one_up (calls_of self.old) }
        ensures settings { KeepsSettings self.old self.new }
    {
        if self.is_to_fail() {
            return Err(Unmade::from(Failed::counted(&mut self.faults)));
        }
        let Some(closed) = take_closed(&mut self.closed, name) else {
            return Err(Unmade::from(Failed::counted(&mut self.faults)));
        };
        let ClosedDisk { name, disk } = closed;
        self.opened = Some(name);
        Ok(disk.reopened())
    }

    #[tactic(auto, using(crate::proofs::Closings::times_none, crate::proofs::Closings::still_once))]
    fn make_disk(&mut self, alloc: Global, name: &str, bytes: u64) -> Result<ListDisk, Unmade>
        ensures count { IfOk result (λ disk. faults_since disk ≡ 0) }
        ensures size { IfOk result (λ disk. ⟦<ListDisk as Disk>⟧.size_of disk ≡ bytes) }
        ensures zeros { Unit {0} → IfOk result (λ disk. ⟦<ListDisk as Disk>⟧.seen disk ≡ replicate bytes 0) }
        ensures opened_as { Unit {0} → OnOk result (open_of self.new ≡ Some name.now) }
        ensures nothing_else { Unit {0} → OnOk result (lies_of self.new name.now ≡ None) }
        ensures others { Unit {0} → OthersStay name.now (lies_of self.old) (lies_of self.new) }
        ensures opened_as_err { Unit {0} → OnErr result (open_of self.new ≡ open_of self.old) }
        ensures cause { CountsUnmade result (faults_of self.old) (faults_of self.new) }

        // It fails exactly at the listed calls, and then what lies under the name stays. A disk has the room and the failing calls
        // that were given for it.
        ensures exact { FailsWhere (IsTrue (fails_next self.old)) result }
        ensures lie { OnErr result ((name : List ℕ) → lies_of self.new name ≡ lies_of self.old name) }
        ensures made { IfOk result (λ disk. IsNew (replicate bytes 0) (room_of self.old) (disk_failing_of self.old) (memory_of disk)) }
        ensures calls { calls_of self.new ≡ one_up (calls_of self.old) }
        ensures settings { KeepsSettings self.old self.new }
    {
        if self.is_to_fail() {
            return Err(Unmade::from(Failed::counted(&mut self.faults)));
        }
        let disk = self.new_disk(alloc, bytes)?;
        let opened = String::from_str(alloc, name)?;
        self.closed.reserve(1)?;
        let _ = take_closed(&mut self.closed, name);
        self.opened = Some(opened);
        Ok(disk)
    }

    fn close_disk(&mut self, disk: ListDisk) -> Result<(), Failed>
        ensures closed { Unit {0} → (name : List ℕ) → open_of self.old ≡ Some name → lies_of self.new name ≡ Some disk }
        ensures opened_as { Unit {0} → open_of self.new ≡ None }
        ensures others { Unit {0} → (name : List ℕ) → open_of self.old ≡ Some name → OthersStay name (lies_of self.old) (lies_of self.new) }
        ensures lie { Unit {0} → open_of self.old ≡ None → (name : List ℕ) → lies_of self.new name ≡ lies_of self.old name }
        ensures cause { CountsClosed (faults_since disk) (faults_of self.old) (faults_of self.new) }
        ensures told { CountsFault result (faults_of self.old) (faults_of self.new) }
        ensures sound { OnOk result (faults_since disk ≡ 0) }
        ensures calls { calls_of self.new ≡ calls_of self.old }
        ensures settings { KeepsSettings self.old self.new }
    {
        let faults = disk.faults();
        match self.opened.take() {
            Some(name) => self.closed.insert(0, ClosedDisk { name, disk }).unwrap(),
            None => let_go(disk),
        }
        if faults > 0 {
            return Err(Failed::counted(&mut self.faults));
        }
        Ok(())
    }
}
