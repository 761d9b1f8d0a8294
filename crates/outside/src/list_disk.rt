//! A disk of an outside in memory.
ghost use Rattle.std.specs.Prelude.{◌≡◌, ◌≤◌, ◌<◌, ◌+◌, ◌-◌, ◌^◌, ◌∷◌, ◌++◌, [], ℕ, List, length, not, nat_le, ◌&&◌, is_ok, OnOk};
ghost use Rattle.disk_io.specs.Disk.{part, splice, Only, Elapses, CountsFault};
ghost use Rattle.disk_io.specs.Events.{Wrote, Synced};

use disk_io::{Disk, MemoryDisk};
use iv_types::Failed;

/// A disk in memory that counts its faults since it was opened or made. Each of its calls is one of the memory, so it fails where
/// that fails and nowhere else.
#[derive(Drop)]
pub struct ListDisk {
    memory: MemoryDisk,
    faults: u64,
    ghost counts: { faults < 2 ^ 64 },
}

impl ListDisk {
    ghost use Rattle.outside.specs.Disks.{memory_of, faults_since};

    /// A disk without faults as yet.
    pub fn new(memory: MemoryDisk) -> Self
        ensures memory { memory_of result ≡ memory }
        ensures faults { faults_since result ≡ 0 }
    {
        ListDisk { memory, faults: 0 }
    }

    /// The disk itself.
    pub fn memory(&self) -> &MemoryDisk
        ensures { result.now ≡ memory_of self.now }
    {
        &self.memory
    }

    /// How often it has failed since it was opened or made. The count stands still at the end of a `u64`.
    pub fn faults(&self) -> u64
        ensures { result ≡ faults_since self.now }
    {
        self.faults
    }

    /// The same disk, without faults as yet.
    pub fn reopened(self) -> Self
        ensures memory { memory_of result ≡ memory_of self }
        ensures faults { faults_since result ≡ 0 }
    {
        let ListDisk { memory, .. } = self;
        ListDisk { memory, faults: 0 }
    }
}

impl Disk for ListDisk {
    ghost use Rattle.disk_io.specs.Memory.{first_of, bytes_of, record_of, room_of, fails_next, IsCall, Images, ImagesSince, Tears};
    ghost use Rattle.outside.specs.Disks.{memory_of, faults_since, CountsOne};
    ghost use Rattle.disk_io.specs.contracts.memory.MemoryDiskDisk.TheImpl.Laws.{has_size-law, has_bytes-law, leaves_size-law, leaves_bytes-law, reads_image-law, counts_now-law, only_now-law};

    ghost is_told = { ⟦<MemoryDisk as Disk>⟧.is_told };

    ghost size_of = { λ d. ⟦<MemoryDisk as Disk>⟧.size_of d.memory };

    ghost seen = { λ d. ⟦<MemoryDisk as Disk>⟧.seen d.memory };

    ghost may_leave = { λ d. ⟦<MemoryDisk as Disk>⟧.may_leave d.memory };

    ghost moment = { λ d. ⟦<MemoryDisk as Disk>⟧.moment d.memory };

    ghost left_since = { λ d. ⟦<MemoryDisk as Disk>⟧.left_since d.memory };

    ghost faults = { λ d. d.faults };

    ghost has_size = { λ told d. has_size-law told d.memory };

    ghost has_bytes = { λ told d. has_bytes-law told d.memory };

    ghost leaves_size = { λ d. leaves_size-law d.memory };

    ghost leaves_bytes = { λ d. leaves_bytes-law d.memory };

    ghost reads_image = { λ told d. reads_image-law told d.memory };

    ghost counts_now = { λ d. counts_now-law d.memory };

    ghost only_now = { λ d. only_now-law d.memory };

    ghost counts_in = { λ d. d.counts };

    fn size(&self) -> u64 {
        self.memory.size()
    }

    fn read(&mut self, at: u64, into: &mut [u8]) -> Result<(), Failed>
        requires { at + length into.old ≤ length (first_of (memory_of self.old)) }
        ensures exact { is_ok result ≡ not (fails_next (memory_of self.old)) }
        ensures call { IsCall (bytes_of (memory_of self.old)) (record_of (memory_of self.old)) (room_of (memory_of self.old)) (is_ok result) (memory_of self.old) (memory_of self.new) }
        ensures counted { CountsOne (is_ok result) self.old self.new }
        ensures bytes { Unit {0} → OnOk result (into.new ≡ part at (length into.old) (bytes_of (memory_of self.old))) }
        ensures size { length (first_of (memory_of self.new)) ≡ length (first_of (memory_of self.old)) }
        ensures seen { Unit {0} → bytes_of (memory_of self.new) ≡ bytes_of (memory_of self.old) }
        ensures crash { (c : List ℕ) → Images (memory_of self.new) c → Images (memory_of self.old) c }
        ensures time { Elapses (length (record_of (memory_of self.old))) (length (record_of (memory_of self.new))) (ImagesSince (memory_of self.old)) (ImagesSince (memory_of self.new)) (Images (memory_of self.new)) }
        ensures cause { CountsFault result (faults_since self.old) (faults_since self.new) }
    {
        match self.memory.read(at, into) {
            Ok(()) => Ok(()),
            Err(Failed) => Err(Failed::counted(&mut self.faults)),
        }
    }

    fn write_at(&mut self, at: u64, from: &[u8]) -> Result<(), Failed>
        requires { at + length from.now ≤ length (first_of (memory_of self.old)) }
        ensures exact { is_ok result ≡ not (fails_next (memory_of self.old)) && nat_le (length from.now + 32) (room_of (memory_of self.old)) }
        ensures call { IsCall (splice at from.now (bytes_of (memory_of self.old))) (record_of (memory_of self.old) ++ Wrote at from.now ∷ []) (room_of (memory_of self.old) - (length from.now + 32)) (is_ok result) (memory_of self.old) (memory_of self.new) }
        ensures counted { CountsOne (is_ok result) self.old self.new }
        ensures written { Unit {0} → OnOk result (bytes_of (memory_of self.new) ≡ splice at from.now (bytes_of (memory_of self.old))) }
        ensures size { length (first_of (memory_of self.new)) ≡ length (first_of (memory_of self.old)) }
        ensures crash { Tears at (length from.now) (memory_of self.old) (memory_of self.new) }
        ensures time { Elapses (length (record_of (memory_of self.old))) (length (record_of (memory_of self.new))) (ImagesSince (memory_of self.old)) (ImagesSince (memory_of self.new)) (Images (memory_of self.new)) }
        ensures cause { CountsFault result (faults_since self.old) (faults_since self.new) }
    {
        match self.memory.write_at(at, from) {
            Ok(()) => Ok(()),
            Err(Failed) => Err(Failed::counted(&mut self.faults)),
        }
    }

    fn sync(&mut self) -> Result<(), Failed>
        ensures exact { is_ok result ≡ not (fails_next (memory_of self.old)) && nat_le 32 (room_of (memory_of self.old)) }
        ensures call { IsCall (bytes_of (memory_of self.old)) (record_of (memory_of self.old) ++ Synced ∷ []) (room_of (memory_of self.old) - 32) (is_ok result) (memory_of self.old) (memory_of self.new) }
        ensures counted { CountsOne (is_ok result) self.old self.new }
        ensures durable { OnOk result (Only (bytes_of (memory_of self.old)) (Images (memory_of self.new))) }
        ensures size { length (first_of (memory_of self.new)) ≡ length (first_of (memory_of self.old)) }
        ensures seen { Unit {0} → bytes_of (memory_of self.new) ≡ bytes_of (memory_of self.old) }
        ensures crash { (c : List ℕ) → Images (memory_of self.new) c → Images (memory_of self.old) c }
        ensures time { Elapses (length (record_of (memory_of self.old))) (length (record_of (memory_of self.new))) (ImagesSince (memory_of self.old)) (ImagesSince (memory_of self.new)) (Images (memory_of self.new)) }
        ensures cause { CountsFault result (faults_since self.old) (faults_since self.new) }
    {
        match self.memory.sync() {
            Ok(()) => Ok(()),
            Err(Failed) => Err(Failed::counted(&mut self.faults)),
        }
    }
}
