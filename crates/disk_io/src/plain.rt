//! A disk in memory that keeps its bytes alone.
ghost use Rattle.std.specs.Prelude.{◌≡◌, ◌+◌, ◌≤◌, length, replicate, IsOk, IfOk, refl};
ghost use Rattle.disk_io.specs.Disk.{AreBytes, part, splice};
ghost use Rattle.disk_io.specs.Counts.{none_below};

use crate::Disk;
use crate::replay::{overwrite, zeros};
use iv_types::{Failed, NoMemory};
use std::alloc::Global;

/// A disk in memory. It tells what a read gives, and nothing of crashes. It never fails, and its calls take no memory.
#[derive(Drop)]
pub struct PlainDisk {
    bytes: Vec<u8>,
    ghost of_bytes: { AreBytes bytes.items },
}

impl PlainDisk {
    ghost use Rattle.disk_io.specs.Plain.{plain_bytes};

    /// A disk of that many zeros.
    pub fn new(alloc: Global, bytes: u64) -> Result<PlainDisk, NoMemory>
        ensures { IfOk result (λ disk. plain_bytes disk ≡ replicate bytes 0) }
    {
        let bytes = zeros(alloc, bytes as usize)?;
        Ok(PlainDisk { bytes })
    }
}

impl Disk for PlainDisk {
    ghost use Rattle.disk_io.specs.Plain.{plain_bytes};

    ghost is_told = { Unit {0} };

    ghost size_of = { λ d. length d.bytes.items };

    ghost seen = { λ d. d.bytes.items };

    ghost may_leave = { λ _ _. ⊥ };

    ghost moment = { λ _. 0 };

    ghost left_since = { λ _ _ _. ⊥ };

    ghost faults = { λ _. 0 };

    ghost has_size = { λ _ _. refl };

    ghost has_bytes = { λ _ d. d.of_bytes };

    ghost leaves_size = { λ _ _ _ no. absurd no };

    ghost leaves_bytes = { λ _ _ _ no. absurd no };

    ghost reads_image = { λ _ _ _ no. no };

    ghost counts_now = { λ _ _ _ _ no. no };

    ghost only_now = { λ _ _ no. no };

    ghost counts_in = { λ _. none_below };

    fn size(&self) -> u64 {
        self.bytes.len() as u64
    }

    fn read(&mut self, at: u64, into: &mut [u8]) -> Result<(), Failed>
        requires { at + length into.old ≤ length (plain_bytes self.old) }
        ensures never_fails { IsOk result }
        ensures read { into.new ≡ part at (length into.old) (plain_bytes self.old) }
        ensures kept { plain_bytes self.new ≡ plain_bytes self.old }
    {
        let at = at as usize;
        into.copy_from_slice(&self.bytes[at..at + into.len()]);
        Ok(())
    }

    fn write_at(&mut self, at: u64, from: &[u8]) -> Result<(), Failed>
        requires { at + length from.now ≤ length (plain_bytes self.old) }
        ensures never_fails { IsOk result }
        ensures wrote { plain_bytes self.new ≡ splice at from.now (plain_bytes self.old) }
    {
        overwrite(&mut self.bytes, at as usize, from);
        Ok(())
    }

    fn sync(&mut self) -> Result<(), Failed>
        ensures never_fails { IsOk result }
        ensures kept { plain_bytes self.new ≡ plain_bytes self.old }
    {
        Ok(())
    }
}
