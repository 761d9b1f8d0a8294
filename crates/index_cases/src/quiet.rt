//! A disk that tells nothing.
ghost use Rattle.std.specs.Prelude.{length};

use disk_io::{Disk, MemoryDisk};
use iv_types::Failed;

/// A disk in memory that tells nothing in its contract, so a publish to it asks nothing of what it holds.
#[derive(Drop)]
pub struct Quiet {
    pub disk: MemoryDisk,
}

impl Disk for Quiet {
    ghost use Rattle.disk_io.specs.Memory.{first_of, faults_of};

    ghost is_told = { ⊥ };

    ghost size_of = { λ d. length (first_of d.disk) };

    ghost seen = { λ d. first_of d.disk };

    ghost may_leave = { λ _ _. ⊥ };

    ghost moment = { λ _. 0 };

    ghost left_since = { λ _ _ _. ⊥ };

    ghost faults = { λ d. faults_of d.disk };

    ghost has_size = { λ no _. absurd no };

    ghost has_bytes = { λ no _. absurd no };

    ghost leaves_size = { λ _ _ _ no. absurd no };

    ghost leaves_bytes = { λ _ _ _ no. absurd no };

    ghost reads_image = { λ no _ _ _. absurd no };

    ghost counts_now = { λ _ _ _ _ no. no };

    ghost only_now = { λ _ _ no. no };

    ghost counts_in = { λ d. d.disk.counts };

    fn size(&self) -> u64 {
        self.disk.size()
    }

    fn read(&mut self, at: u64, into: &mut [u8]) -> Result<(), Failed> {
        self.disk.read(at, into)
    }

    fn write_at(&mut self, at: u64, from: &[u8]) -> Result<(), Failed> {
        self.disk.write_at(at, from)
    }

    fn sync(&mut self) -> Result<(), Failed> {
        self.disk.sync()
    }
}
