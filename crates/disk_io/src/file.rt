//! A disk in a file. It tells nothing of what the file holds.
ghost use Rattle.std.specs.Prelude.{◌≡◌, ◌+◌, ◌<◌, ◌≤◌, ◌^◌, [], length, is_ok, if◌then◌else◌, IfOk};

use crate::Disk;
use iv_types::Failed;
use std::fs::{File, OpenOptions};
use std::os::unix::fs::FileExt;
use std::rt::Files;

/// A file of a fixed size. Each call fails where the system's call fails, and is counted.
#[derive(Drop)]
pub struct FileDisk {
    file: File,
    size: u64,
    faults: u64,
    ghost counts: { faults < 2 ^ 64 },
}

impl FileDisk {
    ghost use Rattle.disk_io.specs.File.{file_size, file_faults};

    /// Opens a file that is there, at the size that it has. `Failed` where the system can't open it or tell its size.
    pub fn open<R: Files<File = File>>(rt: &R, path: &str) -> Result<FileDisk, Failed>
        ensures no_faults { IfOk result (λ disk. file_faults disk ≡ 0) }
    {
        let Ok(file) = OpenOptions::new().read(true).write(true).open(rt, path) else {
            return Err(Failed);
        };
        let Ok(about) = file.metadata() else {
            return Err(Failed);
        };
        Ok(FileDisk {
            file,
            size: about.len(),
            faults: 0,
        })
    }

    /// Makes a file of that many zeros, in place of one that is there. `Failed` where the system can't.
    pub fn create<R: Files<File = File>>(rt: &R, path: &str, bytes: u64) -> Result<FileDisk, Failed>
        ensures no_faults { IfOk result (λ disk. file_faults disk ≡ 0) }
        ensures size { IfOk result (λ disk. file_size disk ≡ bytes) }
    {
        let mut options = OpenOptions::new();
        options.read(true).write(true).create(true).truncate(true);
        let Ok(file) = options.open(rt, path) else {
            return Err(Failed);
        };
        if file.set_len(bytes).is_err() {
            return Err(Failed);
        }
        Ok(FileDisk {
            file,
            size: bytes,
            faults: 0,
        })
    }

    /// How many calls have failed. The count stands still at the end of a `u64`.
    pub fn faults(&self) -> u64
        ensures { result ≡ file_faults self.now }
    {
        self.faults
    }
}

impl Disk for FileDisk {
    ghost is_told = { ⊥ };

    ghost size_of = { λ d. d.size };

    ghost seen = { λ _. [] };

    ghost may_leave = { λ _ _. ⊥ };

    ghost moment = { λ _. 0 };

    ghost left_since = { λ _ _ _. ⊥ };

    ghost faults = { λ d. d.faults };

    ghost has_size = { λ no. absurd no };

    ghost has_bytes = { λ no. absurd no };

    ghost leaves_size = { λ _ _ _ no. absurd no };

    ghost leaves_bytes = { λ _ _ _ no. absurd no };

    ghost reads_image = { λ no. absurd no };

    ghost counts_now = { λ _ _ _ _ no. no };

    ghost only_now = { λ _ _ no. no };

    ghost counts_in = { λ d. d.counts };

    fn size(&self) -> u64 {
        self.size
    }

    fn read(&mut self, at: u64, into: &mut [u8]) -> Result<(), Failed> {
        if self.file.read_exact_at(into, at).is_err() {
            return Err(Failed::counted(&mut self.faults));
        }
        Ok(())
    }

    fn write_at(&mut self, at: u64, from: &[u8]) -> Result<(), Failed> {
        if self.file.write_all_at(from, at).is_err() {
            return Err(Failed::counted(&mut self.faults));
        }
        Ok(())
    }

    fn sync(&mut self) -> Result<(), Failed> {
        if self.file.sync_data().is_err() {
            return Err(Failed::counted(&mut self.faults));
        }
        Ok(())
    }
}
