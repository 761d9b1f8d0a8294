//! The real outside: disks in files.
ghost use Rattle.std.specs.Prelude.{◌≡◌, ◌<◌, ◌^◌, None, IfOk};
ghost use Rattle.disk_io.specs.File.{file_faults, file_size};

use disk_io::{Disk, FileDisk};
use iv_types::Failed;
use outside::{Outside, Unmade};
use std::alloc::Global;
use std::fs::{File, OpenOptions};
use std::rt::Files;

/// Disks in files, by their paths. The one that is open is locked, so that another program that opens it is refused. It tells
/// nothing of what lies where.
#[derive(Drop)]
pub struct RealOutside<'a, R> {
    rt: &'a R,
    lock: Option<File>,
    faults: u64,
    ghost counts: { faults < 2 ^ 64 },
}

impl<'a, R: Files<File = File>> RealOutside<'a, R> {
    /// An outside without faults as yet.
    pub fn new(rt: &'a R) -> Self {
        RealOutside {
            rt,
            lock: None,
            faults: 0,
        }
    }

    // Locks a file, which is made where it is not there and may be.
    fn lock(&self, name: &str, made: bool) -> Result<File, Failed> {
        let mut options = OpenOptions::new();
        options.read(true).write(true).create(made);
        let Ok(file) = options.open(self.rt, name) else {
            return Err(Failed);
        };
        if file.try_lock().is_err() {
            return Err(Failed);
        }
        Ok(file)
    }

    fn open(&mut self, name: &str) -> Result<FileDisk, Failed>
        ensures no_faults { IfOk result (λ disk. file_faults disk ≡ 0) }
        ensures uncounted { self.new.faults ≡ self.old.faults }
    {
        let lock = self.lock(name, false)?;
        let disk = FileDisk::open(self.rt, name)?;
        self.lock = Some(lock);
        Ok(disk)
    }

    fn create(&mut self, name: &str, bytes: u64) -> Result<FileDisk, Failed>
        ensures no_faults { IfOk result (λ disk. file_faults disk ≡ 0) }
        ensures size { IfOk result (λ disk. file_size disk ≡ bytes) }
        ensures uncounted { self.new.faults ≡ self.old.faults }
    {
        let lock = self.lock(name, true)?;
        let disk = FileDisk::create(self.rt, name, bytes)?;
        self.lock = Some(lock);
        Ok(disk)
    }
}

impl<'a, R: Files<File = File>> Outside for RealOutside<'a, R> {
    type Disk = FileDisk;

    ghost is_told = { ⊥ };

    ghost lies = { λ _ _. None };

    ghost opened_as = { λ _. None };

    ghost faults = { λ o. o.faults };

    ghost counts_in = { λ o. o.counts };

    fn open_disk(&mut self, _alloc: Global, name: &str) -> Result<FileDisk, Unmade> {
        match self.open(name) {
            Ok(disk) => Ok(disk),
            Err(Failed) => Err(Unmade::from(Failed::counted(&mut self.faults))),
        }
    }

    fn make_disk(&mut self, _alloc: Global, name: &str, bytes: u64) -> Result<FileDisk, Unmade> {
        match self.create(name, bytes) {
            Ok(disk) => Ok(disk),
            Err(Failed) => Err(Unmade::from(Failed::counted(&mut self.faults))),
        }
    }

    fn close_disk(&mut self, disk: FileDisk) -> Result<(), Failed> {
        self.lock = None;
        if disk.faults() > 0 {
            return Err(Failed::counted(&mut self.faults));
        }
        Ok(())
    }
}
