//! A new database on a disk of the outside.
ghost use Rattle.std.specs.Prelude.{◌≡◌, ℕ, List, Some, IfOk, OnOk};
ghost use Rattle.outside.specs.Outside.{OthersStay};
ghost use Rattle.recovery.specs.Formatted.{IsGeometry, FormatFaults};
ghost use Rattle.script_run.specs.Run.{SinkFaults};
ghost use Rattle.view_server.specs.Init.{DiskFaults, EndsInit, HasBlank, IsMade, ToldInit, init_line};

use command_words::NewDatabase;
use iv_types::NoMemory;
use line_wire::{Sink, WriteFault, write_all};
use outside::{Outside, Unmade};
use recovery::{FormatFault, disk_bytes, format_disk};
use script_run::Status;
use std::alloc::Global;

// What is printed of a database that was made.
fn told_line(alloc: Global, pages: u32, log_kib: u32) -> Result<Vec<u8>, NoMemory>
    ensures { IfOk result (λ line. line.items ≡ init_line pages log_kib) }
{
    let line = format!(in alloc; "INIT {pages} {log_kib}\n")?;
    Ok(line.into_bytes())
}

// Makes a disk under a name, and a database of it.
fn make_database<O: Outside>(
    alloc: Global,
    outside: &mut O,
    file: &str,
    pages: u32,
    log_kib: u32,
) -> Result<(), FormatFault>
    requires geometry { IsGeometry pages log_kib }
    ensures blank { O.is_told → O.Disk.is_told → OnOk result (HasBlank O.Disk.seen O.Disk.may_leave (O.lies outside.new file.now) pages log_kib) }
    ensures others { O.is_told → OthersStay file.now (O.lies outside.old) (O.lies outside.new) }
    ensures cause { FormatFaults result (O.faults outside.old) (O.faults outside.new) }
{
    match outside.make_disk(alloc, file, disk_bytes(pages, log_kib)) {
        Ok(disk) => {
            let mut disk = disk;
            let formatted = format_disk(alloc, &mut disk, pages, log_kib);
            let _ = outside.close_disk(disk);
            formatted
        }
        Err(Unmade::Failed) => Err(FormatFault::DiskFault),
        Err(Unmade::NoMemory) => Err(FormatFault::NoMemory),
    }
}

/// Makes a new database under a name, and tells its sizes.
pub fn init<O: Outside, K: Sink>(
    alloc: Global,
    outside: &mut O,
    sink: &mut K,
    asked: &NewDatabase,
) -> Status
    requires geometry { IsGeometry asked.now.pages asked.now.log_kib }
    ensures status { EndsInit result }
    ensures told { (before : List ℕ) → K.written sink.old ≡ Some before → ToldInit result asked.now.pages asked.now.log_kib before (K.written sink.new) }
    ensures blank { O.is_told → O.Disk.is_told → IsMade result → HasBlank O.Disk.seen O.Disk.may_leave (O.lies outside.new asked.now.file.now) asked.now.pages asked.now.log_kib }
    ensures others { O.is_told → OthersStay asked.now.file.now (O.lies outside.old) (O.lies outside.new) }
    ensures disk_faults { DiskFaults result (O.faults outside.old) (O.faults outside.new) }
    ensures sink_faults { SinkFaults result (K.faults sink.old) (K.faults sink.new) }
{
    let line = match told_line(alloc, asked.pages, asked.log_kib) {
        Ok(line) => line,
        Err(NoMemory) => return Status::NoMemory,
    };
    match make_database(alloc, outside, asked.file, asked.pages, asked.log_kib) {
        Ok(()) => match write_all(sink, &line) {
            Ok(()) => Status::Done,
            Err(WriteFault) => Status::WriteFault,
        },
        Err(FormatFault::DiskFault) => Status::DiskFault,
        Err(FormatFault::NoMemory) => Status::NoMemory,
    }
}
