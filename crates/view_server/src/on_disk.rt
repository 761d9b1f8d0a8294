//! A script on the database of a disk of the outside.
ghost use Rattle.std.specs.Prelude.{◌≡◌, ◌≢◌, ℕ, List, Some, IfOk, IfErr};
ghost use Rattle.image_opening.specs.Faults.{counted_by};
ghost use Rattle.log_journal.specs.Standing.{disk_of};
ghost use Rattle.outside.specs.Outside.{CountsClosed, OthersStay};
ghost use Rattle.script_run.specs.Run.{Output, Taken, SourceFaults, SinkFaults};
ghost use Rattle.txn_log.specs.Replay.{Pages};
ghost use Rattle.database_opening.specs.Opened.{IsOpenOn};
ghost use Rattle.view_server.specs.OnDisk.{EndsSo, FaultsOnDisk, IsKeptOn, IsOfLines, IsThere, IsToldOf, Keeps, MightLeave, RanOn, Stays, StaysSafe, TellsBad, ToldBad};
ghost use Rattle.view_server.specs.Init.{DiskFaults};

use database_opening::{OpenRefused, open_database};
use disk_io::Disk;
use engine_core::Core;
use image_opening::OpenFault;
use image_refusals::{row_line, rule_line};
use iv_types::{Failed, NoMemory};
use line_wire::{Sink, Source, WriteFault, write_all};
use log_journal::LogJournal;
use ordered_index::PageMaps;
use outside::{Outside, Unmade};
use script_run::{Status, run_lines};
use std::alloc::Global;

// The disk of a core, which is let go. Its drop is proved here alone.
fn disk_behind<D: Disk>(core: Core<PageMaps, LogJournal<D>>) -> D
    ensures { result ≡ disk_of core.journal }
{
    core.into_journal().into_disk()
}

// The status of lines that were run on a disk, which is closed: a fault of the disk is told where nothing else is.
fn ended(lines: Status, closed: Result<(), Failed>) -> Status
    ensures { EndsSo lines closed result }
{
    match closed {
        Ok(()) => lines,
        Err(Failed) => {
            if lines == Status::Done {
                Status::DiskFault
            } else {
                lines
            }
        }
    }
}

// Prints a line that tells why no database is opened.
fn tell<K: Sink>(sink: &mut K, line: Result<Vec<u8>, NoMemory>) -> Status
    ensures told { IfOk line (λ text. (before : List ℕ) → K.written sink.old ≡ Some before → ToldBad result text.items before (K.written sink.new)) }
    ensures none { IfErr line (λ _. (result ≡ Status.NoMemory) × (sink.new ≡ sink.old)) }
    ensures status { TellsBad result }
    ensures sink_faults { SinkFaults result (K.faults sink.old) (K.faults sink.new) }
{
    match line {
        Ok(line) => match write_all(sink, &line) {
            Ok(()) => Status::BadImage,
            Err(WriteFault) => Status::WriteFault,
        },
        Err(NoMemory) => Status::NoMemory,
    }
}

// Tells why no database is opened.
fn tell_refusal<K: Sink>(alloc: Global, sink: &mut K, fault: OpenFault) -> Status
    ensures told { (before : List ℕ) → K.written sink.old ≡ Some before → IsToldOf fault result before (K.written sink.new) }
    ensures counts { (count before now : ℕ) → counted_by fault 0 count → CountsClosed count before now → DiskFaults result before now }
    ensures command { result ≢ Status.Usage }
    ensures sources { (count : ℕ) → SourceFaults result count count }
    ensures sink_faults { SinkFaults result (K.faults sink.old) (K.faults sink.new) }
{
    match fault {
        OpenFault::BadImage(bad) => tell(sink, rule_line(alloc, bad)),
        OpenFault::BadView(wrong) => tell(sink, row_line(alloc, &wrong)),
        OpenFault::DiskFault => Status::DiskFault,
        OpenFault::NoMemory => Status::NoMemory,
    }
}

// Runs the lines of a source on a core that was opened, and gives its disk back.
fn run_core<D: Disk, S: Source, K: Sink>(
    alloc: Global,
    core: Core<PageMaps, LogJournal<D>>,
    source: &mut S,
    sink: &mut K,
) -> (Status, D)
    requires opened { (p : Pages) × IsOpenOn D.is_told D.size_of D.seen D.may_leave D.moment D.left_since D.faults core p }
    requires sound { D.faults (disk_of core.journal) ≡ 0 }
    ensures output { (p : Pages) → IsOpenOn D.is_told D.size_of D.seen D.may_leave D.moment D.left_since D.faults core p → (input before : List ℕ) → S.left source.old ≡ Some input → K.written sink.old ≡ Some before → Output p.db result.0 input before (S.left source.new) (K.written sink.new) }
    ensures taken { (input : List ℕ) → S.left source.old ≡ Some input → Taken result.0 input (S.left source.new) }
    ensures kept { D.is_told → (p : Pages) → IsOpenOn D.is_told D.size_of D.seen D.may_leave D.moment D.left_since D.faults core p → (input before : List ℕ) → S.left source.old ≡ Some input → K.written sink.old ≡ Some before → IsKeptOn D.may_leave D.moment D.left_since D.faults result.1 p.db result.0 input before (K.written sink.new) }
    ensures lines { IsOfLines result.0 }
    ensures source_faults { SourceFaults result.0 (S.faults source.old) (S.faults source.new) }
    ensures sink_faults { SinkFaults result.0 (K.faults sink.old) (K.faults sink.new) }
{
    let mut core = core;
    let status = run_lines(alloc, &mut core, source, sink);
    (status, disk_behind(core))
}

// Runs the lines of a source on the database of a disk that was opened, which is closed then.
fn run_on_disk<O: Outside, S: Source, K: Sink>(
    alloc: Global,
    outside: &mut O,
    source: &mut S,
    sink: &mut K,
    disk: O::Disk,
) -> Status
    requires sound { O.Disk.faults disk ≡ 0 }
    ensures ran { (name input before : List ℕ) → (O.is_told → O.opened_as outside.old ≡ Some name) → S.left source.old ≡ Some input → K.written sink.old ≡ Some before → RanOn (λ c. O.Disk.is_told × (O.Disk.seen disk ≡ c)) (Stays O.is_told O.Disk.seen (O.lies outside.new name)) (StaysSafe O.is_told O.Disk.may_leave (O.Disk.may_leave disk) (O.lies outside.new name)) ⊥ (Keeps O.is_told O.Disk.is_told O.Disk.may_leave O.Disk.moment O.Disk.left_since O.Disk.faults (O.lies outside.new name) result input before (K.written sink.new)) (λ status. DiskFaults status (O.faults outside.old) (O.faults outside.new)) result input before (S.left source.new) (K.written sink.new) }
    ensures command { result ≢ Status.Usage }
    ensures others { O.is_told → (name : List ℕ) → O.opened_as outside.old ≡ Some name → OthersStay name (O.lies outside.old) (O.lies outside.new) }
    ensures disk_faults { FaultsOnDisk result (O.faults outside.old) (O.faults outside.new) }
    ensures source_faults { SourceFaults result (S.faults source.old) (S.faults source.new) }
    ensures sink_faults { SinkFaults result (K.faults sink.old) (K.faults sink.new) }
{
    match open_database(alloc, disk) {
        Ok(core) => {
            let (lines, disk) = run_core(alloc, core, source, sink);
            ended(lines, outside.close_disk(disk))
        }
        Err(refused) => {
            let OpenRefused { disk, fault } = refused;
            let status = tell_refusal(alloc, sink, fault);
            let _ = outside.close_disk(disk);
            status
        }
    }
}

/// Runs the lines of a source on the database that lies under a name, and prints their replies; or tells why none is opened.
pub fn script_on_disk<O: Outside, S: Source, K: Sink>(
    alloc: Global,
    outside: &mut O,
    source: &mut S,
    sink: &mut K,
    file: &str,
) -> Status
    ensures ran { (input before : List ℕ) → S.left source.old ≡ Some input → K.written sink.old ≡ Some before → RanOn (IsThere O.is_told O.Disk.is_told O.Disk.seen (O.lies outside.old file.now)) (Stays O.is_told O.Disk.seen (O.lies outside.new file.now)) (StaysSafe O.is_told O.Disk.may_leave (MightLeave O.Disk.may_leave (O.lies outside.old file.now)) (O.lies outside.new file.now)) (O.is_told → O.lies outside.new file.now ≡ O.lies outside.old file.now) (Keeps O.is_told O.Disk.is_told O.Disk.may_leave O.Disk.moment O.Disk.left_since O.Disk.faults (O.lies outside.new file.now) result input before (K.written sink.new)) (λ status. DiskFaults status (O.faults outside.old) (O.faults outside.new)) result input before (S.left source.new) (K.written sink.new) }
    ensures command { result ≢ Status.Usage }
    ensures others { O.is_told → OthersStay file.now (O.lies outside.old) (O.lies outside.new) }
    ensures disk_faults { FaultsOnDisk result (O.faults outside.old) (O.faults outside.new) }
    ensures source_faults { SourceFaults result (S.faults source.old) (S.faults source.new) }
    ensures sink_faults { SinkFaults result (K.faults sink.old) (K.faults sink.new) }
{
    match outside.open_disk(alloc, file) {
        Ok(disk) => run_on_disk(alloc, outside, source, sink, disk),
        Err(Unmade::Failed) => Status::DiskFault,
        Err(Unmade::NoMemory) => Status::NoMemory,
    }
}
