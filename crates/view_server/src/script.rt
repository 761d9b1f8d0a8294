//! The program's top call.
ghost use Rattle.std.specs.Prelude.{◌≡◌, ◌≢◌, ◌↔◌, ℕ, List, None, Some, IfOk};
ghost use Rattle.std.specs.FinMap.{empty};
ghost use Rattle.core_state.specs.Stands.{limited};
ghost use Rattle.txn_machine.specs.State.{opened_state};
ghost use Rattle.txn_machine.specs.Store.{opened};
ghost use Rattle.engine_core.specs.Standing.{IsInMemory};
ghost use Rattle.iv_meaning.specs.Database.{created};
ghost use Rattle.script_run.specs.Run.{Output, Taken, SourceFaults, SinkFaults};
ghost use Rattle.script_run.specs.Summary.{Made, EndsMade};
ghost use Rattle.command_words.specs.Words.{IsScript, IsScriptOn, IsMake, IsInit, IsCommand};
ghost use Rattle.outside.specs.Outside.{OthersStay};
ghost use Rattle.view_server.specs.declared.script.TheConstants.{DATA_LIMIT};
ghost use Rattle.view_server.specs.Init.{DiskFaults, EndsInit, HasBlank, IsMade, ToldInit};
ghost use Rattle.view_server.specs.OnDisk.{FaultsOnDisk, IsThere, Keeps, MightLeave, RanOn, Stays, StaysSafe};
ghost use Rattle.view_server.specs.Usage.{ToldUsage};

use crate::init::init;
use crate::on_disk::script_on_disk;
use command_words::{Asked, DEFAULT_PAGES, is_command, read_words};
use core_journal::NoJournal;
use engine_core::Core;
use iv_types::NoMemory;
use line_wire::{Sink, Source, write_all};
use ordered_index::PageMaps;
use outside::Outside;
use script_run::{Status, run_lines, run_made};
use std::alloc::Global;
use txn_machine::steps::empty_law;

const USAGE: &[u8] = b"usage: iv init FILE, script FILE, serve FILE, make NUMBER\n";

/// What the data of a new database may count, in bytes: 1,200 for each page but 256.
const DATA_LIMIT: u32 = (DEFAULT_PAGES - 256) * 1200;

// Lets an engine go. Its drop is proved here alone.
fn let_go(engine: Core<PageMaps, NoJournal>) {
    let _ = engine;
}

// An engine on an empty database.
fn new_engine(alloc: Global) -> Result<Core<PageMaps, NoJournal>, NoMemory>
    ensures { IfOk result (λ engine. IsInMemory engine (opened_state (limited None (Some DATA_LIMIT)) (opened created empty))) }
{
    let maps = PageMaps::new(alloc, DEFAULT_PAGES)?;
    Core::new(alloc, maps, NoJournal { limit: None }, None, DATA_LIMIT, 0)
}

// Runs the lines of a source on an engine that was opened on an empty database.
fn run_on<S: Source, K: Sink>(
    alloc: Global,
    engine: &mut Core<PageMaps, NoJournal>,
    source: &mut S,
    sink: &mut K,
) -> Status
    requires { IsInMemory engine.old (opened_state (limited None (Some DATA_LIMIT)) (opened created empty)) }
    ensures command { result ≢ Status.Usage }
    ensures disks { result ≢ Status.DiskFault }
    ensures output { (input before : List ℕ) → S.left source.old ≡ Some input → K.written sink.old ≡ Some before → Output created result input before (S.left source.new) (K.written sink.new) }
    ensures taken { (input : List ℕ) → S.left source.old ≡ Some input → Taken result input (S.left source.new) }
    ensures source_faults { SourceFaults result (S.faults source.old) (S.faults source.new) }
    ensures sink_faults { SinkFaults result (K.faults sink.old) (K.faults sink.new) }
{
    empty_law();
    run_lines(alloc, engine, source, sink)
}

// Runs the lines of a source on a new database.
fn run_script<S: Source, K: Sink>(alloc: Global, source: &mut S, sink: &mut K) -> Status
    ensures command { result ≢ Status.Usage }
    ensures disks { result ≢ Status.DiskFault }
    ensures output { (input before : List ℕ) → S.left source.old ≡ Some input → K.written sink.old ≡ Some before → Output created result input before (S.left source.new) (K.written sink.new) }
    ensures taken { (input : List ℕ) → S.left source.old ≡ Some input → Taken result input (S.left source.new) }
    ensures source_faults { SourceFaults result (S.faults source.old) (S.faults source.new) }
    ensures sink_faults { SinkFaults result (K.faults sink.old) (K.faults sink.new) }
{
    match new_engine(alloc) {
        Ok(engine) => {
            let mut engine = engine;
            let status = run_on(alloc, &mut engine, source, sink);
            let_go(engine);
            status
        }
        Err(NoMemory) => Status::NoMemory,
    }
}

// Runs the made script of so many rounds on an engine that was opened on an empty database.
fn make_on<K: Sink>(
    alloc: Global,
    engine: &mut Core<PageMaps, NoJournal>,
    sink: &mut K,
    number: u32,
) -> Status
    requires { IsInMemory engine.old (opened_state (limited None (Some DATA_LIMIT)) (opened created empty)) }
    ensures status { EndsMade result }
    ensures made { (before : List ℕ) → K.written sink.old ≡ Some before → Made created result number before (K.written sink.new) }
    ensures sink_faults { SinkFaults result (K.faults sink.old) (K.faults sink.new) }
{
    empty_law();
    run_made(alloc, engine, sink, number)
}

// Runs the made script of so many rounds on a new database.
fn make<K: Sink>(alloc: Global, sink: &mut K, number: u32) -> Status
    ensures status { EndsMade result }
    ensures made { (before : List ℕ) → K.written sink.old ≡ Some before → Made created result number before (K.written sink.new) }
    ensures sink_faults { SinkFaults result (K.faults sink.old) (K.faults sink.new) }
{
    match new_engine(alloc) {
        Ok(engine) => {
            let mut engine = engine;
            let status = make_on(alloc, &mut engine, sink, number);
            let_go(engine);
            status
        }
        Err(NoMemory) => Status::NoMemory,
    }
}

/// Does what the program's words, without its name, ask for. For `script -` the lines of the source are run as a script, and the
/// replies go to the sink; they wait until the source is to be asked for more, or until they fill a buffer. For `script FILE` they are run
/// on the database of the disk FILE of the outside, or the sink is told why it has none. For `make NUMBER`
/// the made script of so many rounds is run, and its summary goes to the sink. For `init FILE` a new database is made on the disk
/// FILE of the outside, and its sizes go to the sink. Nothing is taken from the source but for a script, and nothing is asked of
/// the outside but for `init` and `script FILE`.
#[tactic(auto, using(crate::proofs::Naming::geometry_of))]
pub fn run<O: Outside, S: Source, K: Sink>(
    alloc: Global,
    words: &[String],
    outside: &mut O,
    source: &mut S,
    sink: &mut K,
) -> Status
    // The usage line is printed exactly where the words are no command.
    ensures usage { (result ≡ Status.Usage) ↔ ¬ (IsCommand words.now) }
    ensures told { (before : List ℕ) → K.written sink.old ≡ Some before → result ≡ Status.Usage → ToldUsage before (K.written sink.new) (K.faults sink.old) (K.faults sink.new) }

    // A script: where the source tells its bytes and the sink what was written, the output is that of the input, on a database
    // that is empty at first.
    ensures output { IsScript words.now → (input before : List ℕ) → S.left source.old ≡ Some input → K.written sink.old ≡ Some before → Output created result input before (S.left source.new) (K.written sink.new) }
    ensures taken { IsScript words.now → (input : List ℕ) → S.left source.old ≡ Some input → Taken result input (S.left source.new) }

    // A script on a disk: the database is what the image on the disk of that name recovers to, where the outside tells its disks, and the
    // output is that of the input on it, and a crash at any moment since it was opened, or afterwards, recovers what was committed; or the
    // image is refused, for what is told, and the disk reads as before; or no line is read, and a crash leaves the image that lay there,
    // or one that recovers to the same database.
    ensures on_disk { (file : List ℕ) → IsScriptOn file words.now → (input before : List ℕ) → S.left source.old ≡ Some input → K.written sink.old ≡ Some before → RanOn (IsThere O.is_told O.Disk.is_told O.Disk.seen (O.lies outside.old file)) (Stays O.is_told O.Disk.seen (O.lies outside.new file)) (StaysSafe O.is_told O.Disk.may_leave (MightLeave O.Disk.may_leave (O.lies outside.old file)) (O.lies outside.new file)) (O.is_told → O.lies outside.new file ≡ O.lies outside.old file) (Keeps O.is_told O.Disk.is_told O.Disk.may_leave O.Disk.moment O.Disk.left_since O.Disk.faults (O.lies outside.new file) result input before (K.written sink.new)) (λ status. DiskFaults status (O.faults outside.old) (O.faults outside.new)) result input before (S.left source.new) (K.written sink.new) }
    ensures disk_kept { O.is_told → (file : List ℕ) → IsScriptOn file words.now → OthersStay file (O.lies outside.old) (O.lies outside.new) }
    ensures on_disk_faults { (file : List ℕ) → IsScriptOn file words.now → FaultsOnDisk result (O.faults outside.old) (O.faults outside.new) }

    // A made script: what is written is the summary of a run of its lines, on a database that is empty at first.
    ensures made { (number : ℕ) → IsMake number words.now → (before : List ℕ) → K.written sink.old ≡ Some before → Made created result number before (K.written sink.new) }
    ensures made_status { (number : ℕ) → IsMake number words.now → EndsMade result }

    // A new database: its sizes are told, and where the outside tells its disks, the disk of that name bears a database of these
    // sizes that defines nothing, and a crash leaves nothing else of it.
    ensures init { (file : List ℕ) (pages log_kib : ℕ) → IsInit file pages log_kib words.now → (before : List ℕ) → K.written sink.old ≡ Some before → ToldInit result pages log_kib before (K.written sink.new) }
    ensures init_status { (file : List ℕ) (pages log_kib : ℕ) → IsInit file pages log_kib words.now → EndsInit result }
    ensures blank { O.is_told → O.Disk.is_told → (file : List ℕ) (pages log_kib : ℕ) → IsInit file pages log_kib words.now → IsMade result → HasBlank O.Disk.seen O.Disk.may_leave (O.lies outside.new file) pages log_kib }
    ensures other_disks { O.is_told → (file : List ℕ) (pages log_kib : ℕ) → IsInit file pages log_kib words.now → OthersStay file (O.lies outside.old) (O.lies outside.new) }

    // Only scripts take from the source, and only `init` and a script on a disk ask for a disk.
    ensures untouched { (IsScript words.now → ⊥) → ((file : List ℕ) → IsScriptOn file words.now → ⊥) → source.new ≡ source.old }
    ensures no_disks { ((file : List ℕ) (pages log_kib : ℕ) → IsInit file pages log_kib words.now → ⊥) → ((file : List ℕ) → IsScriptOn file words.now → ⊥) → outside.new ≡ outside.old }

    // A fault is told only where there was one.
    ensures disk_faults { ((file : List ℕ) → IsScriptOn file words.now → ⊥) → DiskFaults result (O.faults outside.old) (O.faults outside.new) }
    ensures source_faults { SourceFaults result (S.faults source.old) (S.faults source.new) }
    ensures sink_faults { SinkFaults result (K.faults sink.old) (K.faults sink.new) }
{
    if !is_command(words) {
        let _ = write_all(sink, USAGE);
        return Status::Usage;
    }
    match read_words(alloc, words) {
        Ok(Asked::Script) => run_script(alloc, source, sink),
        Ok(Asked::ScriptOn(file)) => script_on_disk(alloc, outside, source, sink, file),
        Ok(Asked::Make(number)) => make(alloc, sink, number),
        Ok(Asked::Init(database)) => init(alloc, outside, sink, &database),
        Err(NoMemory) => Status::NoMemory,
    }
}
