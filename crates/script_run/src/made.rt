//! The run of the script that `make` makes.
ghost use Rattle.std.specs.Prelude.{◌≡◌, ◌∷◌, ◌++◌, ◌+◌, ◌<◌, ◌≤◌, ◌^◌, ℕ, List, [], map, length, IfOk, OnOk, Some, string_bytes};
ghost use Rattle.iv_meaning.specs.Database.{Database};
ghost use Rattle.txn_machine.specs.Alone.{Story};
ghost use Rattle.made_script.specs.Made.{lines_before_last};
ghost use Rattle.session_table.specs.Going.{StandsIn};
ghost use Rattle.script_run.specs.Lines.{WasOpened, IsRunning};
ghost use Rattle.script_run.specs.Making.{HasMade, HasMadeLines};
ghost use Rattle.script_run.specs.Run.{SinkFaults};
ghost use Rattle.script_run.specs.Summary.{IsSummary, summary_text, Made, EndsMade};

use crate::line::one_line;
use crate::status::Status;
use crate::told::{is_rolled_back, lacks_memory};
use iv_types::NoMemory;
use line_wire::{Sink, WriteFault, write_all};
use made_script::{LAST_LINE, defining_lines, round_lines};
use session_table::SessionTable;
use std::alloc::Global;
use txn_book::Stepper;

// Runs a line; the text becomes its answer, and the count that of the lines so far that were rolled back. A line that is
// answered by code 29 ends the run.
fn answer<E: Stepper>(
    alloc: Global,
    engine: &mut E,
    table: &mut SessionTable,
    line: &[u8],
    text: &mut Vec<u8>,
    count: &mut u64,
) -> Result<(), NoMemory>
    requires running { IsRunning (E.stands engine.old) table.old }
    requires few { count.old + 1 < 2 ^ 64 }
    ensures running { OnOk result (IsRunning (E.stands engine.new) table.new) }
    ensures ran { (s : Story) (db : Database) (lines pieces : List (List ℕ)) → E.stands engine.old s.state → HasMade db lines pieces count.old table.old s
        → OnOk result (StandsIn (E.stands engine.new) (HasMade db (lines ++ line.now ∷ []) (pieces ++ text.new.items ∷ []) count.new table.new)) }
    ensures few { count.new ≤ count.old + 1 }
{
    text.clear();
    one_line(alloc, engine, table, line, text)?;
    if lacks_memory(text) {
        return Err(NoMemory);
    }
    if is_rolled_back(line, text) {
        *count += 1;
    }
    Ok(())
}

// Runs some lines, one after another.
fn answer_all<E: Stepper>(
    alloc: Global,
    engine: &mut E,
    table: &mut SessionTable,
    lines: &[String],
    text: &mut Vec<u8>,
    count: &mut u64,
) -> Result<(), NoMemory>
    requires running { IsRunning (E.stands engine.old) table.old }
    requires few { count.old + length lines.now < 2 ^ 64 }
    ensures running { OnOk result (IsRunning (E.stands engine.new) table.new) }
    ensures ran { (s : Story) (db : Database) (before : List (List ℕ)) → E.stands engine.old s.state → HasMadeLines db before count.old table.old s
        → OnOk result (StandsIn (E.stands engine.new) (HasMadeLines db (before ++ map string_bytes lines.now) count.new table.new)) }
    ensures few { count.new ≤ count.old + length lines.now }
{
    for line in lines {
        answer(alloc, engine, table, line.as_bytes(), text, count)?;
    }
    Ok(())
}

// Runs the lines before the last, on a new table.
fn run_rounds<E: Stepper>(
    alloc: Global,
    engine: &mut E,
    table: &mut SessionTable,
    number: u32,
    text: &mut Vec<u8>,
    count: &mut u64,
) -> Result<(), NoMemory>
    requires running { IsRunning (E.stands engine.old) table.old }
    requires none { count.old ≡ 0 }
    ensures running { OnOk result (IsRunning (E.stands engine.new) table.new) }
    ensures ran { (s : Story) (db : Database) → E.stands engine.old s.state → HasMadeLines db [] 0 table.old s
        → OnOk result (StandsIn (E.stands engine.new) (HasMadeLines db (lines_before_last number) count.new table.new)) }
    ensures few { OnOk result (count.new < 2 ^ 40) }
{
    let lines = defining_lines(alloc)?;
    answer_all(alloc, engine, table, &lines, text, count)?;
    for round in 0..number {
        let lines = round_lines(alloc, round + 1)?;
        answer_all(alloc, engine, table, &lines, text, count)?;
    }
    Ok(())
}

// The summary of a run.
fn summary(
    alloc: Global,
    number: u32,
    commit: u64,
    count: u64,
    last: &[u8],
) -> Result<Vec<u8>, NoMemory>
    ensures { IfOk result (λ text. text.items ≡ summary_text number commit count last.now) }
{
    let head = format!(in alloc; "MADE {number}\nCOMMIT {commit}\nROLLBACK {count}\n")?;
    let mut text = head.into_bytes();
    text.extend_from_slice(last)?;
    Ok(text)
}

// Runs the made script of so many rounds, and sums it up.
fn made<E: Stepper>(alloc: Global, engine: &mut E, number: u32) -> Result<Vec<u8>, NoMemory>
    requires opened { WasOpened (E.stands engine.old) }
    ensures { (o : WasOpened (E.stands engine.old)) → IfOk result (λ text. IsSummary o.db number text.items) }
{
    let mut table = SessionTable::new(alloc)?;
    let mut text = Vec::new(alloc);
    let mut count = 0u64;
    run_rounds(alloc, engine, &mut table, number, &mut text, &mut count)?;
    answer(alloc, engine, &mut table, LAST_LINE, &mut text, &mut count)?;
    summary(alloc, number, engine.number(), count, &text)
}

/// Runs the made script of so many rounds on an engine that was opened and did no step yet, and writes its summary to a sink:
/// the number of rounds, the greatest commit number, how many lines were rolled back, and the answer to the last line. Nothing
/// is written where a line is answered by code 29.
pub fn run_made<E: Stepper, K: Sink>(
    alloc: Global,
    engine: &mut E,
    sink: &mut K,
    number: u32,
) -> Status
    requires opened { WasOpened (E.stands engine.old) }
    ensures status { EndsMade result }
    ensures made { (o : WasOpened (E.stands engine.old)) (before : List ℕ) → K.written sink.old ≡ Some before → Made o.db result number before (K.written sink.new) }
    ensures sink_faults { SinkFaults result (K.faults sink.old) (K.faults sink.new) }
{
    match made(alloc, engine, number) {
        Ok(text) => match write_all(sink, &text) {
            Ok(()) => Status::Done,
            Err(WriteFault) => Status::WriteFault,
        },
        Err(NoMemory) => Status::NoMemory,
    }
}
