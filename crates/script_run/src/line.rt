//! A line of a script.
ghost use Rattle.std.specs.Prelude.{◌≡◌, ℕ, List, OnOk, OnErr};
ghost use Rattle.iv_meaning.specs.Database.{Database};
ghost use Rattle.iv_meaning.specs.Said.{Said, too_long, Says};
ghost use Rattle.txn_machine.specs.Alone.{Story};
ghost use Rattle.line_requests.specs.Requests.{SaysSo, IsRequest};
ghost use Rattle.session_table.specs.Going.{StandsIn, Leads};
ghost use Rattle.script_run.specs.Lines.{HasRun, IsRunning, RanOneMore};

use iv_types::NoMemory;
use line_requests::{Request, request};
use line_wire::LONGEST_LINE;
use session_table::SessionTable;
use std::alloc::Global;
use txn_book::Stepper;

// What a line asks for, of whatever length it is.
fn asked(alloc: Global, line: &[u8]) -> Request
    ensures says { (said : Said) → SaysSo result said → Says line.now said }
    ensures is { IsRequest result }
{
    if line.len() > LONGEST_LINE {
        return Request::TooLong;
    }
    request(alloc, line)
}

/// Runs a line, and then goes on with the sessions that wait. What they print is written behind a text.
///
/// # Errors
///
/// Where there is no memory for what is printed. The engine stands where some steps led it; the text and the table are not to be used any
/// more then.
pub fn one_line<E: Stepper>(
    alloc: Global,
    engine: &mut E,
    table: &mut SessionTable,
    line: &[u8],
    text: &mut Vec<u8>,
) -> Result<(), NoMemory>
    requires running { IsRunning (E.stands engine.old) table.old }
    ensures ran { (s : Story) (db : Database) (lines : List Said) (out : List ℕ) → E.stands engine.old s.state → HasRun db lines out table.old s
        → OnOk result (StandsIn (E.stands engine.new) (RanOneMore db lines out (Says line.now) table.old s text.old.items text.new.items table.new)) }
    ensures lost { (s : Story) (db : Database) (lines : List Said) (out : List ℕ) → E.stands engine.old s.state → HasRun db lines out table.old s → OnErr result (StandsIn (E.stands engine.new) (Leads s)) }
{
    let request = asked(alloc, line);
    table.run_line(alloc, engine, text, request)
}

/// Refuses a line that was too long to be read, and then goes on with the sessions that wait, as `one_line` does.
///
/// # Errors
///
/// As of `one_line`.
pub fn long_line<E: Stepper>(
    alloc: Global,
    engine: &mut E,
    table: &mut SessionTable,
    text: &mut Vec<u8>,
) -> Result<(), NoMemory>
    requires running { IsRunning (E.stands engine.old) table.old }
    ensures ran { (s : Story) (db : Database) (lines : List Said) (out : List ℕ) → E.stands engine.old s.state → HasRun db lines out table.old s
        → OnOk result (StandsIn (E.stands engine.new) (RanOneMore db lines out (λ said. said ≡ too_long) table.old s text.old.items text.new.items table.new)) }
    ensures lost { (s : Story) (db : Database) (lines : List Said) (out : List ℕ) → E.stands engine.old s.state → HasRun db lines out table.old s → OnErr result (StandsIn (E.stands engine.new) (Leads s)) }
{
    table.run_line(alloc, engine, text, Request::TooLong)
}
