//! The lines of a source.
ghost use Rattle.std.specs.Prelude.{◌≡◌, ◌≢◌, ◌++◌, ◌∷◌, ◌≤◌, ℕ, true, List, [], OnOk, OnErr, IsErr, Some};
ghost use Rattle.iv_types.specs.Faults.{CountsFault};
ghost use Rattle.iv_meaning.specs.Database.{Database};
ghost use Rattle.iv_meaning.specs.Said.{Said, too_long, Says};
ghost use Rattle.txn_machine.specs.Alone.{Story};
ghost use Rattle.line_wire.specs.Wire.{WroteFront};
ghost use Rattle.session_table.specs.Going.{StandsIn, Leads};
ghost use Rattle.script_run.specs.Lines.{WasOpened, HasRun, IsRunning, RanOneMore, Rests};
ghost use Rattle.script_run.specs.Recovered.{Ends, Survives};
ghost use Rattle.script_run.specs.Run.{Output, Taken, SourceFaults, SinkFaults};
ghost use Rattle.script_run.specs.Writing.{MovesOn, Finishes, FinishFaults};

use crate::line::{long_line, one_line};
use crate::status::Status;
use iv_types::NoMemory;
use line_wire::{Line, LineBuffer, LineFault, Sink, Source, WriteFault, read_line, write_all};
use session_table::SessionTable;
use std::alloc::Global;
use txn_book::Stepper;

// So many bytes of replies do not wait any longer.
const MOST_WAITING: usize = 65536;

// Answers a line that was read, behind the replies that wait; the text is room for the answer.
fn answer_line<E: Stepper>(
    alloc: Global,
    engine: &mut E,
    table: &mut SessionTable,
    line: &[u8],
    waiting: &mut Vec<u8>,
    text: &mut Vec<u8>,
) -> Result<(), NoMemory>
    requires running { IsRunning (E.stands engine.old) table.old }
    ensures ok { (s : Story) (db : Database) (lines : List Said) (out : List ℕ) → E.stands engine.old s.state → HasRun db lines out table.old s
        → OnOk result (StandsIn (E.stands engine.new) (RanOneMore db lines out (Says line.now) table.old s waiting.old.items waiting.new.items table.new)) }
    ensures lost { (s : Story) (db : Database) (lines : List Said) (out : List ℕ) → E.stands engine.old s.state → HasRun db lines out table.old s → OnErr result (StandsIn (E.stands engine.new) (Leads s)) }
    ensures err { OnErr result (waiting.new.items ≡ waiting.old.items) }
{
    text.clear();
    one_line(alloc, engine, table, line, text)?;
    waiting.extend_from_slice(text)?;
    Ok(())
}

// Answers a line that was too long to be read.
fn refuse_line<E: Stepper>(
    alloc: Global,
    engine: &mut E,
    table: &mut SessionTable,
    waiting: &mut Vec<u8>,
    text: &mut Vec<u8>,
) -> Result<(), NoMemory>
    requires running { IsRunning (E.stands engine.old) table.old }
    ensures ok { (s : Story) (db : Database) (lines : List Said) (out : List ℕ) → E.stands engine.old s.state → HasRun db lines out table.old s
        → OnOk result (StandsIn (E.stands engine.new) (RanOneMore db lines out (λ said. said ≡ too_long) table.old s waiting.old.items waiting.new.items table.new)) }
    ensures lost { (s : Story) (db : Database) (lines : List Said) (out : List ℕ) → E.stands engine.old s.state → HasRun db lines out table.old s → OnErr result (StandsIn (E.stands engine.new) (Leads s)) }
    ensures err { OnErr result (waiting.new.items ≡ waiting.old.items) }
{
    text.clear();
    long_line(alloc, engine, table, text)?;
    waiting.extend_from_slice(text)?;
    Ok(())
}

// Writes the replies that wait, where it is due.
fn flush<K: Sink>(sink: &mut K, waiting: &mut Vec<u8>, due: bool) -> Result<(), WriteFault>
    ensures ok { (before : List ℕ) → K.written sink.old ≡ Some before → OnOk result (MovesOn before waiting.old.items waiting.new.items (K.written sink.new)) }
    ensures due { due ≡ true → OnOk result (waiting.new.items ≡ []) }
    ensures err { (before : List ℕ) → K.written sink.old ≡ Some before → OnErr result (WroteFront before waiting.old.items (K.written sink.new)) }
    ensures fault { CountsFault result (K.faults sink.old) (K.faults sink.new) }
{
    if !due {
        return Ok(());
    }
    write_all(sink, waiting)?;
    waiting.clear();
    Ok(())
}

// Writes the replies that wait, and ends.
fn finish<K: Sink>(sink: &mut K, waiting: &[u8], status: Status) -> Status
    ensures written { (before : List ℕ) → K.written sink.old ≡ Some before → Finishes status result before waiting.now (K.written sink.new) }
    ensures fault { FinishFaults status result (K.faults sink.old) (K.faults sink.new) }
{
    match write_all(sink, waiting) {
        Ok(()) => status,
        Err(WriteFault) => Status::WriteFault,
    }
}

/// Runs the lines of a source on an engine that was opened and did no step yet, and writes their replies to a sink. Replies
/// wait until the source is to be asked for more, or until they fill a buffer. At the end of the input what sessions wait for
/// is forgotten, and the transactions that are still open are rolled back.
pub fn run_lines<E: Stepper, S: Source, K: Sink>(
    alloc: Global,
    engine: &mut E,
    source: &mut S,
    sink: &mut K,
) -> Status
    requires opened { WasOpened (E.stands engine.old) }
    ensures command { result ≢ Status.Usage }
    ensures disks { result ≢ Status.DiskFault }
    ensures images { result ≢ Status.BadImage }
    ensures output { (o : WasOpened (E.stands engine.old)) (input before : List ℕ) → S.left source.old ≡ Some input → K.written sink.old ≡ Some before → Output o.db result input before (S.left source.new) (K.written sink.new) }
    ensures ends { (o : WasOpened (E.stands engine.old)) (input before : List ℕ) → S.left source.old ≡ Some input → K.written sink.old ≡ Some before → StandsIn (E.stands engine.new) (Ends o.db o.opening result input before (K.written sink.new)) }
    ensures crash { E.is_told → (o : WasOpened (E.stands engine.old)) (input before : List ℕ) → S.left source.old ≡ Some input → K.written sink.old ≡ Some before → Survives o.db result input before (K.written sink.new) (E.recovered_since engine.new o.opening.moment) (E.may_recover engine.new) }
    ensures rests { result ≡ Status.Done → StandsIn (E.stands engine.new) Rests }
    ensures taken { (input : List ℕ) → S.left source.old ≡ Some input → Taken result input (S.left source.new) }
    ensures source_faults { SourceFaults result (S.faults source.old) (S.faults source.new) }
    ensures sink_faults { SinkFaults result (K.faults sink.old) (K.faults sink.new) }
{
    let Ok(mut lines) = LineBuffer::new(alloc) else {
        return Status::NoMemory;
    };
    let Ok(mut table) = SessionTable::new(alloc) else {
        return Status::NoMemory;
    };
    let mut waiting = Vec::new(alloc);
    let mut text = Vec::new(alloc);
    loop {
        // Before the source is asked for more, whoever waits for the replies gets them.
        let due = waiting.len() >= MOST_WAITING || !lines.holds_line();
        if let Err(WriteFault) = flush(sink, &mut waiting, due) {
            return Status::WriteFault;
        }
        match read_line(source, &mut lines) {
            Ok(Line::End) => {
                table.leave(engine);
                return finish(sink, &waiting, Status::Done);
            }
            Ok(Line::Text) => {
                if let Err(NoMemory) = answer_line(
                    alloc,
                    engine,
                    &mut table,
                    lines.text(),
                    &mut waiting,
                    &mut text,
                ) {
                    return finish(sink, &waiting, Status::NoMemory);
                }
            }
            Ok(Line::TooLong) => {
                if let Err(NoMemory) = refuse_line(
                    alloc,
                    engine,
                    &mut table,
                    &mut waiting,
                    &mut text,
                ) {
                    return finish(sink, &waiting, Status::NoMemory);
                }
            }
            Err(LineFault::ReadFault) => return finish(sink, &waiting, Status::ReadFault),
            Err(LineFault::TooMuch) => return finish(sink, &waiting, Status::TooMuch),
        }
    }
}
