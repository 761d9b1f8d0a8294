//! Answers as they are taken apart: each step has its own, or is refused.
ghost use Rattle.txn_book.specs.Acts.{answer_of};
ghost use Rattle.txn_sessions.specs.Answers.{WasBegun, WasDefs, WasRows, WasChanged, WasPaid, WasGhosted, WasUndone, WasEnded, WasCommitted, WasCreated};
ghost use Rattle.txn_sessions.specs.Fits.{IsBegun, IsDefs, IsRows, IsChanged, IsPaid, IsGhosted, IsUndone, IsEnded, IsCommitted, IsCreated};

use iv_types::{Catalog, DeltaList, EngineRefusal, Refusal, Row, RowList};
use txn_book::Answer;

/// What Pay was answered.
#[derive(Clone, Copy)]
pub enum Paid {
    Done,
    NeedsGhost,
    Refused(EngineRefusal),
}

/// What Schema was answered.
#[derive(Drop)]
pub enum Created {
    Committed(u64),
    Denied(Refusal),
    Refused(EngineRefusal),
}

/// What Begin was answered: the greatest commit number, and how many definitions there are.
pub fn begun(answer: Answer) -> Result<(u64, u32), EngineRefusal>
    requires { IsBegun (answer_of answer) }
    ensures { WasBegun result (answer_of answer) }
{
    match answer {
        Answer::Begun { number, defs } => Ok((number, defs)),
        Answer::Refused(why) => Err(why),
        _ => unreachable!(),
    }
}

/// What Defs was answered.
pub fn defs(answer: Answer) -> Result<Catalog, EngineRefusal>
    requires { IsDefs (answer_of answer) }
    ensures { WasDefs result (answer_of answer) }
{
    match answer {
        Answer::Defs(catalog) => Ok(catalog),
        Answer::Refused(why) => Err(why),
        _ => unreachable!(),
    }
}

/// What Fetch or Peek was answered.
pub fn rows(answer: Answer) -> Result<RowList, EngineRefusal>
    requires { IsRows (answer_of answer) }
    ensures { WasRows result (answer_of answer) }
{
    match answer {
        Answer::Rows(rows) => Ok(rows),
        Answer::Refused(why) => Err(why),
        _ => unreachable!(),
    }
}

/// What Put was answered: the row that was there, and what the change owes.
pub fn changed(answer: Answer) -> Result<(Option<Row>, DeltaList), EngineRefusal>
    requires { IsChanged (answer_of answer) }
    ensures { WasChanged result (answer_of answer) }
{
    match answer {
        Answer::Changed { before, owed } => Ok((before, owed)),
        Answer::Refused(why) => Err(why),
        _ => unreachable!(),
    }
}

/// What Pay was answered.
pub fn pay_told(answer: Answer) -> Paid
    requires { IsPaid (answer_of answer) }
    ensures { WasPaid result (answer_of answer) }
{
    match answer {
        Answer::Paid { left: _ } => Paid::Done,
        Answer::NeedsGhost => Paid::NeedsGhost,
        Answer::Refused(why) => Paid::Refused(why),
        _ => unreachable!(),
    }
}

/// What Ghost was answered.
pub fn ghosted(answer: Answer) -> Result<(), EngineRefusal>
    requires { IsGhosted (answer_of answer) }
    ensures { WasGhosted result (answer_of answer) }
{
    match answer {
        Answer::Ghosted => Ok(()),
        Answer::Refused(why) => Err(why),
        _ => unreachable!(),
    }
}

/// What UndoOne was answered.
pub fn undone(answer: Answer) -> Result<(), EngineRefusal>
    requires { IsUndone (answer_of answer) }
    ensures { WasUndone result (answer_of answer) }
{
    match answer {
        Answer::Undone { left: _ } => Ok(()),
        Answer::Refused(why) => Err(why),
        _ => unreachable!(),
    }
}

/// What End was answered.
pub fn ended(answer: Answer) -> Result<(), EngineRefusal>
    requires { IsEnded (answer_of answer) }
    ensures { WasEnded result (answer_of answer) }
{
    match answer {
        Answer::Ended => Ok(()),
        Answer::Refused(why) => Err(why),
        _ => unreachable!(),
    }
}

/// What Commit was answered.
pub fn committed(answer: Answer) -> Result<u64, EngineRefusal>
    requires { IsCommitted (answer_of answer) }
    ensures { WasCommitted result (answer_of answer) }
{
    match answer {
        Answer::Committed(number) => Ok(number),
        Answer::Refused(why) => Err(why),
        _ => unreachable!(),
    }
}

/// What Schema was answered.
pub fn create_told(answer: Answer) -> Created
    requires { IsCreated (answer_of answer) }
    ensures { WasCreated result (answer_of answer) }
{
    match answer {
        Answer::Committed(number) => Created::Committed(number),
        Answer::Denied(why) => Created::Denied(why),
        Answer::Refused(why) => Created::Refused(why),
        _ => unreachable!(),
    }
}
