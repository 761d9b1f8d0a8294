//! Lines of sessions.
ghost use Rattle.std.specs.Prelude.{◌≡◌, ◌⊎◌, ◌++◌, ℕ, OnOk, OnErr, OnSome, true, false};
ghost use Rattle.txn_machine.specs.Alone.{Story};
ghost use Rattle.script_law.specs.RunLines.{printed};
ghost use Rattle.txn_sessions.specs.Sessions.{todo_of, IsIdle};
ghost use Rattle.txn_sessions.specs.Within.{IsWithin};
ghost use Rattle.line_requests.specs.declared.asked.Ask.TheVariants as ask;
ghost use Rattle.line_requests.specs.Requests.{read_of, IsAsk, WasRead};
ghost use Rattle.session_table.specs.declared.slot.LineKind.TheVariants.{Idle, Waiting, Stepping, Held};
ghost use Rattle.session_table.specs.Going.{StandsIn, Leads, MayGo, outcome_in, HasCome};
ghost use Rattle.session_table.specs.Slots.{FitsLine};
ghost use Rattle.session_table.specs.Requests.{Began, Gave, kept_line, WentOnce, SlotDid};

use crate::going::{Came, Went, finished, go_on, has_ended, step_on};
use crate::print::{push_one, tell_replies};
use crate::slot::{LineKind, Slot};
use iv_types::{NoMemory, Refusal, Reply, Statement};
use line_requests::Ask;
use std::alloc::Global;
use txn_book::Stepper;
use txn_sessions::Session;

// One step of a session's statement, if it has not ended.
fn go_once<S: Stepper>(engine: &mut S, session: &mut Session) -> Came
    requires busy { IsIdle session.old → ⊥ }
    requires engine { StandsIn (S.stands engine.old) (MayGo session.old) }
    ensures once { (s : Story) → S.stands engine.old s.state → MayGo session.old s → StandsIn (S.stands engine.new) (WentOnce s session.old result session.new) }
    ensures number { session.new.number ≡ session.old.number }
    ensures idle { HasCome result session.new }
{
    if has_ended(session) {
        return Came::Ended(finished(session));
    }
    if let Some(sessions) = step_on(engine, session) {
        return Came::Stuck(sessions);
    }
    if has_ended(session) {
        return Came::Ended(finished(session));
    }
    Came::Stepped
}

// A text that is given to no session is let go here alone.
fn let_go_read(read: Result<Statement, Refusal>) {
    match read {
        Ok(statement) => statement.let_go(),
        Err(why) => why.let_go(),
    }
}

// Begins the statement of a text, if it is one.
fn begin(session: &mut Session, read: Result<Statement, Refusal>) -> Option<Refusal>
    requires { IsIdle session.old }
    ensures began { Began session.old (read_of read) result session.new }
    ensures number { session.new.number ≡ session.old.number }
    ensures within { (n : ℕ) → IsWithin n session.old → IsWithin n session.new }
{
    match read {
        Ok(statement) => session.start(statement).err(),
        Err(why) => Some(why),
    }
}

// Gives a text to a session, which may refuse it.
fn give(slot: &mut Slot, read: Result<Statement, Refusal>) -> Option<Refusal>
    requires fits { FitsLine slot.old.line slot.old.session }
    ensures gave { Gave slot.old (read_of read) result slot.new }
    ensures fits { OnSome result (FitsLine slot.new.line slot.new.session) }
    ensures number { slot.new.session.number ≡ slot.old.session.number }
    ensures within { (n : ℕ) → IsWithin n slot.old.session → IsWithin n slot.new.session }
{
    match slot.line {
        LineKind::Idle => begin(&mut slot.session, read),
        _ => {
            let_go_read(read);
            Some(Refusal::SessionWaiting)
        }
    }
}

// Prints how far a statement came, and keeps its line where it has not ended.
fn tell(
    alloc: Global,
    slot: &mut Slot,
    text: &mut Vec<u8>,
    came: Came,
    stuck: LineKind,
    stepped: LineKind,
) -> Result<(), NoMemory>
    ensures session { slot.new.session ≡ slot.old.session }
    ensures line { slot.new.line ≡ kept_line stuck stepped came }
    ensures told { OnOk result (text.new.items ≡ text.old.items ++ printed slot.old.session.number (outcome_in came (todo_of slot.old.session))) }
{
    let number = slot.session.number();
    match came {
        Came::Ended(replies) => {
            slot.line = LineKind::Idle;
            tell_replies(alloc, text, number, replies)
        }
        Came::Stuck(sessions) => {
            slot.line = stuck;
            push_one(alloc, text, number, Reply::Wait(sessions))
        }
        Came::Stepped => {
            slot.line = stepped;
            push_one(alloc, text, number, Reply::Step)
        }
    }
}

// A line `N: ..`.
fn run_text<S: Stepper>(
    alloc: Global,
    engine: &mut S,
    slot: &mut Slot,
    text: &mut Vec<u8>,
    read: Result<Statement, Refusal>,
) -> Result<(), NoMemory>
    requires read { WasRead read }
    requires fits { FitsLine slot.old.line slot.old.session }
    requires engine { StandsIn (S.stands engine.old) (MayGo slot.old.session) }
    ensures did { OnOk result ((s : Story) → S.stands engine.old s.state → MayGo slot.old.session s → StandsIn (S.stands engine.new) (SlotDid slot.old.session.number (ask.Runs read) s slot.old text.old.items slot.new text.new.items)) }
    ensures lost { OnErr result ((s : Story) → S.stands engine.old s.state → MayGo slot.old.session s → StandsIn (S.stands engine.new) (Leads s)) }
    ensures number { slot.new.session.number ≡ slot.old.session.number }
    ensures fits { FitsLine slot.new.line slot.new.session }
{
    if let Some(why) = give(slot, read) {
        return push_one(alloc, text, slot.session.number(), Reply::Error(why));
    }
    let Went { moved: _, came } = go_on(engine, &mut slot.session);
    tell(
        alloc,
        slot,
        text,
        came,
        LineKind::Waiting,
        LineKind::Waiting,
    )
}

// A line `N/ ..`.
fn load_text(
    alloc: Global,
    slot: &mut Slot,
    text: &mut Vec<u8>,
    read: Result<Statement, Refusal>,
) -> Result<(), NoMemory>
    requires read { WasRead read }
    requires fits { FitsLine slot.old.line slot.old.session }
    ensures did { OnOk result ((s : Story) → MayGo slot.old.session s → SlotDid slot.old.session.number (ask.Loads read) s slot.old text.old.items slot.new text.new.items s) }
    ensures within { (n : ℕ) → IsWithin n slot.old.session → IsWithin n slot.new.session }
    ensures number { slot.new.session.number ≡ slot.old.session.number }
    ensures fits { FitsLine slot.new.line slot.new.session }
{
    if let Some(why) = give(slot, read) {
        return push_one(alloc, text, slot.session.number(), Reply::Error(why));
    }
    tell(
        alloc,
        slot,
        text,
        Came::Stepped,
        LineKind::Held,
        LineKind::Stepping,
    )
}

// Whether a line is one `N/ ..`.
fn is_stepping(line: LineKind) -> bool
    ensures steps { result ≡ true → (line ≡ Stepping) ⊎ (line ≡ Held) }
    ensures rests { result ≡ false → (line ≡ Idle) ⊎ (line ≡ Waiting) }
{
    match line {
        LineKind::Stepping => true,
        LineKind::Held => true,
        LineKind::Idle => false,
        LineKind::Waiting => false,
    }
}

// A line `N+`.
fn step_line<S: Stepper>(
    alloc: Global,
    engine: &mut S,
    slot: &mut Slot,
    text: &mut Vec<u8>,
) -> Result<(), NoMemory>
    requires fits { FitsLine slot.old.line slot.old.session }
    requires engine { StandsIn (S.stands engine.old) (MayGo slot.old.session) }
    ensures did { OnOk result ((s : Story) → S.stands engine.old s.state → MayGo slot.old.session s → StandsIn (S.stands engine.new) (SlotDid slot.old.session.number ask.Steps s slot.old text.old.items slot.new text.new.items)) }
    ensures lost { OnErr result ((s : Story) → S.stands engine.old s.state → MayGo slot.old.session s → StandsIn (S.stands engine.new) (Leads s)) }
    ensures number { slot.new.session.number ≡ slot.old.session.number }
    ensures fits { FitsLine slot.new.line slot.new.session }
{
    if !is_stepping(slot.line) {
        return push_one(alloc, text, 0, Reply::Error(Refusal::BadLine));
    }
    let came = go_once(engine, &mut slot.session);
    tell(alloc, slot, text, came, LineKind::Held, LineKind::Stepping)
}

/// What a session's line does itself. What it prints is written behind a text.
///
/// # Errors
///
/// Where there is no memory for what is printed.
pub fn session_line<S: Stepper>(
    alloc: Global,
    engine: &mut S,
    slot: &mut Slot,
    text: &mut Vec<u8>,
    ask: Ask,
) -> Result<(), NoMemory>
    requires ask { IsAsk ask }
    requires fits { FitsLine slot.old.line slot.old.session }
    requires engine { StandsIn (S.stands engine.old) (MayGo slot.old.session) }
    ensures did { OnOk result ((s : Story) → S.stands engine.old s.state → MayGo slot.old.session s → StandsIn (S.stands engine.new) (SlotDid slot.old.session.number ask s slot.old text.old.items slot.new text.new.items)) }
    ensures lost { OnErr result ((s : Story) → S.stands engine.old s.state → MayGo slot.old.session s → StandsIn (S.stands engine.new) (Leads s)) }
    ensures number { slot.new.session.number ≡ slot.old.session.number }
    ensures fits { FitsLine slot.new.line slot.new.session }
{
    match ask {
        Ask::Runs(read) => run_text(alloc, engine, slot, text, read),
        Ask::Loads(read) => load_text(alloc, slot, text, read),
        Ask::Unread => push_one(
            alloc,
            text,
            slot.session.number(),
            Reply::Error(Refusal::NoMemory),
        ),
        Ask::Steps => step_line(alloc, engine, slot, text),
    }
}
