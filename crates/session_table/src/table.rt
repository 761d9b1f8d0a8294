//! The table of sessions, and lines that are run on it.
ghost use Rattle.std.specs.Prelude.{◌≡◌, ℕ, OnOk, OnErr, IfOk, length};
ghost use Rattle.txn_machine.specs.Alone.{Story};
ghost use Rattle.script_law.specs.RunLines.{new_table, all_sessions, LeaveAll};
ghost use Rattle.script_law.specs.Machine.{DoesOf, seen_of};
ghost use Rattle.session_asks.specs.Askable.{the_programs};
ghost use Rattle.line_requests.specs.Requests.{IsRequest};
ghost use Rattle.session_table.specs.Going.{StandsIn, Leads, the_tell};
ghost use Rattle.session_table.specs.Slots.{AreSlots, AreNew, AllGo, GoFirst, table_of};
ghost use Rattle.session_table.specs.Requests.{DidOwn, RanLine};

use crate::cleaning::{clean_line, save_line};
use crate::leaving::leave_all;
use crate::lines::session_line;
use crate::print::push_one;
use crate::slot::{LineKind, Slot};
use crate::trying::retry;
use iv_types::{MOST_SESSIONS, NoMemory, Refusal, Reply};
use line_requests::Request;
use std::alloc::Global;
use std::marker::Model;
use txn_book::Stepper;
use txn_sessions::Session;

// What a line does itself.
fn own_part<S: Stepper>(
    alloc: Global,
    engine: &mut S,
    slots: &mut [Slot],
    text: &mut Vec<u8>,
    request: Request,
) -> Result<(), NoMemory>
    requires count { length slots.old ≡ 64 }
    requires request { IsRequest request }
    requires slots { AreSlots slots.old }
    requires engine { StandsIn (S.stands engine.old) (AllGo slots.old) }
    ensures did { OnOk result ((s : Story) → S.stands engine.old s.state → AllGo slots.old s → StandsIn (S.stands engine.new) (DidOwn request s slots.old text.old.items slots.new text.new.items)) }
    ensures lost { OnErr result ((s : Story) → S.stands engine.old s.state → AllGo slots.old s → StandsIn (S.stands engine.new) (Leads s)) }
    ensures slots { AreSlots slots.new }
{
    match request {
        Request::Nothing => Ok(()),
        Request::TooLong => push_one(alloc, text, 0, Reply::Error(Refusal::LineTooLong)),
        Request::Bad => push_one(alloc, text, 0, Reply::Error(Refusal::BadLine)),
        Request::OfSession(session, ask) => session_line(
            alloc,
            engine,
            &mut slots[session as usize - 1],
            text,
            ask,
        ),
        Request::Clean => clean_line(alloc, engine, text),
        Request::Checkpoint => save_line(alloc, engine, text),
    }
}

// Runs a line, and then goes on with the sessions that wait.
fn run_on<S: Stepper>(
    alloc: Global,
    engine: &mut S,
    slots: &mut [Slot],
    text: &mut Vec<u8>,
    request: Request,
) -> Result<(), NoMemory>
    requires count { length slots.old ≡ 64 }
    requires request { IsRequest request }
    requires slots { AreSlots slots.old }
    requires engine { StandsIn (S.stands engine.old) (AllGo slots.old) }
    ensures ran { OnOk result ((s : Story) → S.stands engine.old s.state → AllGo slots.old s → StandsIn (S.stands engine.new) (RanLine request s slots.old text.old.items slots.new text.new.items)) }
    ensures lost { OnErr result ((s : Story) → S.stands engine.old s.state → AllGo slots.old s → StandsIn (S.stands engine.new) (Leads s)) }
    ensures slots { AreSlots slots.new }
{
    own_part(alloc, engine, slots, text, request)?;
    retry(alloc, engine, slots, text)
}

// The sessions in number order, before the first line.
fn new_slots(alloc: Global) -> Result<Vec<Slot>, NoMemory>
    ensures count { IfOk result (λ slots. length slots.items ≡ 64) }
    ensures new { IfOk result (λ slots. AreNew slots.items) }
{
    let mut slots = Vec::new(alloc);
    for place in 0..MOST_SESSIONS {
        slots.push(Slot {
            session: Session::new(alloc, place + 1),
            line: LineKind::Idle,
        })?;
    }
    Ok(slots)
}

/// The sessions 1 to 64 in number order, each with its unfinished line. Clauses see their list.
#[derive(Drop)]
pub struct SessionTable {
    slots: Vec<Slot>,
}

impl Model for SessionTable {
    ghost use Rattle.std.specs.Prelude.{List};
    ghost use Rattle.std.specs.Coded.{codes};
    ghost use Rattle.iv_types.specs.contracts.expression.Expr as expression;
    ghost use Rattle.session_table.specs.declared.slot.Slot.{Slot};
    ghost use Rattle.session_table.specs.Slots.{IsTable};

    ghost Value = { List Slot };

    ghost coded = { Prim.hlevel (codes, expression.the_row.coded) };

    ghost view = { λ t. t.slots.items };

    ghost invariant = { λ t. IsTable t.slots.items };
}

impl SessionTable {
    /// No session has an unfinished line, an open transaction or a copy of the definitions.
    ///
    /// # Errors
    ///
    /// Where there is no memory for the table.
    pub fn new(alloc: Global) -> Result<SessionTable, NoMemory>
        ensures table { IfOk result (λ t. table_of t ≡ new_table) }
        ensures go { IfOk result GoFirst }
    {
        let slots = new_slots(alloc)?;
        Ok(SessionTable { slots })
    }

    /// Runs a line: what it does itself, and then the sessions whose lines wait go on. What is printed is written behind a text.
    ///
    /// # Errors
    ///
    /// Where there is no memory for what is printed. The engine stands where some steps led it; nothing is said of the table and the text then.
    pub fn run_line<S: Stepper>(
        &mut self,
        alloc: Global,
        engine: &mut S,
        text: &mut Vec<u8>,
        request: Request,
    ) -> Result<(), NoMemory>
        requires request { IsRequest request }
        requires engine { StandsIn (S.stands engine.old) (AllGo self.old) }
        ensures ran { OnOk result ((s : Story) → S.stands engine.old s.state → AllGo self.old s → StandsIn (S.stands engine.new) (RanLine request s self.old text.old.items self.new text.new.items)) }
        ensures lost { OnErr result ((s : Story) → S.stands engine.old s.state → AllGo self.old s → StandsIn (S.stands engine.new) (Leads s)) }
    {
        run_on(alloc, engine, &mut self.slots, text, request)
    }

    /// The input has ended: each session leaves, in number order. What it waits for is forgotten, and its transaction, if one is
    /// open, is rolled back. Only a stopped engine keeps one.
    pub fn leave<S: Stepper>(&self, engine: &mut S)
        requires { StandsIn (S.stands engine.old) (AllGo self.now) }
        ensures { (s : Story) → S.stands engine.old s.state → AllGo self.now s → StandsIn (S.stands engine.new) (LeaveAll DoesOf the_programs the_tell seen_of all_sessions (table_of self.now) s) }
    {
        leave_all(engine, &self.slots)
    }
}
