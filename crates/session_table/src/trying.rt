//! Sessions whose lines wait are tried again.
ghost use Rattle.std.specs.Prelude.{◌≡◌, ◌≢◌, ◌≤◌, ◌<◌, ◌+◌, ◌-◌, ◌^◌, IfOk, OnOk, OnErr, ◌++◌, length, true, false, Some, slice_get};
ghost use Rattle.txn_machine.specs.Alone.{Story};
ghost use Rattle.script_law.specs.RunLines.{printed_later};
ghost use Rattle.txn_sessions.specs.Sessions.{todo_of};
ghost use Rattle.session_table.specs.declared.slot.LineKind.TheVariants.{Waiting};
ghost use Rattle.session_table.specs.declared.slot.Slot.{Slot as SlotValue};
ghost use Rattle.session_table.specs.Going.{StandsIn, Leads, MayGo, outcome_in};
ghost use Rattle.session_table.specs.Slots.{FitsLine, AreSlots, AllGo};
ghost use Rattle.session_table.specs.Requests.{kept_line};
ghost use Rattle.session_table.specs.Trying.{Tried, NoneWaits, Passed, Retried};

use crate::going::{Came, Went, go_on};
use crate::print::tell_replies;
use crate::slot::{LineKind, Slot};
use iv_types::NoMemory;
use std::alloc::Global;
use txn_book::Stepper;

// Prints what a statement told that has ended, whose line waited. One that waits on prints nothing.
fn tell_later(
    alloc: Global,
    slot: &mut Slot,
    text: &mut Vec<u8>,
    came: Came,
) -> Result<(), NoMemory>
    requires { slot.old.line ≡ Waiting }
    ensures session { slot.new.session ≡ slot.old.session }
    ensures line { slot.new.line ≡ kept_line Waiting Waiting came }
    ensures told { OnOk result (text.new.items ≡ text.old.items ++ printed_later slot.old.session.number (outcome_in came (todo_of slot.old.session))) }
{
    match came {
        Came::Ended(replies) => {
            slot.line = LineKind::Idle;
            tell_replies(alloc, text, slot.session.number(), replies)
        }
        Came::Stuck(_) => Ok(()),
        Came::Stepped => Ok(()),
    }
}

// Goes on with a session if its line waits, and tells whether a step was not blocked.
fn try_slot<S: Stepper>(
    alloc: Global,
    engine: &mut S,
    slot: &mut Slot,
    text: &mut Vec<u8>,
) -> Result<bool, NoMemory>
    requires fits { FitsLine slot.old.line slot.old.session }
    requires engine { StandsIn (S.stands engine.old) (MayGo slot.old.session) }
    ensures tried { IfOk result (λ moved. (s : Story) → S.stands engine.old s.state → MayGo slot.old.session s → StandsIn (S.stands engine.new) (Tried s slot.old text.old.items moved slot.new text.new.items)) }
    ensures lost { OnErr result ((s : Story) → S.stands engine.old s.state → MayGo slot.old.session s → StandsIn (S.stands engine.new) (Leads s)) }
    ensures number { slot.new.session.number ≡ slot.old.session.number }
    ensures fits { FitsLine slot.new.line slot.new.session }
{
    match slot.line {
        LineKind::Waiting => {}
        _ => return Ok(false),
    }
    let Went { moved, came } = go_on(engine, &mut slot.session);
    tell_later(alloc, slot, text, came)?;
    Ok(moved)
}

// Whether a session's line waits.
fn waits(slot: &Slot) -> bool
    ensures rests { result ≡ false → slot.now.line ≢ Waiting }
    ensures waits { result ≡ true → slot.now.line ≡ Waiting }
{
    match slot.line {
        LineKind::Waiting => true,
        LineKind::Idle => false,
        LineKind::Stepping => false,
        LineKind::Held => false,
    }
}

// The first place from one on at which a session's line waits, or the end.
fn next_waiting(slots: &[Slot], place: usize) -> usize
    requires { place ≤ length slots.now }
    ensures from { place ≤ result }
    ensures inside { result ≤ length slots.now }
    ensures none { NoneWaits place (result - place) slots.now }
    ensures here { (slot : SlotValue) → slice_get slots.now result ≡ Some slot → slot.line ≡ Waiting }
{
    let mut at = place;
    while at < slots.len() && !waits(&slots[at]) {
        at += 1;
    }
    at
}

// Goes on with the sessions whose lines wait, from a place on, and tells whether a step was not blocked.
fn pass_from<S: Stepper>(
    alloc: Global,
    engine: &mut S,
    slots: &mut [Slot],
    text: &mut Vec<u8>,
    place: usize,
) -> Result<bool, NoMemory>
    requires place { place ≤ length slots.old }
    requires slots { AreSlots slots.old }
    requires engine { StandsIn (S.stands engine.old) (AllGo slots.old) }
    ensures passed { IfOk result (λ moved. (s : Story) → S.stands engine.old s.state → AllGo slots.old s → StandsIn (S.stands engine.new) (Passed place s slots.old text.old.items moved slots.new text.new.items)) }
    ensures lost { OnErr result ((s : Story) → S.stands engine.old s.state → AllGo slots.old s → StandsIn (S.stands engine.new) (Leads s)) }
    ensures slots { AreSlots slots.new }
{
    let at = next_waiting(slots, place);
    if at >= slots.len() {
        return Ok(false);
    }
    let first = try_slot(alloc, engine, &mut slots[at], text)?;
    let more = pass_from(alloc, engine, slots, text, at + 1)?;
    Ok(first | more)
}

/// Goes on with the sessions whose lines wait, in number order, in whole passes, until a pass moves none.
///
/// # Errors
///
/// Where there is no memory for what is printed.
pub fn retry<S: Stepper>(
    alloc: Global,
    engine: &mut S,
    slots: &mut [Slot],
    text: &mut Vec<u8>,
) -> Result<(), NoMemory>
    requires count { length slots.old ≡ 64 }
    requires slots { AreSlots slots.old }
    requires engine { StandsIn (S.stands engine.old) (AllGo slots.old) }
    ensures retried { OnOk result ((s : Story) → S.stands engine.old s.state → AllGo slots.old s → StandsIn (S.stands engine.new) (Retried s slots.old text.old.items slots.new text.new.items)) }
    ensures lost { OnErr result ((s : Story) → S.stands engine.old s.state → AllGo slots.old s → StandsIn (S.stands engine.new) (Leads s)) }
    ensures slots { AreSlots slots.new }
{
    for _ in 0..u64::MAX {
        if !pass_from(alloc, engine, slots, text, 0)? {
            return Ok(());
        }
    }
    // No engine counts so many steps.
    Ok(())
}
