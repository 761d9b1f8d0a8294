//! The end of the input: each session that has something open leaves.
ghost use Rattle.std.specs.Prelude.{◌≡◌, ◌+◌, ℕ, length};
ghost use Rattle.iv_meaning.specs.Escrow.{IsSession};
ghost use Rattle.txn_machine.specs.Acts as machine;
ghost use Rattle.txn_machine.specs.Alone.{Story};
ghost use Rattle.txn_machine.specs.Laws.{IsReachedStory};
ghost use Rattle.txn_book.specs.Acts.{answer_of};
ghost use Rattle.session_table.specs.declared.slot.LineKind.TheVariants.{Idle};
ghost use Rattle.session_table.specs.Going.{StandsIn};
ghost use Rattle.session_table.specs.Slots.{AreSlots, FitsLine};
ghost use Rattle.session_table.specs.Leaving.{IsOpenAt, IsUndone, WasUndone, TookOne, RolledBack, EndedOpen, Cancelled, LeftWaiting, LeftBy, LeftAll};

use crate::slot::{LineKind, Slot};
use txn_book::{Act, Answer, Step, Stepper, do_step};

// Whether UndoOne was done: a stopped engine refuses it.
fn undone(answer: Answer) -> bool
    requires { IsUndone (answer_of answer) }
    ensures { WasUndone result (answer_of answer) }
{
    match answer {
        Answer::Undone { left: _ } => true,
        Answer::Refused(_) => false,
        _ => unreachable!(),
    }
}

// Takes the latest kept step back, and tells whether that was done.
fn take_one<S: Stepper>(engine: &mut S, session: u32) -> bool
    requires session { IsSession session }
    requires engine { StandsIn (S.stands engine.old) (λ s. (fewer : ℕ) × IsOpenAt session (fewer + 1) s) }
    ensures { (s : Story) (fewer : ℕ) → S.stands engine.old s.state → IsOpenAt session (fewer + 1) s → StandsIn (S.stands engine.new) (TookOne session fewer s result) }
{
    undone(do_step(
        engine,
        Step {
            session,
            act: Act::UndoOne,
        },
    ))
}

// Ends the transaction, which keeps nothing.
fn end<S: Stepper>(engine: &mut S, session: u32)
    requires session { IsSession session }
    requires engine { StandsIn (S.stands engine.old) (IsOpenAt session 0) }
    ensures { (s : Story) → S.stands engine.old s.state → IsOpenAt session 0 s → StandsIn (S.stands engine.new) (RolledBack session 0 s) }
{
    do_step(
        engine,
        Step {
            session,
            act: Act::End,
        },
    )
    .let_go();
}

// Takes so many kept steps back and ends the transaction. Only a stopped engine refuses that.
fn roll_back<S: Stepper>(engine: &mut S, session: u32, kept: u64)
    requires session { IsSession session }
    requires engine { StandsIn (S.stands engine.old) (IsOpenAt session kept) }
    ensures { (s : Story) → S.stands engine.old s.state → IsOpenAt session kept s → StandsIn (S.stands engine.new) (RolledBack session kept s) }
{
    for _ in 0..kept {
        if !take_one(engine, session) {
            return;
        }
    }
    end(engine, session);
}

// Rolls the session's transaction back, if one is open.
fn end_open<S: Stepper>(engine: &mut S, session: u32)
    requires session { IsSession session }
    requires engine { StandsIn (S.stands engine.old) IsReachedStory }
    ensures { (s : Story) → S.stands engine.old s.state → IsReachedStory s → StandsIn (S.stands engine.new) (EndedOpen session s) }
{
    match engine.kept_steps(session) {
        Some(kept) => roll_back(engine, session, kept),
        None => {}
    }
}

// Forgets what the session waits for.
fn cancel<S: Stepper>(engine: &mut S, session: u32)
    requires session { IsSession session }
    requires engine { StandsIn (S.stands engine.old) IsReachedStory }
    ensures { (s : Story) → S.stands engine.old s.state → IsReachedStory s → StandsIn (S.stands engine.new) (Cancelled session s) }
{
    do_step(
        engine,
        Step {
            session,
            act: Act::Cancel,
        },
    )
    .let_go();
}

// A session that waits leaves.
fn leave_waiting<S: Stepper>(engine: &mut S, session: u32)
    requires session { IsSession session }
    requires engine { StandsIn (S.stands engine.old) IsReachedStory }
    ensures { (s : Story) → S.stands engine.old s.state → IsReachedStory s → StandsIn (S.stands engine.new) (LeftWaiting session s) }
{
    cancel(engine, session);
    end_open(engine, session);
}

// A session with no unfinished line leaves. One that counts as outside has no transaction, also where a stopped engine has one
// left of it.
fn leave_idle<S: Stepper>(engine: &mut S, slot: &Slot)
    requires session { IsSession slot.now.session.number }
    requires line { slot.now.line ≡ Idle }
    requires fits { FitsLine slot.now.line slot.now.session }
    requires engine { StandsIn (S.stands engine.old) IsReachedStory }
    ensures { (s : Story) → S.stands engine.old s.state → IsReachedStory s → StandsIn (S.stands engine.new) (LeftBy slot.now s) }
{
    match slot.session.mode() {
        Some(_) => end_open(engine, slot.session.number()),
        None => {}
    }
}

// A session leaves.
fn leave_slot<S: Stepper>(engine: &mut S, slot: &Slot)
    requires session { IsSession slot.now.session.number }
    requires fits { FitsLine slot.now.line slot.now.session }
    requires engine { StandsIn (S.stands engine.old) IsReachedStory }
    ensures { (s : Story) → S.stands engine.old s.state → IsReachedStory s → StandsIn (S.stands engine.new) (LeftBy slot.now s) }
{
    match slot.line {
        LineKind::Idle => leave_idle(engine, slot),
        LineKind::Stepping => end_open(engine, slot.session.number()),
        LineKind::Waiting => leave_waiting(engine, slot.session.number()),
        LineKind::Held => leave_waiting(engine, slot.session.number()),
    }
}

/// Each session leaves, in number order: what it waits for is forgotten, and its transaction is rolled back.
pub fn leave_all<S: Stepper>(engine: &mut S, slots: &[Slot])
    requires count { length slots.now ≡ 64 }
    requires slots { AreSlots slots.now }
    requires engine { StandsIn (S.stands engine.old) IsReachedStory }
    ensures { (s : Story) → S.stands engine.old s.state → IsReachedStory s → StandsIn (S.stands engine.new) (LeftAll slots.now s) }
{
    for slot in slots {
        leave_slot(engine, slot);
    }
}
