//! A session's statement goes on by an engine's steps.
ghost use Rattle.std.specs.Prelude.{◌≡◌, ◌⊎◌, ℕ, IsSome, Some, None, true, false};
ghost use Rattle.txn_machine.specs.Acts.{Act};
ghost use Rattle.txn_machine.specs.Answers as machine_answer;
ghost use Rattle.txn_machine.specs.Alone.{Story};
ghost use Rattle.script_law.specs.RunLines as lines;
ghost use Rattle.script_law.specs.Machine.{DoesOf};
ghost use Rattle.txn_book.specs.Acts.{answer_of};
ghost use Rattle.script_law.specs.Programs.{says};
ghost use Rattle.txn_sessions.specs.Standings.{replies_of};
ghost use Rattle.txn_sessions.specs.Sessions.{todo_of, stands, IsIdle};
ghost use Rattle.txn_sessions.specs.Within.{IsWithin};
ghost use Rattle.session_table.specs.Going.{StandsIn, MayGo, DidStep, WentOn, ToldBy, AnsweredBy, HasCome};

use iv_types::Sessions;
use txn_book::{Answer, Stepper};
use txn_sessions::{Replies, Session};

/// How far a statement came.
#[derive(Drop)]
pub enum Came {
    Ended(Replies),
    /// Its step waits for these sessions.
    Stuck(Sessions),
    /// It has steps left.
    Stepped,
}

/// How far a statement came, and whether a step of it was not blocked.
#[derive(Drop)]
pub struct Went {
    pub moved: bool,
    pub came: Came,
}

// What a step was answered, unless it waits for these sessions.
fn told(answer: Answer) -> Result<Answer, Sessions>
    ensures { ToldBy (answer_of answer) result }
{
    match answer {
        Answer::Blocked(sessions) => Err(sessions),
        other => Ok(other),
    }
}

// Does the step that a session asks for.
fn ask<S: Stepper>(engine: &mut S, session: &Session) -> Answer
    requires asks { IsSome (lines.act_of (todo_of session.now)) }
    requires engine { StandsIn (S.stands engine.old) (MayGo session.now) }
    ensures { (s : Story) → S.stands engine.old s.state → MayGo session.now s → StandsIn (S.stands engine.new) (AnsweredBy s session.now (answer_of result)) }
{
    match session.step() {
        Some(step) => engine.step(step),
        None => unreachable!(),
    }
}

/// Does the step that a session asks for, and hands over what it is answered. Tells the sessions that it waits for instead, if
/// it does.
pub fn step_on<S: Stepper>(engine: &mut S, session: &mut Session) -> Option<Sessions>
    requires asks { IsSome (lines.act_of (todo_of session.old)) }
    requires engine { StandsIn (S.stands engine.old) (MayGo session.old) }
    ensures stepped { (s : Story) → S.stands engine.old s.state → MayGo session.old s → StandsIn (S.stands engine.new) (DidStep s session.old result session.new) }
    ensures number { session.new.number ≡ session.old.number }
    ensures busy { IsIdle session.new → ⊥ }
{
    let answer = ask(engine, session);
    match told(answer) {
        Err(sessions) => Some(sessions),
        Ok(answer) => {
            session.next(answer);
            None
        }
    }
}

/// The replies of a statement that has ended, which the session does not keep.
pub fn finished(session: &mut Session) -> Replies
    requires busy { IsIdle session.old → ⊥ }
    requires ended { lines.act_of (todo_of session.old) ≡ None }
    ensures told { todo_of session.old ≡ says (replies_of result) (stands session.new) }
    ensures idle { IsIdle session.new }
    ensures number { session.new.number ≡ session.old.number }
    ensures within { (n : ℕ) → IsWithin n session.old → IsWithin n session.new }
{
    match session.take_replies() {
        Some(replies) => replies,
        None => unreachable!(),
    }
}

/// Whether a session's statement has no step left to do.
pub fn has_ended(session: &Session) -> bool
    ensures ended { result ≡ true → lines.act_of (todo_of session.now) ≡ None }
    ensures busy { result ≡ false → IsSome (lines.act_of (todo_of session.now)) }
{
    session.step().is_none()
}

/// A session's statement goes on until it has ended or a step of it is blocked.
pub fn go_on<S: Stepper>(engine: &mut S, session: &mut Session) -> Went
    requires busy { IsIdle session.old → ⊥ }
    requires engine { StandsIn (S.stands engine.old) (MayGo session.old) }
    ensures went { (s : Story) → S.stands engine.old s.state → MayGo session.old s → StandsIn (S.stands engine.new) (WentOn s session.old result session.new) }
    ensures number { session.new.number ≡ session.old.number }
    ensures idle { HasCome result.came session.new }
{
    let mut moved = false;
    for _ in 0..u64::MAX {
        if has_ended(session) {
            return Went {
                moved,
                came: Came::Ended(finished(session)),
            };
        }
        if let Some(sessions) = step_on(engine, session) {
            return Went {
                moved,
                came: Came::Stuck(sessions),
            };
        }
        moved = true;
    }
    // No engine counts so many steps.
    Went {
        moved,
        came: Came::Stepped,
    }
}
