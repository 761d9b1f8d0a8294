//! What a caller has of a session.
ghost use Rattle.std.specs.Prelude.{◌≡◌, ◌<◌, ◌+◌, ◌-◌, ◌^◌, ◌⊎◌, Bool, [], IfSome, IfNone, IsSome, true, false, ℕ, ◌≤◌};
ghost use Rattle.std.specs.Option.{option_map};
ghost use Rattle.iv_types.specs.Trees.{statement_tree};
ghost use Rattle.txn_machine.specs.Acts as act;
ghost use Rattle.txn_machine.specs.Acts.{Act as AnyAct};
ghost use Rattle.script_law.specs.Programs.{outside_with, says, asks, ghosts};
ghost use Rattle.script_law.specs.RunLines as lines;
ghost use Rattle.txn_book.specs.Acts.{act_of, answer_of};
ghost use Rattle.txn_sessions.specs.Standings.{replies_of};
ghost use Rattle.txn_sessions.specs.Fits.{fits, IsOf, IsAnswered, IsPaid, IsGhosted, IsRefused, is_owing, is_right};
ghost use Rattle.txn_sessions.specs.Left.{asked_as, owing_follows};
ghost use Rattle.txn_sessions.specs.Within.{StageWithin, StandsWithin, IsWithin};
ghost use Rattle.txn_sessions.specs.Sessions.{stands, todo_of, made_at, IsIdle, Comes, IsStarted};

use crate::answers::{
    Paid, begun, changed, committed, create_told, defs, ended, ghosted, pay_told, rows, undone,
};
use crate::line::{Owing, Replies, Stage};
use crate::progress::Line;
use crate::session::Session;
use crate::standing::Standing;
use iv_types::{Mode, Refusal, Statement};
use std::alloc::Global;
use std::mem::replace;
use txn_book::{Answer, Step};

impl Session {
    /// A session of this number, from 1 to 64, that has no transaction open and knows of no definitions.
    pub fn new(alloc: Global, number: u32) -> Session
        ensures stands { stands result ≡ outside_with [] }
        ensures idle { IsIdle result }
        ensures within { IsWithin 0 result }
        ensures number { result.number ≡ number }
    {
        Session {
            alloc,
            number,
            standing: Standing::new(alloc),
            line: Line::Idle,
        }
    }

    /// Its number.
    pub fn number(&self) -> u32
        ensures { result ≡ self.now.number }
    {
        self.number
    }

    /// The mode of its open transaction between two statements, if it has one.
    pub fn mode(&self) -> Option<Mode>
        ensures { result ≡ (stands self.now).mode }
    {
        self.standing.mode
    }

    /// A statement starts: it asks for its first step, or has ended without one.
    ///
    /// # Errors
    ///
    /// Where the session refuses the statement by its mode and savepoints, or there is no memory to begin it. The session is
    /// as before then.
    pub fn start(&mut self, statement: Statement) -> Result<(), Refusal>
        requires { IsIdle self.old }
        ensures started { IsStarted self.old (statement_tree statement) result self.new }
        ensures number { self.new.number ≡ self.old.number }
        ensures within { (n : ℕ) → IsWithin n self.old → IsWithin n self.new }
    {
        match self.standing.mode {
            None => self.start_outside(statement),
            Some(mode) => self.start_inside(mode, statement),
        }
    }

    /// The step that the statement asks for, if it has not ended. One that is blocked is asked for again as it is.
    pub fn step(&self) -> Option<&Step>
        ensures act { option_map (λ b. act_of b.now.act) result ≡ lines.act_of (todo_of self.now) }
        ensures session { IfSome result (λ b. b.now.session ≡ self.now.number) }
    {
        match &self.line {
            Line::Under(asked) => Some(&asked.step),
            _ => None,
        }
    }

    // What a pay was answered.
    fn pay_answered(&mut self, owing: Owing, answer: Answer)
        requires room { owing.made + 1 + self.old.standing.kept < 2 ^ 64 }
        requires owing { is_owing owing ≡ true }
        requires answer { IsPaid (answer_of answer) }
        ensures comes { (memory : Bool) × Comes self.new (lines.next_of (asks act.Pay (owing_follows self.old.standing.mode (stands self.old) owing)) (answer_of answer) memory) }
        ensures number { self.new.number ≡ self.old.number }
        ensures within { (n : ℕ) → StandsWithin n self.old.standing → owing.made + 1 + self.old.standing.kept ≤ n → IsWithin n self.new }
        ensures refused { (n : ℕ) → StandsWithin n self.old.standing → IsRefused (answer_of answer) → IsWithin n self.new }
    {
        match pay_told(answer) {
            Paid::Done => self.paid(owing),
            Paid::NeedsGhost => self.lack(owing),
            Paid::Refused(why) => self.unpaid(owing, why),
        }
    }

    // What the making of a row was answered.
    fn ghost_answered(&mut self, owing: Owing, answer: Answer)
        requires room { owing.made + 1 + self.old.standing.kept < 2 ^ 64 }
        requires owing { is_owing owing ≡ true }
        requires answer { IsGhosted (answer_of answer) }
        ensures comes { (memory : Bool) × Comes self.new (lines.next_of (ghosts (owing_follows self.old.standing.mode (stands self.old) owing)) (answer_of answer) memory) }
        ensures number { self.new.number ≡ self.old.number }
        ensures within { (n : ℕ) → StandsWithin n self.old.standing → owing.made + self.old.standing.kept ≤ n → IsWithin n self.new }
    {
        match ghosted(answer) {
            Ok(()) => self.pay(owing),
            Err(why) => self.unpaid(owing, why),
        }
    }

    // What the step of a stage was answered.
    fn answered(&mut self, stage: Stage, answer: Answer)
        requires room { made_at stage + 1 + self.old.standing.kept < 2 ^ 64 }
        requires stage { is_right stage ≡ true }
        requires answer { IsOf stage (answer_of answer) }
        ensures comes { (a : AnyAct) → fits a stage ≡ true → (memory : Bool) × Comes self.new (lines.next_of (asked_as self.old.standing.mode (stands self.old) a stage) (answer_of answer) memory) }
        ensures number { self.new.number ≡ self.old.number }
        ensures within { (n : ℕ) → StandsWithin n self.old.standing → StageWithin n self.old.standing.kept stage → IsWithin (n + 1) self.new }
        ensures refused { (n : ℕ) → StandsWithin n self.old.standing → StageWithin n self.old.standing.kept stage → IsRefused (answer_of answer) → IsWithin n self.new }
    {
        match stage {
            Stage::Opening(opening) => self.opened(opening, begun(answer)),
            Stage::Learning { opening, number } => self.learned(opening, number, defs(answer)),
            Stage::Fetching { task, made } => self.fetched(task, made, rows(answer)),
            Stage::Changing { task, made } => self.changed(task, made, changed(answer)),
            Stage::Paying(owing) => self.pay_answered(owing, answer),
            Stage::Lacking(owing) => self.ghost_answered(owing, answer),
            Stage::Undoing { left, last } => self.undone(left, last, undone(answer)),
            Stage::Ending(reply) => self.ended(reply, ended(answer)),
            Stage::Committing(replies) => self.committed(replies, committed(answer)),
            Stage::Creating(replies) => self.created(replies, create_told(answer)),
        }
    }

    /// The step was done and answered so, and not blocked. Where memory runs out here, the statement goes on as its program
    /// does then: it is refused and taken back. A step that is refused leaves no more to take back than there was.
    pub fn next(&mut self, answer: Answer)
        requires answered { IsAnswered (lines.act_of (todo_of self.old)) (answer_of answer) }
        requires room { IsWithin (2 ^ 64 - 2) self.old }
        ensures comes { (memory : Bool) × Comes self.new (lines.next_of (todo_of self.old) (answer_of answer) memory) }
        ensures number { self.new.number ≡ self.old.number }
        ensures within { (n : ℕ) → IsWithin n self.old → IsWithin (n + 1) self.new }
        ensures refused { (n : ℕ) → IsWithin n self.old → IsRefused (answer_of answer) → IsWithin n self.new }
    {
        match replace(&mut self.line, Line::Idle) {
            Line::Under(asked) => self.answered(asked.into_stage(), answer),
            Line::Idle => unreachable!(),
            Line::Ended(_) => unreachable!(),
        }
    }

    /// The replies of a statement that has ended. The session stands as it left it then, and is idle.
    pub fn take_replies(&mut self) -> Option<Replies>
        ensures some { IfSome result (λ r. (todo_of self.old ≡ says (replies_of r) (stands self.new)) × IsIdle self.new × (IsIdle self.old → ⊥)) }
        ensures none { IfNone result ((IsIdle self.old ⊎ IsSome (lines.act_of (todo_of self.old))) × (self.new ≡ self.old)) }
        ensures number { self.new.number ≡ self.old.number }
        ensures within { (n : ℕ) → IsWithin n self.old → IsWithin n self.new }
    {
        match replace(&mut self.line, Line::Idle) {
            Line::Ended(replies) => Some(replies),
            line => {
                self.put(line);
                None
            }
        }
    }
}
