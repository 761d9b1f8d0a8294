//! What a session goes over to.
ghost use Rattle.std.specs.Prelude.{◌≡◌, ◌+◌, ◌<◌, ◌^◌, ◌∷◌, [], ◌++◌, ℕ, List, map, true, ◌≤◌};
ghost use Rattle.iv_types.specs.declared.reply.Reply.TheVariants as reply;
ghost use Rattle.iv_types.specs.declared.statement.Mode.{Mode as AnyMode};
ghost use Rattle.iv_meaning.specs.Database.{Row as AnyRow};
ghost use Rattle.script_law.specs.Programs.{says, outside_with};
ghost use Rattle.script_law.specs.Sessions.{refused_so};
ghost use Rattle.statement_law.specs.Statements.{the_works};
ghost use Rattle.txn_book.specs.Acts.{act_of};
ghost use Rattle.txn_sessions.specs.Fits.{fits};
ghost use Rattle.txn_sessions.specs.Standings.{replies_of};
ghost use Rattle.txn_sessions.specs.Left.{frame_in, says_in, fails, last_as, undo_as, asked_as};
ghost use Rattle.txn_sessions.specs.Numbered.{is_numbered};
ghost use Rattle.txn_sessions.specs.Within.{AfterWithin, StageWithin, StandsWithin, IsWithin};
ghost use Rattle.txn_sessions.specs.Sessions.{stands, Comes};

use crate::asked::Asked;
use crate::line::{After, Replies, Stage, one};
use crate::progress::Line;
use crate::session::Session;
use engine_refusals::{is_deadlock, is_stop, told_plainly};
use iv_types::{EngineRefusal, Refusal, Reply, ReplyList};
use std::mem::replace;
use txn_book::{Act, Step};

impl Session {
    // What its line leaves is this now.
    pub fn put(&mut self, line: Line)
        requires { is_numbered self.old.number line ≡ true }
        ensures line { self.new.line ≡ line }
        ensures standing { self.new.standing ≡ self.old.standing }
        ensures number { self.new.number ≡ self.old.number }
    {
        let before = replace(&mut self.line, line);
        before.let_go();
    }

    /// It asks for a step.
    pub fn ask(&mut self, act: Act, stage: Stage)
        requires { fits (act_of act) stage ≡ true }
        ensures comes { Comes self.new (asked_as self.old.standing.mode (stands self.old) (act_of act) stage) }
        ensures number { self.new.number ≡ self.old.number }
        ensures within { (n : ℕ) → StandsWithin n self.old.standing → StageWithin n self.old.standing.kept stage → IsWithin n self.new }
    {
        let session = self.number;
        self.put(Line::Under(Asked::new(Step { session, act }, stage)));
    }

    /// The statement has ended with these replies, and the session stands as it does.
    pub fn tell(&mut self, replies: Replies)
        ensures comes { Comes self.new (says (replies_of replies) (stands self.old)) }
        ensures number { self.new.number ≡ self.old.number }
        ensures within { (n : ℕ) → StandsWithin n self.old.standing → IsWithin n self.new }
    {
        self.put(Line::Ended(replies));
    }

    /// The statement has ended with these replies, and the session's transaction, if it was in one.
    pub fn end_outside(&mut self, replies: Replies)
        ensures comes { Comes self.new (says (replies_of replies) (outside_with (stands self.old).copy)) }
        ensures number { self.new.number ≡ self.old.number }
        ensures within { (n : ℕ) → IsWithin n self.new }
    {
        self.standing.leave();
        self.tell(replies);
    }

    /// The statement has ended with this reply alone, and the session's transaction with it.
    pub fn say_outside(&mut self, reply: Reply)
        ensures comes { Comes self.new (says (reply ∷ []) (outside_with (stands self.old).copy)) }
        ensures number { self.new.number ≡ self.old.number }
        ensures within { (n : ℕ) → IsWithin n self.new }
    {
        self.end_outside(one(self.alloc, reply));
    }

    /// The statement has ended with this reply alone, and the session's transaction, if it is in one, stands as it does.
    pub fn say(&mut self, reply: Reply)
        ensures comes { Comes self.new (says_in self.old.standing.mode (stands self.old) (reply ∷ [])) }
        ensures number { self.new.number ≡ self.old.number }
        ensures within { (n : ℕ) → StandsWithin n self.old.standing → IsWithin n self.new }
    {
        match self.standing.mode {
            None => self.say_outside(reply),
            Some(_) => self.tell(one(self.alloc, reply)),
        }
    }

    /// A step was refused, and the statement has ended with that.
    pub fn fail(&mut self, why: EngineRefusal)
        ensures comes { Comes self.new (fails self.old.standing.mode (stands self.old) why) }
        ensures number { self.new.number ≡ self.old.number }
        ensures within { (n : ℕ) → StandsWithin n self.old.standing → IsWithin n self.new }
    {
        self.say(Reply::Error(told_plainly(self.alloc, why)));
    }

    /// All that was to be taken back is.
    pub fn last(&mut self, last: After)
        ensures comes { Comes self.new (last_as self.old.standing.mode (stands self.old) last) }
        ensures number { self.new.number ≡ self.old.number }
        ensures within { (n : ℕ) → StandsWithin n self.old.standing → AfterWithin n last → IsWithin n self.new }
    {
        match last {
            After::Says(reply) => self.say(reply),
            After::Ends(reply) => self.ask(Act::End, Stage::Ending(reply)),
            After::Returns { later, kept } => {
                self.standing.return_to(later, kept);
                self.tell(one(self.alloc, Reply::Done(0)));
            }
        }
    }

    /// So many kept steps are to be taken back.
    pub fn take_back(&mut self, count: u64, last: After)
        ensures comes { Comes self.new (undo_as self.old.standing.mode (stands self.old) count last) }
        ensures number { self.new.number ≡ self.old.number }
        ensures within { (n : ℕ) → StandsWithin n self.old.standing → AfterWithin n last → IsWithin n self.new }
    {
        if count == 0 {
            return self.last(last);
        }
        let left = count - 1;
        self.ask(Act::UndoOne, Stage::Undoing { left, last });
    }

    /// The statement is refused, and taken back.
    pub fn back(&mut self, made: u64, why: Refusal)
        ensures comes { Comes self.new ((frame_in self.old.standing.mode (stands self.old)).back made why) }
        ensures number { self.new.number ≡ self.old.number }
        ensures within { (n : ℕ) → StandsWithin n self.old.standing → IsWithin n self.new }
    {
        let reply = Reply::Error(why);
        match self.standing.mode {
            Some(_) => self.take_back(made, After::Says(reply)),
            None => self.take_back(made, After::Ends(reply)),
        }
    }

    /// A deadlock met the statement, and its whole transaction is taken back.
    pub fn lose(&mut self, made: u64, why: Refusal)
        requires { made + self.old.standing.kept < 2 ^ 64 }
        ensures comes { Comes self.new ((frame_in self.old.standing.mode (stands self.old)).lost made why) }
        ensures number { self.new.number ≡ self.old.number }
        ensures within { (n : ℕ) → StandsWithin n self.old.standing → IsWithin n self.new }
    {
        let reply = Reply::Error(why);
        match self.standing.mode {
            Some(_) => {
                let kept = self.standing.kept;
                self.take_back(made + kept, After::Ends(reply));
            }
            None => self.take_back(made, After::Ends(reply)),
        }
    }

    /// The engine refused a step of the statement's work, which is told so.
    pub fn refuse(&mut self, made: u64, told: Refusal, why: EngineRefusal)
        requires { made + self.old.standing.kept < 2 ^ 64 }
        ensures comes { (mode : AnyMode) → Comes self.new (refused_so the_works (stands self.old).copy mode (frame_in self.old.standing.mode (stands self.old)) made told why) }
        ensures number { self.new.number ≡ self.old.number }
        ensures within { (n : ℕ) → StandsWithin n self.old.standing → IsWithin n self.new }
    {
        if is_stop(why) {
            return self.say(Reply::Error(told));
        }
        if is_deadlock(why) {
            return self.lose(made, told);
        }
        self.back(made, told);
    }

    /// The statement's work is done.
    pub fn finish(&mut self, replies: ReplyList, made: u64)
        requires { made + self.old.standing.kept < 2 ^ 64 }
        ensures comes { (listed : List AnyRow) (count : ℕ) → replies ≡ map reply.Row listed ++ reply.Done count ∷ [] → Comes self.new ((frame_in self.old.standing.mode (stands self.old)).finish listed count made) }
        ensures number { self.new.number ≡ self.old.number }
        ensures within { (n : ℕ) → StandsWithin n self.old.standing → made + self.old.standing.kept ≤ n → IsWithin n self.new }
    {
        match self.standing.mode {
            None => self.ask(Act::Commit, Stage::Committing(replies)),
            Some(_) => {
                self.standing.kept += made;
                self.tell(Replies {
                    told: replies,
                    last: None,
                });
            }
        }
    }
}
