//! What follows where a transaction is taken back, ends or commits.
ghost use Rattle.std.specs.Prelude.{◌≡◌, ◌++◌, ◌∷◌, [], Bool, ℕ};
ghost use Rattle.iv_types.specs.declared.reply.Reply.TheVariants as reply;
ghost use Rattle.txn_sessions.specs.Standings.{replies_of};
ghost use Rattle.txn_machine.specs.Answers.{Answer as AnyAnswer};
ghost use Rattle.txn_sessions.specs.declared.line.Stage.TheVariants as stage;
ghost use Rattle.txn_sessions.specs.Answers.{WasUndone, WasEnded, WasCommitted, WasCreated};
ghost use Rattle.txn_sessions.specs.Left.{follows};
ghost use Rattle.txn_sessions.specs.Within.{AfterWithin, StandsWithin, IsWithin};
ghost use Rattle.txn_sessions.specs.Sessions.{stands, Comes};

use crate::answers::Created;
use crate::line::{After, Replies, let_go_replies, let_go_reply};
use crate::session::Session;
use iv_types::{EngineRefusal, Reply, ReplyList};

// Replies, and the number of a commit.
fn with_commit(told: ReplyList, number: u64) -> Replies
    ensures { replies_of result ≡ told ++ reply.Commit number ∷ [] }
{
    Replies {
        told,
        last: Some(Reply::Commit(number)),
    }
}

impl Session {
    /// A step was taken back, and so many more are to be.
    pub fn undone(&mut self, left: u64, last: After, undone: Result<(), EngineRefusal>)
        ensures comes { (said : AnyAnswer) (memory : Bool) → WasUndone undone said → Comes self.new (follows self.old.standing.mode (stands self.old) (stage.Undoing left last) said memory) }
        ensures number { self.new.number ≡ self.old.number }
        ensures within { (n : ℕ) → StandsWithin n self.old.standing → AfterWithin n last → IsWithin n self.new }
    {
        match undone {
            Ok(()) => self.take_back(left, last),
            Err(why) => {
                last.let_go();
                self.fail(why);
            }
        }
    }

    /// The transaction has ended without a commit.
    pub fn ended(&mut self, reply: Reply, ended: Result<(), EngineRefusal>)
        ensures comes { (said : AnyAnswer) (memory : Bool) → WasEnded ended said → Comes self.new (follows self.old.standing.mode (stands self.old) (stage.Ending reply) said memory) }
        ensures number { self.new.number ≡ self.old.number }
        ensures within { (n : ℕ) → StandsWithin n self.old.standing → IsWithin n self.new }
    {
        match ended {
            Ok(()) => self.say_outside(reply),
            Err(why) => {
                let_go_reply(reply);
                self.fail(why);
            }
        }
    }

    /// The transaction is committed.
    pub fn committed(&mut self, replies: ReplyList, committed: Result<u64, EngineRefusal>)
        ensures comes { (said : AnyAnswer) (memory : Bool) → WasCommitted committed said → Comes self.new (follows self.old.standing.mode (stands self.old) (stage.Committing replies) said memory) }
        ensures number { self.new.number ≡ self.old.number }
        ensures within { (n : ℕ) → StandsWithin n self.old.standing → IsWithin n self.new }
    {
        match committed {
            Ok(number) => self.end_outside(with_commit(replies, number)),
            Err(why) => {
                let_go_replies(replies);
                self.fail(why);
            }
        }
    }

    /// A CREATE statement is done.
    pub fn created(&mut self, replies: ReplyList, created: Created)
        ensures comes { (said : AnyAnswer) (memory : Bool) → WasCreated created said → Comes self.new (follows self.old.standing.mode (stands self.old) (stage.Creating replies) said memory) }
        ensures number { self.new.number ≡ self.old.number }
        ensures within { (n : ℕ) → StandsWithin n self.old.standing → IsWithin n self.new }
    {
        match created {
            Created::Committed(number) => self.end_outside(with_commit(replies, number)),
            Created::Denied(why) => {
                let_go_replies(replies);
                self.say_outside(Reply::Error(why));
            }
            Created::Refused(why) => {
                let_go_replies(replies);
                self.fail(why);
            }
        }
    }
}
