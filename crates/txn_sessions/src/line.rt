//! How far a statement came.
ghost use Rattle.std.specs.Prelude.{◌≡◌, ◌∷◌, []};
ghost use Rattle.txn_sessions.specs.Standings.{replies_of};

use iv_types::{DeltaList, Mode, Reply, ReplyList, Row, Statement};
use statement_tasks::Task;
use std::alloc::Global;
use std::mem::drop;

/// The replies to a statement.
#[derive(Drop)]
pub struct Replies {
    pub told: ReplyList,
    /// One more behind these, for which no memory is taken.
    pub last: Option<Reply>,
}

/// What a transaction is opened for.
#[derive(Drop)]
pub enum Opening {
    Begin(Mode),
    /// One statement that reads or changes rows.
    Alone(Statement),
}

/// What follows once all that is to be taken back is.
#[derive(Drop)]
pub enum After {
    /// The statement has ended with this reply.
    Says(Reply),
    /// The transaction ends, and then the statement has ended with this reply.
    Ends(Reply),
    /// The session is back at a savepoint, behind which there were later ones, so many; so many steps were kept then.
    Returns { later: usize, kept: u64 },
}

/// A change that is made and owes deltas.
#[derive(Drop)]
pub struct Owing {
    pub task: Task,
    /// The row that was there.
    pub before: Option<Row>,
    pub owed: DeltaList,
    /// How many of them are paid.
    pub paid: usize,
    /// How many steps the statement has kept.
    pub made: u64,
}

/// What a statement has asked for.
#[derive(Drop)]
pub enum Stage {
    /// Begin.
    Opening(Opening),
    /// Defs, in the transaction that began at this number.
    Learning { opening: Opening, number: u64 },
    /// Fetch or Peek.
    Fetching { task: Task, made: u64 },
    /// Put.
    Changing { task: Task, made: u64 },
    /// Pay.
    Paying(Owing),
    /// Ghost.
    Lacking(Owing),
    /// UndoOne, and behind it so many more.
    Undoing { left: u64, last: After },
    /// End.
    Ending(Reply),
    /// Commit; the number of the commit comes behind these replies.
    Committing(ReplyList),
    /// Schema, likewise.
    Creating(ReplyList),
}

/// A reply is let go here alone, which is costly to prove.
pub fn let_go_reply(reply: Reply) {
    let _ = reply;
}

/// Replies that are not told are let go here alone.
pub fn let_go_replies(replies: ReplyList) {
    let _ = replies;
}

/// One reply, for which no memory is taken.
pub fn one(alloc: Global, reply: Reply) -> Replies
    ensures { replies_of result ≡ reply ∷ [] }
{
    Replies {
        told: ReplyList::new(alloc),
        last: Some(reply),
    }
}

impl Opening {
    /// Lets it go. Its drop is proved here alone.
    pub fn let_go(self) {
        match self {
            Opening::Begin(_) => {}
            Opening::Alone(statement) => statement.let_go(),
        }
    }
}

impl After {
    /// Lets it go.
    pub fn let_go(self) {
        drop(self);
    }
}

impl Replies {
    /// Lets them go. Their drop is proved here, so that no crate above proves it again.
    pub fn let_go(self) {
        let Replies { told, last } = self;
        let_go_replies(told);
        if let Some(reply) = last {
            let_go_reply(reply);
        }
    }
}

impl Stage {
    /// Lets it go. Its drop is proved here alone.
    pub fn let_go(self) {
        match self {
            Stage::Opening(opening) => opening.let_go(),
            Stage::Learning { opening, number: _ } => opening.let_go(),
            Stage::Fetching { task, made: _ } => task.let_go(),
            Stage::Changing { task, made: _ } => task.let_go(),
            Stage::Paying(owing) => owing.let_go(),
            Stage::Lacking(owing) => owing.let_go(),
            Stage::Undoing { left: _, last } => last.let_go(),
            Stage::Ending(reply) => let_go_reply(reply),
            Stage::Committing(replies) => let_go_replies(replies),
            Stage::Creating(replies) => let_go_replies(replies),
        }
    }
}

impl Owing {
    /// Lets it go.
    pub fn let_go(self) {
        drop(self);
    }
}
