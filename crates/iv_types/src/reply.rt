//! What a line is answered.
use crate::{Refusal, Row, Sequence, Sessions};

/// One line of an answer.
#[derive(Drop)]
pub enum Reply {
    /// A row that was asked for.
    Row(Row),
    /// The statement is done: how many rows it listed, inserted or matched.
    Done(u64),
    /// Its transaction is committed, and this is the greatest commit number then.
    Commit(u64),
    /// A snapshot of this number is open.
    Snapshot(u64),
    /// The statement waits for these sessions.
    Wait(Sessions),
    /// A step was done, and the statement has not ended.
    Step,
    /// It was refused.
    Error(Refusal),
}

/// The replies to a line, in order.
pub type ReplyList = Sequence<Reply>;
