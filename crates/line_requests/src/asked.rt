//! What lines ask for.
use iv_types::{Refusal, Statement};

/// What a line of a session asks it for.
#[derive(Drop)]
pub enum Ask {
    /// `N: ..`, with a statement or the refusal of its text.
    Runs(Result<Statement, Refusal>),
    /// `N/ ..`, likewise.
    Loads(Result<Statement, Refusal>),
    /// One of these two, with a text for which there was no memory.
    Unread,
    /// `N+`
    Steps,
}

/// What a line asks for.
#[derive(Drop)]
pub enum Request {
    /// Nothing: the line is empty or begins with `#`.
    Nothing,
    /// The line has more bytes than are read.
    TooLong,
    /// The line has no form of a line.
    Bad,
    /// A line of this session, from 1 to 64.
    OfSession(u32, Ask),
    /// `clean`
    Clean,
    /// `checkpoint`
    Checkpoint,
}
