//! What a task is told, and what it does next.
use iv_types::{Bytes, Interval, LockMode, Refusal, ReplyList, Row, RowList};

/// What a task is told of the step that it wanted last.
#[derive(Drop)]
pub enum Told {
    /// Nothing: it has only begun, or it is to want its rows again.
    Nothing,
    /// The rows that it wanted.
    Rows(RowList),
    /// The row that stood there before its change, if there was one.
    Before(Option<Row>),
}

/// What a task does next.
#[derive(Drop)]
pub enum Turn {
    /// It wants the rows of an interval of an index, which it locks so.
    Fetch {
        index: u32,
        interval: Interval,
        mode: LockMode,
    },
    /// It wants the rows of an interval of an index as they are at its snapshot's number.
    Peek {
        index: u32,
        interval: Interval,
    },
    /// It wants this row, or none, to stand under a key of a table.
    Change {
        table: u32,
        key: Bytes,
        new: Option<Row>,
    },
    /// It has ended, with these replies.
    Done(ReplyList),
    /// It is refused, for what its statement means.
    Refused(Refusal),
    /// There is no memory for what comes next. Nothing is promised of a task after this.
    NoMemory,
}

impl Told {
    /// Lets it go. Its drop is proved here, so that no crate above proves it again.
    pub fn let_go(self) {
        let _ = self;
    }
}

impl Turn {
    /// Lets it go. Its drop is proved here, so that no crate above proves it again.
    pub fn let_go(self) {
        match self {
            Turn::Refused(refusal) => refusal.let_go(),
            _ => {}
        }
    }
}
