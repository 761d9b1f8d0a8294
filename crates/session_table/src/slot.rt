//! The places of sessions in a table of them.
use txn_sessions::Session;

/// Which line of a session is unfinished.
#[derive(Clone, Copy)]
pub enum LineKind {
    /// None is.
    Idle,
    /// A line `N: ..` of which a step was blocked.
    Waiting,
    /// A line `N/ ..`.
    Stepping,
    /// One of which the last step was blocked.
    Held,
}

/// A session, and its unfinished line.
#[derive(Drop)]
pub struct Slot {
    pub session: Session,
    pub line: LineKind,
}
