//! What a request is answered.
use iv_types::Sessions;

/// A request is granted as a whole, or blocked by other sessions.
#[derive(Clone, Copy, PartialEq, Eq)]
pub enum LockAnswer {
    Granted,
    /// The sessions that hold a lock that conflicts with one that is asked for: at least one.
    Blocked(Sessions),
}
