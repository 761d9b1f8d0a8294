//! What a line of a session leaves behind.
use crate::asked::Asked;
use crate::line::Replies;

/// How far a session's line is.
#[derive(Drop)]
pub enum Line {
    /// No statement is under way.
    Idle,
    /// A step is asked for.
    Under(Asked),
    /// The statement has ended, and its replies were not taken yet.
    Ended(Replies),
}

impl Line {
    /// Lets a line go. Its drop is proved here alone.
    pub fn let_go(self) {
        match self {
            Line::Idle => {}
            Line::Under(asked) => asked.let_go(),
            Line::Ended(replies) => replies.let_go(),
        }
    }
}
