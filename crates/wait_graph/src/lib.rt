//! Cycles of waiting sessions, by levels: for each count of steps the sessions from which so many lead to the requester.
#![tactic(auto)]

mod cycle;
mod level;

pub use cycle::would_close;
pub use iv_types::{Cycle, Sessions};
