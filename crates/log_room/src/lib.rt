//! What is used and reserved of the log's area, as numbers that each effect of a step moves, so that they are known without a
//! walk over what open transactions keep and owe.
//!
//! Each call of `LogRoom` says that it counts as the machine does (`specs/Rooms`).
#![tactic(auto)]

mod law;
mod room;

pub use law::same_room_law;
pub use room::{EMPTY_LOG, END_BYTES, LogRoom};
