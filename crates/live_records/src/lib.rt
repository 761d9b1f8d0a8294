//! What transactions keep while the records of a log are replayed: their changes and pays that are not taken back, until they end.
//!
//! What is left at the end is taken back, the latest record first.
#![tactic(auto)]

mod kept;
mod live;
mod order;
mod record;

pub use kept::{LiveRecords, OrderedRecords};
pub use record::{LiveChange, LiveRecord};
