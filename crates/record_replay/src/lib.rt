//! The records of an image, replayed one at a time on a store without a limit: carried records and further ones, and then what
//! is left is taken back. A record that does not fit is told by rule 13, one by which a number leaves the HUGE range by rule 14.
#![tactic(auto)]

mod answer;
mod carrying;
mod changing;
mod defining;
mod ending;
mod following;
mod grouping;
mod keeping;
mod numbering;
mod reading;
mod replay;
mod reversing;
mod undoing;

pub use answer::{Head, Replayed};
pub use replay::Replay;
