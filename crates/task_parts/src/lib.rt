//! What the tasks of statements share: what they are told and do next, and how a relation is read by a part of a plan.
#![tactic(auto)]

mod source;
mod turn;

pub use source::{Source, source_by};
pub use turn::{Told, Turn};
