//! INSERT, UPDATE and DELETE, one step at a time: what they want read and changed, whoever does it.
#![tactic(auto)]

mod choosing;
mod finding;
mod pending;
mod setting;
mod task;

pub use task::Task;
