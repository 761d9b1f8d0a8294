//! SELECT, INSERT, UPDATE and DELETE, one step at a time: a statement is bound, planned, and becomes a task of its kind.
#![tactic(auto)]

mod task;

pub use task::Task;
