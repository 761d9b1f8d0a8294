//! What a definition among the log's records says, done on a store over maps without a limit: the object that its text makes is
//! defined, and begins with the entries of an index or the rows of a view.
#![tactic(auto)]

mod entering;
mod replay;

pub use replay::replay_definition;
