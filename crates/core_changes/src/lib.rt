//! Changes of rows: the act Put of the core.
#![tactic(auto)]

mod ahead;
mod putting;
mod room;

pub use putting::put;
