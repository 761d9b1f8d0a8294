//! The table of sessions, and what the lines of a script do with it, over any engine that does steps.
#![tactic(auto)]

mod cleaning;
mod going;
mod leaving;
mod lines;
mod print;
mod slot;
mod table;
mod trying;

pub use slot::{LineKind, Slot};
pub use table::SessionTable;
