//! The steps of transactions: what a session asks of an engine, what it is answered, and what an engine keeps of the
//! transactions that are open and of those that are committed.
#![tactic(auto)]

mod book;
mod kept_steps;
mod open_table;
mod step;
mod stepper;

pub use book::{Book, ENTRY_BYTES, Entry};
pub use kept_steps::Owing;
pub use open_table::{Open, OpenTable};
pub use step::{Act, Answer, LastRefusal, Step};
pub use stepper::{Stepper, do_step};
