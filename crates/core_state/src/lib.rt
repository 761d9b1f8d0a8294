//! The state of the engine's core: what it stores, its open transactions, locks and history, and what each session was told.
//!
//! `specs/Stands` says in which state of the machine a core is, and what an act of a step has to leave. Acts stand in the crates above.
#![tactic(auto)]

mod limits;
mod seat;
mod state;
mod stepping;

pub use limits::{MOST_OF_HISTORY, MOST_OF_TRANSACTION, fits};
pub use seat::{Cleaner, Seat, Seats};
pub use state::CoreState;
