//! Where an engine gives the records of its steps, so that a crash loses nothing that was acknowledged.
//!
//! `Journal` says what a journal does with them, `specs/Records` which records a step gives. `NoJournal` keeps none: it is that of an
//! engine whose database lies in memory alone.
#![tactic(auto)]

mod journal;
mod none;

pub use journal::{Checkpoints, Journal};
pub use none::NoJournal;
