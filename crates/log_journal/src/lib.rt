//! The journal of an engine on a disk: its records go to a log area, and its checkpoints to the pages.
//!
//! A checkpoint writes the header that is not live, the pages that have changed and the first block of the log area that is not in
//! use. So a crash leaves the old image or the new one.
#![tactic(auto)]

mod journal;
mod marking;

pub use journal::LogJournal;
