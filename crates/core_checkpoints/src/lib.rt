//! Checkpoints of the core: a checkpoint takes over all that the journal's records say, with the maps as they stand, and carries the
//! records of the steps that open transactions keep.
#![tactic(auto)]

mod carrying;
mod earliest;
mod saving;

pub use saving::save;
