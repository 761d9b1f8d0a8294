//! The log of the machine on the disk: what a crash at any moment of any call leaves there.
#![tactic(auto)]

pub mod calls;
pub mod images;
