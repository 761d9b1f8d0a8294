//! What statements, lines and scripts mean: definitions in `specs/`, over lists and whole numbers alone.
//!
//! The functions of `laws` have no body: each is there for its contract, which is a law about the definitions.
#![tactic(auto)]

pub mod example;
pub mod laws;
