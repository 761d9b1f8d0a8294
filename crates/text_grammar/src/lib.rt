//! Grammars over tokens of any kind: what a language, a reader of its texts and its first fault are, and why a reader
//! that is put together as its language is reads that language and no other, and faults at the right place.
//!
//! `specs/` has the parts that grammars and readers are written with, `proofs/` the laws of each part.
#![tactic(auto)]

mod fault;

pub use fault::{Cause, Fault, ParseError};
