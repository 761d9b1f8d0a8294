//! Requests for locks of acts of the core: what is free is given back, and else the act is answered.
#![tactic(auto)]

mod asking;

pub use asking::{ask_for, lose};
