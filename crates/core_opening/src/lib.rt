//! How a core is opened on a database that was there.
//!
//! `specs/Opening` says when one can be.
#![tactic(auto)]

mod idle;
mod opening;

pub use opening::open;
