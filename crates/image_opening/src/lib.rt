//! An image of a database, read to what it recovers to: its stored pages, the records of its log replayed on them, and each view compared
//! with what it is, evaluated afresh. Every rule of the image is tried, in order, and the first that fails is told, at its place.
//!
//! Nothing is written.
#![tactic(auto)]

mod bytes;
mod fault;
mod read;
mod records;
mod views;

pub use fault::{OpenFault, WrongView};
pub use read::{Recovered, read_image};
