//! Runs of a latch: threads that take turns with a book, seats that meet, a seat that finds the turn held, and all the
//! seats that a latch has.
#![tactic(auto)]

mod ask;
mod book;
mod crew;
mod pair;
#[cfg(test)]
mod tests;

pub use ask::Ask;
pub use book::{Add, Book, Entry};
pub use crew::{every_seat, one_more};
pub use pair::{add_all, add_and_meet, add_one, ask_while_held, both};
