//! Values under places, in the order of the places. Room for them is made ahead, and putting one in takes no memory.
#![tactic(auto)]

mod balance;
mod change;
mod map;
mod search;
mod tree;

pub use map::{Blank, Spare, SpareMap};
