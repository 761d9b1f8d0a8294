//! The machine of transactions that the engine is proved against: locks, kept changes, owed deltas and stored view rows.
#![tactic(auto)]

pub mod example;
pub mod kept;
pub mod steps;
pub mod views;
