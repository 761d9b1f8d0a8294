//! The entries of an image as rows of a store: those of tables in all their indexes, and those of views.
//!
//! The entries were tested before. What a checkpoint has of definitions is passed over: the catalog has it.
#![tactic(auto)]

mod fill;
mod groups;
mod rows;

pub use fill::fill_store;
