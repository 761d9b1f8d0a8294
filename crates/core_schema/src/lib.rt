//! CREATE statements of the core: why one is refused, and how what one makes is entered, in the store and in the history, once its
//! record is on the disk.
#![tactic(auto)]

mod defining;
mod entering;

pub use defining::define;
