//! SELECT, interval by interval: it wants rows, whoever reads them.
#![tactic(auto)]

mod answering;
mod choosing;
mod going;
mod grouping;
mod listing;
mod ordering;
mod task;

pub use task::Task;
