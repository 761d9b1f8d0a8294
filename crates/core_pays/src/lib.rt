//! Acts on what a transaction owes and keeps: Pay, Ghost and UndoOne.
#![tactic(auto)]

mod ghosting;
mod holding;
mod keeping;
mod paying;
mod recording;
mod undoing;

pub use ghosting::make_ghost;
pub use paying::pay;
pub use undoing::undo_one;
