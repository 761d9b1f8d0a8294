//! How a refusal of the engine's is told: with the names that the definitions of its session give.
#![tactic(auto)]

mod naming;
mod numbers;
mod telling;
mod texts;
mod values;

pub use telling::{is_deadlock, is_stop, told_of, told_plainly};
pub use values::values_in;
