//! What acts read of the core: Defs and Fetch, and Peek where the core has the past of its state.
#![tactic(auto)]

mod defining;
mod fetching;
mod peeking;

pub use defining::defs;
pub use fetching::fetch;
pub use peeking::peek;
