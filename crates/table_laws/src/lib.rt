//! Laws of tables as finite maps, of kept changes and their taking back, and of sums. Each function is there for its
//! contract.
//!
//! `K` is a type of keys and `X` one of rows; each law holds in every order of the keys that is total and in which only
//! equal keys tie. Proofs elsewhere cite the lemmas of `proofs/`, which take the two facts about the order first.
#![tactic(auto)]

pub mod adding;
pub mod order;
pub mod sessions;
pub mod table;
pub mod taking_back;
