//! Laws of databases that statements left, and of how a SELECT reads them by its plan. Each function is there for its
//! contract.
#![tactic(auto)]

pub mod limited;
pub mod rows;
pub mod select;
pub mod sound;
