//! What records of the log say of rows of views, on a store on which no transaction is open: a delta is added to the row of
//! its group, or taken back, a row of zeros is made, and one is removed.
//!
//! What a record says fits its view. Whether it fits the row that stands there is told here.
#![tactic(auto)]

mod adding;
mod numbers;
mod zeros;

pub use adding::{AddedDelta, add_delta, list_ghost};
pub use zeros::{make_row, remove_row};
