//! What a change of one row owes to the rows of a view.
//!
//! The contribution of a row of a view's first table is nothing where the view's conditions are not true of it and of the row
//! of the second table that it joins, and else one delta: the encoded group, a count of 1 and the values of the columns that
//! are summed. For each row of the first table that a change concerns, in the order of their keys, it owes the old
//! contribution negated and then the new one, or neither where the two are equal.
//!
//! `needs` says what has to be looked up for that, `deltas` what is owed by the rows that were found, `owed` does both for all
//! views by the tables' rows, and `wants_of` has the locks of a change.
//!
//! `txn_machine`'s `Deltas` says what is owed; `specs/Law` has the delta law, by which the deltas of a change carry each
//! group's row from before it to after it.
#![tactic(auto)]

mod all_views;
mod contribution;
mod delta;
mod fitting;
mod joining;
pub mod law;
mod looking;
mod wants;

pub use all_views::owed;
pub use contribution::contribution_of;
pub use delta::deltas;
pub use fitting::{looked_up_fit, rows_fit};
pub use joining::{are_joined, is_joined};
pub use looking::needs;
pub use wants::wants_of;
