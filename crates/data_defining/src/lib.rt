//! Definitions: a table, an index with the entries of its table's rows, a view with its rows.
//!
//! What a definition begins with is made first (`first.rt`), without a change. Once the catalog has the definition, these entries are
//! entered (`defining.rt`).
#![tactic(auto)]

mod defining;
mod first;

pub use defining::{enter_first, reserve_first};
pub use first::{first_entries, rows_of_view};
