//! Expressions evaluated on rows, and rows grouped.
#![tactic(auto)]

mod combination;
mod expression;
mod fresh;
mod grouping;
mod kept_view;
mod outcome;
mod readable;
mod storing;
mod wide;

pub use combination::Combination;
pub use expression::{are_joined, is_chosen, passes, passes_on, value, value_on};
pub use fresh::{fresh_rows, primary_of, rows_of_table};
pub use grouping::{Grouped, add_member, group, values_at};
pub use kept_view::{kept_rows, recompute};
pub use readable::{all_fit, are_alike, is_readable};
pub use storing::{stored, tuple_rows};
pub use wide::Wide;
