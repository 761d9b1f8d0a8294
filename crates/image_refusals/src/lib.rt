//! How the refusal of an image is told: a rule and its place, or a row of a view as it is stored and as it should be.
#![tactic(auto)]

mod row;
mod rule;

pub use row::row_line;
pub use rule::rule_line;
