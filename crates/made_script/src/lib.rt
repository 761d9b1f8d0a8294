//! The script that the command `make` runs: a table and its view, rounds of eight sessions that each insert a row, and a
//! look at the view. `specs/Made` says which lines these are.
#![tactic(auto)]

mod lines;

pub use lines::{LAST_LINE, MOST_ROUNDS, defining_lines, round_lines};
