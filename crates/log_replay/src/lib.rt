//! All records of an image, replayed in order on a store that has what the image's pages have: the carried ones, then those after
//! the redo place, and then what is left is taken back. The store has then what was committed; or the first record that fails a rule
//! is told.
#![tactic(auto)]

mod each;
mod log;
mod parts;

pub use log::replay_records;
