//! The definitions of an image whose parts were read, as a catalog: the rest of rule 11 of the image.
//!
//! The parts of each definition are joined to its text, which is read and bound beside the definitions before it
//! (`read.rt`). What is stored keeps the texts beside the catalog: they are put into sorted maps, and so is the text of each
//! definition that comes behind them (`storing.rt`). Nothing is written.
#![tactic(auto)]

mod defining;
mod read;
mod storing;
mod texts;

pub use defining::defined;
pub use read::read_catalog;
pub use storing::{put_next_text, put_texts};
