//! The stored pages of an image that was found, read as a store on which the records of its log can be replayed: the rows of its tables
//! in all their indexes, the rows of its views, and its definitions with their texts. Rules 10 to 12 of the image.
//!
//! Nothing is written.
#![tactic(auto)]

mod filling;
mod pages;
mod texts;

pub use pages::{StoredPages, read_pages};
