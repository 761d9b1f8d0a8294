//! A database on a disk, opened: what its image recovers to stands in pages in memory, the disk has a checkpoint of it, and a core is
//! begun on both.
//!
//! `open.rt` has the order of its parts, `pages.rt` the store over pages, `refused.rt` what is answered where no database is opened.
#![tactic(auto)]

mod open;
mod pages;
mod refused;

pub use open::open_database;
pub use refused::OpenRefused;
