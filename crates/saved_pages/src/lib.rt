//! What a checkpoint saved, as the stored pages of an image.
//!
//! The stored pages of a checkpoint hold the entries of the maps that it saved (`log_journal`). Where these maps hold the rows of tables and
//! views and the parts of texts, the bytes of the disk bear the image that has them (`specs/Laws`).
#![tactic(auto)]

pub mod laws;
