//! A database on a disk: how a new one is made.
#![tactic(auto)]

mod format;

pub use format::{FormatFault, disk_bytes, format_disk};
