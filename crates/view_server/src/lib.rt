//! The program's top call: its words, new databases on disks, scripts on them and in memory, and the large script that it makes itself.
#![tactic(auto)]

mod init;
mod on_disk;
mod script;

pub use script::run;
pub use script_run::Status;
