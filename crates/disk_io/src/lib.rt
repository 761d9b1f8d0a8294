//! A disk of a fixed size, as the engine sees it: its calls, what a read gives, what a crash may leave.
#![tactic(auto)]

mod call;
mod disk;
mod file;
mod memory;
mod plain;
mod record;
mod replay;
mod through;
mod torn;

pub use disk::Disk;
pub use file::FileDisk;
pub use memory::{CallList, MemoryDisk};
pub use plain::PlainDisk;
pub use through::write_through;
pub use torn::Torn;
