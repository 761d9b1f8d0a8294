//! The records of the log, which say what transactions did, as bytes, and the reading of an area of them that a crash
//! may have cut short.
//!
//! An area is a row of blocks. A block is a gate byte, a length and whole records; it counts once its gate is open.
//! All numbers are big-endian.
#![tactic(auto)]

mod fault;
mod reading;
mod record;
mod scanning;
mod writing;

pub use fault::ScanFault;
pub use record::{LentRecord, Record, RecordList, Scanned};
pub use scanning::{OPEN, read_entry, scan};
pub use writing::{entry_bytes, entry_size, is_short, put_entry};
