//! The log: records that wait for a flush, and the blocks of an area of the disk to which they are flushed.
//!
//! A block's gate is opened by a write of its own, behind a sync. The records, their bytes and the reading of an area
//! are those of `log_records`.
#![tactic(auto)]

mod block;
mod log;

pub use iv_types::DiskFault;
pub use log::{AREAS_AT, LEAST_AREA, Log, LogFull, MOST_AREA, held_blocks_stand};
pub use log_records::{
    LentRecord, Record, RecordList, ScanFault, Scanned, entry_bytes, entry_size, is_short,
    read_entry, scan,
};
