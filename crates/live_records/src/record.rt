//! A record that can be taken back.
use iv_types::{Change, GroupDelta};
use std::mem::drop;

/// What a record says that can be taken back.
#[derive(Drop)]
pub enum LiveChange {
    /// A row was set.
    Wrote(Change),
    /// A delta was added to the row of its group.
    Added(GroupDelta),
}

/// A record that its transaction keeps.
#[derive(Drop)]
pub struct LiveRecord {
    /// Where the record begins, a byte of the device.
    pub place: u64,
    pub number: u64,
    pub transaction: u64,
    pub change: LiveChange,
}

impl LiveRecord {
    /// Lets it go. Its drop is proved here alone.
    pub fn let_go(self) {
        drop(self);
    }
}
