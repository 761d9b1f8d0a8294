//! What a header says beside the sizes, the log's redo place and the pages.

/// The fields of a header that the caller of a publish gives.
#[derive(Clone, Copy, Debug, Drop, PartialEq, Eq)]
pub struct HeaderFacts {
    /// The number of the disk's format.
    pub format: u32,
    /// The number of the header: 1 for the first, and then one more each time.
    pub number: u64,
    /// The greatest commit number.
    pub commits: u64,
    /// The number of the next log record.
    pub next_entry: u64,
    /// The log area in use, 0 or 1.
    pub area: u8,
}
