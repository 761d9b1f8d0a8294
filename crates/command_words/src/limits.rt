//! How large a new database may be.

/// The fewest pages that a database has.
pub const LEAST_PAGES: u32 = 512;

/// The most pages that a database has.
pub const MOST_PAGES: u32 = 131_072;

/// The pages of a database where no number is given.
pub const DEFAULT_PAGES: u32 = 4_096;

/// The fewest KiB that a log area has.
pub const LEAST_LOG_KIB: u32 = 64;

/// The most KiB that a log area has.
pub const MOST_LOG_KIB: u32 = 262_144;

/// The KiB of a log area where no number is given.
pub const DEFAULT_LOG_KIB: u32 = 16_384;
