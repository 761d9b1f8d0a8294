//! Where things stand in a header, and the limits of what it says.

/// How many bytes a header has. Header 1 begins where header 0 ends.
pub(crate) const HEADER: u64 = 139_264;

/// What stands behind each header's gate.
pub(crate) const MAGIC: &[u8] = b"IVIEWDB";

// Where the fields of a header stand, counted from its gate. Numbers are big-endian.
pub(crate) const FORMAT_AT: usize = 8;

pub(crate) const PAGES_AT: usize = 12;

pub(crate) const AREA_BYTES_AT: usize = 16;

pub(crate) const NUMBER_AT: usize = 24;

pub(crate) const COMMITS_AT: usize = 32;

pub(crate) const NEXT_AT: usize = 40;

pub(crate) const AREA_AT: usize = 48;

pub(crate) const REDO_AT: usize = 56;

/// Where the page map stands, behind the fields.
pub(crate) const MAP_AT: usize = 64;

/// The least and the most pages.
pub(crate) const LEAST_PAGES: u32 = 512;

pub(crate) const MOST_PAGES: u32 = 131_072;

/// The least bytes of a log area.
pub(crate) const LEAST_AREA_BYTES: u64 = 65_536;

/// The bytes of the two slots of a page.
pub(crate) const SLOTS: u64 = 16_384;

/// The greatest header number, commit number and next record number.
pub(crate) const MOST_NUMBER: u64 = 1 << 62;

/// The greatest byte of a page map.
pub(crate) const MOST_BYTE: u8 = 2;
