//! Why no image was found.
ghost use Rattle.std.specs.Prelude.{◌≡◌};
ghost use Rattle.image_finding.specs.declared.fault.FindFault.TheVariants as faults;

use iv_types::Failed;
use std::alloc::{AllocError, AllocFailed};
use thiserror::Error;

// The rules of the image that are tested here, by their numbers. Those of the log's blocks, 6 and 7, are told by a scan.
pub(crate) const HEADER_LIVES: u8 = 1;

pub(crate) const FORMAT_KNOWN: u8 = 2;

pub(crate) const SIZES_FIT: u8 = 3;

pub(crate) const AREA_NAMED: u8 = 4;

pub(crate) const FIRST_BLOCK_ENDS: u8 = 5;

pub(crate) const MAP_READ: u8 = 8;

pub(crate) const PAGES_FORMED: u8 = 9;

/// The rule of the image that fails, by its number, and the first place at which it does, a byte of the device, counted
/// from 0.
#[derive(Clone, Copy, Debug, PartialEq, Eq, Error)]
#[error("rule {rule} of the image fails at byte {place}")]
pub struct BadImage {
    pub rule: u8,
    pub place: u64,
}

/// Why no image was found.
#[derive(Clone, Copy, Debug, PartialEq, Eq, Error)]
pub enum FindFault {
    /// A rule fails.
    #[error("{0}")]
    BadImage(BadImage),
    /// The disk failed, and its count of faults says so.
    #[error("the disk failed")]
    DiskFault,
    /// There was no memory for what is read.
    #[error("out of memory")]
    NoMemory,
}

impl From<BadImage> for FindFault {
    ghost from_gives = { λ bad e. e ≡ faults.BadImage bad };

    fn from(bad: BadImage) -> Self {
        FindFault::BadImage(bad)
    }
}

impl From<Failed> for FindFault {
    ghost from_gives = { λ _ e. e ≡ faults.DiskFault };

    fn from(_: Failed) -> Self {
        FindFault::DiskFault
    }
}

impl From<AllocError> for FindFault {
    ghost from_gives = { λ _ e. e ≡ faults.NoMemory };

    fn from(_: AllocError) -> Self {
        FindFault::NoMemory
    }
}

impl<T: Drop> From<AllocFailed<T>> for FindFault {
    ghost from_gives = { λ _ e. e ≡ faults.NoMemory };

    fn from(_: AllocFailed<T>) -> Self {
        FindFault::NoMemory
    }
}
