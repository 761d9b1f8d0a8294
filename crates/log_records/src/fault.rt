//! Why records could not be read.
ghost use Rattle.std.specs.Prelude.{◌≡◌};
ghost use Rattle.log_records.specs.declared.fault.ScanFault.TheVariants as faults;
ghost use Rattle.log_records.specs.declared.fault.Unread.TheVariants as unread;

use std::alloc::{AllocError, AllocFailed};
use thiserror::Error;

/// Why an area or a record could not be read.
#[derive(Clone, Copy, Debug, PartialEq, Eq, Error)]
pub enum ScanFault {
    /// A rule fails, and the place of the first byte at which it does, counted from 0: rule 6 where an open block and
    /// the gate behind it do not lie in the area, rule 7 where no whole record begins.
    #[error("rule {0} fails at byte {1}")]
    Bad(u8, u64),
    /// There was no memory for what is read.
    #[error("out of memory")]
    NoMemory,
}

impl From<AllocError> for ScanFault {
    ghost from_gives = { λ _ e. e ≡ faults.NoMemory };

    fn from(_: AllocError) -> Self {
        ScanFault::NoMemory
    }
}

impl<T: Drop> From<AllocFailed<T>> for ScanFault {
    ghost from_gives = { λ _ e. e ≡ faults.NoMemory };

    fn from(_: AllocFailed<T>) -> Self {
        ScanFault::NoMemory
    }
}

// Why a field could not be read.
#[derive(Clone, Copy, Debug, PartialEq, Eq)]
pub enum Unread {
    NoRecord,
    NoMemory,
}

impl From<AllocError> for Unread {
    ghost from_gives = { λ _ e. e ≡ unread.NoMemory };

    fn from(_: AllocError) -> Self {
        Unread::NoMemory
    }
}

impl<T: Drop> From<AllocFailed<T>> for Unread {
    ghost from_gives = { λ _ e. e ≡ unread.NoMemory };

    fn from(_: AllocFailed<T>) -> Self {
        Unread::NoMemory
    }
}
