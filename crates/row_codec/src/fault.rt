//! Why bytes could not be decoded.
ghost use Rattle.std.specs.Prelude.{◌≡◌};
ghost use Rattle.row_codec.specs.declared.fault.RowFault.TheVariants as faults;

use iv_types::NoMemory as OutOfMemory;
use std::alloc::{AllocError, AllocFailed};
use thiserror::Error;

/// Why bytes are no row or no key, or could not be decoded.
#[derive(Clone, Copy, Debug, PartialEq, Eq, Error)]
pub enum RowFault {
    /// A rule fails in the column that begins at this place, counted in bytes from 0: rule 1 where the bytes end too
    /// early, 2 where HUGE holds -2^127, 3 where a text is longer than 200 bytes, 4 where a text is not UTF-8, 5 where
    /// bytes are left over (the place is that of the first of them), and 6 where in a key a byte 0 is followed by
    /// neither 0 nor 255.
    #[error("rule {rule} fails at byte {place}")]
    BadRow { rule: u8, place: u64 },
    /// There was no memory for what is decoded.
    #[error("out of memory")]
    NoMemory,
}

impl From<OutOfMemory> for RowFault {
    ghost from_gives = { λ _ e. e ≡ faults.NoMemory };

    fn from(_: OutOfMemory) -> Self {
        RowFault::NoMemory
    }
}

impl From<AllocError> for RowFault {
    ghost from_gives = { λ _ e. e ≡ faults.NoMemory };

    fn from(_: AllocError) -> Self {
        RowFault::NoMemory
    }
}

impl<T: Drop> From<AllocFailed<T>> for RowFault {
    ghost from_gives = { λ _ e. e ≡ faults.NoMemory };

    fn from(_: AllocFailed<T>) -> Self {
        RowFault::NoMemory
    }
}
