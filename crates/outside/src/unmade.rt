//! Why there is no disk.
ghost use Rattle.std.specs.Prelude.{◌≡◌};

use iv_types::{Failed, NoMemory};
use std::alloc::AllocError;
use thiserror::Error;

/// Why a disk was neither opened nor made.
#[derive(Clone, Copy, Debug, PartialEq, Eq, Error)]
pub enum Unmade {
    /// The call failed, and the outside's count of faults says so.
    #[error("the call failed")]
    Failed,
    /// There was no memory for it.
    #[error("out of memory")]
    NoMemory,
}

impl From<Failed> for Unmade {
    ghost use Rattle.outside.specs.declared.unmade.Unmade.TheVariants as why;

    ghost from_gives = { λ _ e. e ≡ why.Failed };

    fn from(_: Failed) -> Self {
        Unmade::Failed
    }
}

impl From<NoMemory> for Unmade {
    ghost use Rattle.outside.specs.declared.unmade.Unmade.TheVariants as why;

    ghost from_gives = { λ _ e. e ≡ why.NoMemory };

    fn from(_: NoMemory) -> Self {
        Unmade::NoMemory
    }
}

impl From<AllocError> for Unmade {
    ghost use Rattle.outside.specs.declared.unmade.Unmade.TheVariants as why;

    ghost from_gives = { λ _ e. e ≡ why.NoMemory };

    fn from(_: AllocError) -> Self {
        Unmade::NoMemory
    }
}
