//! In which modes a session holds one key of an index.
ghost use Rattle.std.specs.Prelude.{◌≡◌};
ghost use Rattle.lock_manager.specs.Points.{no_modes, has_mode, with_mode, is_apart};

use iv_types::LockMode;
use spare_map::Blank;
use std::alloc::Global;

/// Some of the modes.
#[derive(Clone, Copy)]
pub struct Modes {
    pub share: bool,
    pub exclusive: bool,
    pub increment: bool,
}

impl Modes {
    /// No mode.
    pub fn none() -> Modes
        ensures { result ≡ no_modes }
    {
        Modes {
            share: false,
            exclusive: false,
            increment: false,
        }
    }

    /// Whether this is one of them.
    pub fn has(self, mode: LockMode) -> bool
        ensures { result ≡ has_mode self mode }
    {
        match mode {
            LockMode::Share => self.share,
            LockMode::Exclusive => self.exclusive,
            LockMode::Increment => self.increment,
        }
    }

    /// These and this one.
    pub fn with(mut self, mode: LockMode) -> Modes
        ensures { result ≡ with_mode self mode }
    {
        match mode {
            LockMode::Share => self.share = true,
            LockMode::Exclusive => self.exclusive = true,
            LockMode::Increment => self.increment = true,
        }
        self
    }

    /// Whether one of them may not be held beside this one of another session.
    pub fn is_apart(self, mode: LockMode) -> bool
        ensures { result ≡ is_apart self mode }
    {
        match mode {
            LockMode::Share => self.exclusive || self.increment,
            LockMode::Exclusive => self.share || self.exclusive || self.increment,
            LockMode::Increment => self.share || self.exclusive,
        }
    }
}

impl Blank for Modes {
    fn blank(_alloc: Global) -> Modes {
        Modes::none()
    }
}
