//! Sessions, sets of them, and what they wait for.
ghost use Rattle.std.specs.Prelude.{◌≡◌, ℕ, ◌≤◌, ◌↔◌, ◌⊎◌, IsTrue};
ghost use Rattle.iv_types.specs.declared.limit.TheConstants.{MOST_SESSIONS};
ghost use Rattle.iv_types.specs.SessionSets.{Has, IsSomebody, HaveCommon, IsFirstCommon};

use crate::MOST_SESSIONS;

/// A set of sessions. Bit k - 1 stands for session k, from 1 to 64.
#[derive(Clone, Copy, PartialEq, Eq)]
pub struct Sessions {
    pub bits: u64,
}

/// The set of no session.
pub const NOBODY: Sessions = Sessions { bits: 0 };

impl Sessions {
    /// Whether a session, from 1 to 64, is in the set.
    pub fn has(self, session: u32) -> bool
        requires from_1 { 1 ≤ session }
        requires to_64 { session ≤ MOST_SESSIONS }
        ensures { IsTrue result ↔ Has self session }
    {
        (self.bits >> (session - 1)) & 1 == 1
    }

    /// The set and one more session, from 1 to 64.
    pub fn with(self, session: u32) -> Sessions
        requires from_1 { 1 ≤ session }
        requires to_64 { session ≤ MOST_SESSIONS }
        ensures { (other : ℕ) → Has result other ↔ (Has self other ⊎ (other ≡ session)) }
    {
        Sessions {
            bits: self.bits | (1 << (session - 1)),
        }
    }

    /// Whether anybody is in the set.
    pub fn is_somebody(self) -> bool
        ensures { IsTrue result ↔ IsSomebody self }
    {
        self.bits != 0
    }

    /// Whether the sets share a session.
    pub fn has_common(self, other: Sessions) -> bool
        ensures { IsTrue result ↔ HaveCommon self other }
    {
        self.bits & other.bits != 0
    }

    /// The first session that the sets share, from 1 to 64.
    pub fn first_common(self, other: Sessions) -> u32
        requires { HaveCommon self other }
        ensures first { IsFirstCommon self other result }
        ensures from_1 { 1 ≤ result }
        ensures to_64 { result ≤ MOST_SESSIONS }
    {
        (self.bits & other.bits).trailing_zeros() + 1
    }
}

/// A cycle of sessions, of which each waits for the next and the last for the first: the first `length` members.
#[derive(Clone, Copy, Debug, PartialEq, Eq)]
pub struct Cycle {
    pub length: u32,
    pub members: [u8; MOST_SESSIONS as usize],
}
