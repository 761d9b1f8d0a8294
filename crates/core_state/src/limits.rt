//! The limits of a core.
ghost use Rattle.std.specs.Prelude.{◌+◌, ◌-◌, ◌≤◌, ◌<◌, ◌^◌, ◌↔◌, IsTrue};

/// The most bytes that a transaction's notes and kept steps may count.
pub const MOST_OF_TRANSACTION: u64 = 67_108_864;

/// The most bytes that the history may count, with the open transactions.
pub const MOST_OF_HISTORY: u64 = 268_435_456;

/// Whether so many bytes beside those that are counted are within a limit.
pub fn fits(kept: u64, need: u64, most: u64) -> bool
    requires { most < 2 ^ 64 - 1 }
    ensures { IsTrue result ↔ (kept + need ≤ most) }
{
    kept.saturating_add(need) <= most
}
