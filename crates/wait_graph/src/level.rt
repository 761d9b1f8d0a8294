//! The sessions from which so many steps lead to the requester.
ghost use Rattle.std.specs.Prelude.{ℕ, ◌≤◌, ◌<◌, ◌↔◌, slice_index_or, IfNone, IfSome};
ghost use Rattle.iv_types.specs.declared.limit.TheConstants.{MOST_SESSIONS};
ghost use Rattle.iv_meaning.specs.Waits.{nobody, recorded};
ghost use Rattle.iv_types.specs.SessionSets.{Has, HaveCommon};
ghost use Rattle.wait_graph.specs.Walks.{IsLevel};

use iv_types::{MOST_SESSIONS, NOBODY, SEATS, Sessions};

/// For each count of steps, from 0 to 64, a set of sessions.
pub type Levels = [Sessions; SEATS];

// The sessions that wait for one of these.
fn waiting_for(waits: &[Sessions; MOST_SESSIONS as usize], waited: Sessions) -> Sessions
    ensures { (session : ℕ) → 1 ≤ session → Has result session ↔ HaveCommon (recorded waits.now session) waited }
{
    let mut waiting = NOBODY;
    for (at, waits_for) in waits.iter().enumerate() {
        if waits_for.has_common(waited) {
            waiting = waiting.with(at as u32 + 1);
        }
    }
    waiting
}

/// The sessions from which so many steps lead to the requester, a session from 1 to 64.
pub fn levels_of(waits: &[Sessions; MOST_SESSIONS as usize], requester: u32) -> Levels
    requires from_1 { 1 ≤ requester }
    requires to_64 { requester ≤ MOST_SESSIONS }
    ensures { (steps : ℕ) → steps ≤ MOST_SESSIONS → IsLevel (recorded waits.now) requester (slice_index_or result steps nobody) steps }
{
    let mut levels = [NOBODY; SEATS];
    levels[0] = NOBODY.with(requester);
    for steps in 1..SEATS {
        levels[steps] = waiting_for(waits, levels[steps - 1]);
    }
    levels
}

/// How many steps the shortest walk from a session back to itself has, if there is one of at most 64 steps.
pub fn shortest(levels: &Levels, session: u32) -> Option<u32>
    requires from_1 { 1 ≤ session }
    requires to_64 { session ≤ MOST_SESSIONS }
    ensures none { IfNone result ((steps : ℕ) → 1 ≤ steps → steps ≤ MOST_SESSIONS → ¬ Has (slice_index_or levels.now steps nobody) session) }
    ensures some { IfSome result (λ total. Has (slice_index_or levels.now total nobody) session) }
    ensures before { IfSome result (λ total. (steps : ℕ) → 1 ≤ steps → steps < total → ¬ Has (slice_index_or levels.now steps nobody) session) }
    ensures in_range { IfSome result (λ total. (1 ≤ total) × (total ≤ MOST_SESSIONS)) }
{
    for total in 1..SEATS as u32 {
        if levels[total as usize].has(session) {
            return Some(total);
        }
    }
    None
}
