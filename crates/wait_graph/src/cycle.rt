//! The first shortest cycle through a session.
ghost use Rattle.std.specs.Prelude.{◌≡◌, ℕ, ◌≤◌, List, slice_index, slice_index_or, IfNone, IfSome};
ghost use Rattle.iv_types.specs.declared.limit.TheConstants.{MOST_SESSIONS};
ghost use Rattle.iv_meaning.specs.Waits.{nobody, recorded, would_wait_for, IsCycle, IsFirstCycle, sessions_of};
ghost use Rattle.wait_graph.specs.Walks.{HasWalk, HasNoShorter, IsLevel};

use crate::level::{Levels, levels_of, shortest};
use iv_types::{Cycle, MOST_SESSIONS, Sessions};

// The first cycle of this length, which is the least.
fn first_cycle(
    waits: &[Sessions; MOST_SESSIONS as usize],
    levels: &Levels,
    requester: u32,
    length: u32,
) -> Cycle
    requires from_1 { 1 ≤ requester }
    requires to_64 { requester ≤ MOST_SESSIONS }
    requires one { 1 ≤ length }
    requires all { length ≤ MOST_SESSIONS }
    requires levels { (steps : ℕ) → steps ≤ MOST_SESSIONS → IsLevel (recorded waits.now) requester (slice_index_or levels.now steps nobody) steps }
    requires closed { HasWalk (recorded waits.now) length requester requester }
    requires shortest { HasNoShorter (recorded waits.now) requester length }
    ensures first { IsFirstCycle (recorded waits.now) requester (sessions_of result) }
    ensures length { result.length ≡ length }
    ensures behind { (place : ℕ) → length ≤ place → slice_index result.members place ≡ 0 }
{
    let mut members = [0; MOST_SESSIONS as usize];
    members[0] = requester as u8;
    let mut last = requester;
    for at in 1..length {
        last = waits[last as usize - 1].first_common(levels[(length - at) as usize]);
        members[at as usize] = last as u8;
    }
    Cycle { length, members }
}

/// The cycle that would be closed if a session, from 1 to 64, waited for these holders, or nothing where none would be.
///
/// `waits[k - 1]` is for whom session k waits; what stands there for the session itself does not count. The cycle
/// begins with the session, each member waits for the next and the last for the first. It is the shortest one, and of
/// equally long ones the first in lexicographic order. Its members behind `length`, from 1 to 64, are 0.
pub fn would_close(
    waits: &[Sessions; MOST_SESSIONS as usize],
    session: u32,
    holders: Sessions,
) -> Option<Cycle>
    requires from_1 { 1 ≤ session }
    requires to_64 { session ≤ MOST_SESSIONS }
    ensures none { IfNone result ((cycle : List ℕ) → ¬ IsCycle (would_wait_for waits.now session holders) session cycle) }
    ensures some { IfSome result (λ cycle. IsFirstCycle (would_wait_for waits.now session holders) session (sessions_of cycle)) }
    ensures from_1 { IfSome result (λ cycle. 1 ≤ cycle.length) }
    ensures to_64 { IfSome result (λ cycle. cycle.length ≤ MOST_SESSIONS) }
    ensures behind { IfSome result (λ cycle. (place : ℕ) → cycle.length ≤ place → slice_index cycle.members place ≡ 0) }
{
    let mut graph = *waits;
    graph[session as usize - 1] = holders;
    let levels = levels_of(&graph, session);
    let length = shortest(&levels, session)?;
    Some(first_cycle(&graph, &levels, session, length))
}
