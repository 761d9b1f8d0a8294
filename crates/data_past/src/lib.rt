//! The past of what an engine stores: the committed rows of keys that open transactions have changed, and the versions that a
//! commit leaves.
//!
//! Each call tells what it does to pending rows and to versions (`specs/Moves`). `proofs/Effects` shows of each effect of the
//! machine that with this a store keeps the past of its state.
#![tactic(auto)]

mod ahead;
mod law;
mod noting;
mod versions;

pub use ahead::{VersionsAhead, copied_deltas};
pub use law::past_law;
pub use noting::{Noting, forget_change, forget_changes, note_change, ready_note};
pub use versions::{Versions, push_versions, ready_versions, reserve_versions, version_of};
