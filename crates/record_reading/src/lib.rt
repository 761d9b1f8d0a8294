//! What scanned records of the log say of rows and groups, beside the definitions that stand where they are replayed:
//! whether they fit their table or view, and the change or the delta that they say.
#![tactic(auto)]

mod change;
mod completed;
mod delta;
mod fault;
mod group;
mod key;
mod key_of_row;
mod laws;
mod row;

pub use change::read_change;
pub use delta::read_delta;
pub use group::read_group;
pub use key_of_row::is_key_of;
pub use laws::write_law;
