//! What an engine stores: definitions, the rows of tables in all their indexes, stored view rows with the kept pays of open
//! transactions, and the versions of both.
//!
//! `specs/Contents` says what that is in the words of the machine, and `specs/Held` when a store has it. `found` reads what an
//! index has in an interval and `found_bytes` what that counts, and `row` what stands under a key. `row_at` and `found_at` read at a
//! commit number, and `specs/Machine` says when versions and pending rows are those of a state of the machine. `put_wants` and `owed` tell what a change asks for and owes. The sizes of a change are numbers of the machine's
//! `Counts` and `Log`, and none takes memory.
#![tactic(auto)]

mod change;
mod deltas;
mod entries;
mod law;
mod noted;
mod past;
mod past_rows;
mod peeking;
mod reading;
mod shown;
mod sizes;
mod store;
mod texts;
mod view_past;

pub use deltas::delta_entry;
pub use law::{no_version_law, peeked_law, rows_then_law};
pub use store::{DataStore, Pending};
pub use texts::{definition_entries, definition_need, definition_size};
