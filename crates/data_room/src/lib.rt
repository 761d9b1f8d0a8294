//! The room of the data of a core: what its entries count, and what is kept beside them for open transactions.
//!
//! `DataRoom` has what is kept, as numbers that each step moves, so that what the data use is known without a walk over what is stored.
//! `owed_room` and `first_room` tell what owed deltas keep. `used_law` says that the entries of the maps count what the machine says.
#![tactic(auto)]

mod law;
mod owing;
mod room;

pub use law::used_law;
pub use owing::{first_room, owed_room, rows_room};
pub use room::{DataRoom, Shares};
