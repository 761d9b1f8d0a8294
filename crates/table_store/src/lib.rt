//! Tables over sorted maps, and sorted maps as lists in memory.
#![tactic(auto)]

mod entry_list;
mod exchange;
mod filling;
mod keys;
mod lengths;
mod list_maps;
mod row_entries;
mod stored;
mod tables;

pub use exchange::make_room;
pub use filling::put_all;
pub use lengths::index_key_len;
pub use list_maps::ListMaps;
pub use row_entries::{index_key, key_at, own_entries};
pub use stored::{row_of, table_of};
pub use tables::{Ready, Tables, entry_bytes};
