//! Rows and keys in bytes, and ranges of keys.
//!
//! A row or a key is its columns in order, and all numbers are big-endian. The bytes of keys stand in lexicographic
//! order as the values do that they encode.
#![tactic(auto)]

mod fault;
mod fitting;
mod intervals;
mod keys;
mod laws;
mod lengths;
mod rows;
mod skipping;
mod text;

pub use fault::RowFault;
pub use fitting::{fits, key_fits, row_fits};
pub use intervals::{common, point, prefix_interval};
pub use keys::{decode_key, encode_key};
pub use laws::{key_law, key_order_law, row_law};
pub use lengths::{key_value_len, row_len, table_row_len};
pub use rows::{decode_row, encode_row};
pub use skipping::after_column;
