//! The stored rows of views with the kept pays of open transactions.
//!
//! A stored row has a count and sums: what is committed of its group, and all that open transactions have paid to it. A
//! row whose committed count is 0 is a ghost, and stands for no group (Graefe, Zwilling, Transaction support for indexed
//! summary views, SIGMOD 2004). For each row that open transactions pay to, `ViewRows` has the escrow of its columns
//! (O'Neil, The escrow transactional method, ACM TODS 11(4), 1986). Nothing of it outlives them.
//!
//! `specs/Kept` says for which kept pays the stored rows stand.
#![tactic(auto)]

mod candidates;
mod ghosts;
pub mod numbers;
mod opening;
mod pool;
mod reading;
mod row;
mod seats;
mod settling;
mod shares;
mod table;
mod view_rows;

pub use view_rows::{PayRefusal, ViewRows};
