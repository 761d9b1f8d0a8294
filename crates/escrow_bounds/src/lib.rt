//! The bounds of one column of a view row over all outcomes of the open transactions (O'Neil, The escrow transactional
//! method, ACM TODS 11(4), 1986).
//!
//! Each session, 1 to 64, has at most one open transaction, which adds increments to the column. It can take them back,
//! the latest first, or commit. `inf` and `sup` are the least and the greatest value that the column can then have, and
//! an increment is refused where one of them would leave the column's range. All numbers are whole; the range is the
//! HUGE one, from -(2^127 - 1) to 2^127 - 1.
//!
//! `specs/Column` has the state that contracts see, and by what relation it stands for the kept increments
//! (`iv_meaning`'s `Escrow`); `specs/Law` has the escrow law.
#![tactic(auto)]

mod bounds;
mod escrow;
pub mod law;
mod part;

pub use escrow::{Escrow, Range};
