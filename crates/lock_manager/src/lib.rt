//! Locks on intervals of the keys of indexes, held by sessions 1 to 64.
//!
//! A request asks for some locks at once. It is granted where no other session holds a lock that conflicts with one of
//! them, and else the sessions in the way are answered and the request is recorded as what its session waits for.
//! Memory is taken by `reserve` alone.
//!
//! `specs/Table` has the value that contracts see and what the calls change in it, by the conflicts of `txn_machine`'s
//! `Locks`; `specs/Law` says what the calls keep.
#![tactic(auto)]

mod answer;
mod conflict;
mod held;
pub mod law;
mod modes;
mod order;
mod points;
mod session_part;
mod suspects;
mod table;

pub use answer::LockAnswer;
pub use table::LockTable;
