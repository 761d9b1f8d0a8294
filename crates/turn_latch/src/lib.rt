//! A value with a history, which seats change in turns. A turn waits for nobody.
//!
//! A `Latch` holds the value, and a `Seat` is a right to take turns under one number. The latch has one word: twice the
//! length of the value's history, and one more while a turn is held. So the history is one, whoever adds to it, and a
//! call's exchange on the word is its linearization point (Herlihy and Wing, "Linearizability: A Correctness Condition for
//! Concurrent Objects", 1990). A turn is a try-lock: whoever finds the word odd is told so and goes away.
//!
//! What a seat knows exists in proofs alone. `specs/Latched` has the rule that every atomic step keeps, `specs/Views` what
//! each step makes of a seat's view, `specs/Exchanges` what the exchanges on the word make of the turn, `specs/Turns` what
//! the calls tell, and `specs/Words` the names that clauses use.
#![tactic(auto)]

mod latch;
mod seat;
mod steps;
mod turn;
mod view;

pub use latch::{Busy, LatchRefused};
pub use seat::{Latch, Seat, SeatList};
pub use turn::{Parted, Turn};
pub use view::{Exchange, Retired, View};
