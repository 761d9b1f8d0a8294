//! The latch and its seats.
ghost use Rattle.std.specs.Prelude.{◌≡◌};
ghost use Rattle.turn_latch.specs.Views.{IsFree};

use crate::steps::InTurns;
use crate::turn::Parted;
use crate::view::View;
use atomic_table::Table;
use std::alloc::Global;
use std::snapshot::Snapshot;

/// A value that seats take turns with. The word is twice the length of the history, and one more while a turn is held.
#[derive(Drop)]
pub struct Latch<T: Parted> {
    pub(crate) table: Table<Option<T>, View<T>, Snapshot<T>, InTurns, Global>,
    ghost one: { (table.shared.table_id.words ≡ 1) × (table.shared.table_id.slots ≡ 1) },
}

/// A right to take turns under one number. Between calls it holds no turn.
#[derive(Drop)]
pub struct Seat<T: Parted> {
    pub(crate) pass: atomic_table::Seat<Option<T>, View<T>>,
    pub(crate) number: u32,
    pub(crate) made: u32,
    ghost same: { (number ≡ pass.me.0.number) × (made ≡ pass.me.0.made) },
    ghost free: { IsFree pass.me },
}

/// A list of seats. It is made from a `Vec` and given back as one without taking memory.
#[derive(Drop)]
pub struct SeatList<T: Parted> {
    pub(crate) seats: Vec<Seat<T>>,
}
