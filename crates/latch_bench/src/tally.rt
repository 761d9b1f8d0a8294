//! A number that turns add 1 to. It has no history and no parts.
ghost use Rattle.std.specs.Prelude.{◌≡◌, ◌+◌, ◌%◌, ◌^◌, ℕ, []};

use turn_latch::{Parted, Turn};

#[derive(Drop)]
pub struct Tally {
    pub count: u64,
}

impl Tally {
    /// Adds 1, modulo 2^64.
    pub fn add(&mut self)
        ensures { self.new.count ≡ (self.old.count + 1) % 2 ^ 64 }
    {
        self.count = self.count.wrapping_add(1);
    }
}

impl Parted for Tally {
    ghost Entry = { ℕ };

    ghost Part = { Unit {0} };

    ghost history = { λ t. [] };

    ghost by = { λ e. e };

    ghost part = { λ t n. tt };

    fn length(&self) -> u64 {
        0
    }
}

/// Adds 1.
#[derive(Drop)]
pub struct AddOne {
    pub seat: u32,
}

impl Turn<Tally> for AddOne {
    type Out = ();

    ghost seat = { λ w. w.seat };

    ghost needs = { λ w x. Unit {0} };

    ghost does = { λ w x r y. y.count ≡ (x.count + 1) % 2 ^ 64 };

    fn number(&self) -> u32 {
        self.seat
    }

    fn turn(self, tally: &mut Tally) {
        tally.add();
    }
}

/// Tells the number.
#[derive(Drop)]
pub struct Tell {
    pub seat: u32,
}

impl Turn<Tally> for Tell {
    type Out = u64;

    ghost seat = { λ w. w.seat };

    ghost needs = { λ w x. Unit {0} };

    ghost does = { λ w x r y. (r ≡ x.count) × (y ≡ x) };

    fn number(&self) -> u32 {
        self.seat
    }

    fn turn(self, tally: &mut Tally) -> u64 {
        tally.count
    }
}
