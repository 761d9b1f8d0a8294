//! What the latch asks of its value and of a turn.
ghost use Rattle.std.specs.Prelude.{◌≡◌, ◌≢◌, ℕ, ◌≤◌, ◌^◌, List, length};
ghost use Rattle.turn_latch.specs.Histories.{AddsOne};

/// A value with a history, whose entries each name a seat's number, and with a part for each number.
pub trait Parted {
    ghost Entry: { Type 0 };

    /// What the latch compares and never looks into.
    ghost Part: { Type 0 };

    ghost history: { Self → List Entry };

    /// The number that an entry names.
    ghost by: { Entry → ℕ };

    ghost part: { Self → ℕ → Part };

    /// How many entries the history has.
    fn length(&self) -> u64
        ensures { result ≡ length (history self.now) };
}

/// What one seat does in one turn.
///
/// A turn adds at most one entry, which names its number, keeps the length at most 2^62, and leaves the part of every
/// other number. A turn that is not taken is dropped.
pub trait Turn<T: Parted>: Drop {
    /// What the turn answers.
    type Out;

    /// The number of the seat whose turn it is.
    ghost seat: { Self → ℕ };

    /// What it needs of the value.
    ghost needs: { Self → T → Type 0 };

    /// What it does to the value, and what it answers.
    ghost does: { Self → T → Self.Out → T → Type 0 };

    /// The number of the seat whose turn it is.
    fn number(&self) -> u32
        ensures { result ≡ seat self.now };

    /// Takes the turn.
    fn turn(self, value: &mut T) -> Self::Out
        requires needs { needs self value.old }
        requires short { length (T.history value.old) ≤ 2 ^ 62 }
        ensures does { does self value.old result value.new }
        ensures adds { AddsOne T.by (seat self) (T.history value.old) (T.history value.new) }
        ensures short { length (T.history value.new) ≤ 2 ^ 62 }
        ensures others { (k : ℕ) → k ≢ seat self → T.part value.new k ≡ T.part value.old k };
}
