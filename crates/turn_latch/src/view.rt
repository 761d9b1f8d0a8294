//! What a seat knows. It is told in values of `T` as they stood at some moment, of which the rule reads the history and
//! the parts. No value of these types is made: they exist in proofs alone.
use std::collections::LinkedList;

/// One exchange on the latch's word.
pub struct Exchange<T> {
    /// The number of the seat that made it.
    pub number: u64,
    /// The word that it found.
    pub found: u64,
    /// The value that was taken or put back; none where another seat held the turn.
    pub value: Option<T>,
}

/// What a seat knew as it came into the first seat.
pub struct Retired<T> {
    pub number: u64,
    pub seen: Option<T>,
    pub knew: Option<T>,
    pub log: LinkedList<Exchange<T>>,
}

/// What a seat knows.
pub struct View<T> {
    /// Whether it has a number, and so may take turns. A note has none.
    pub numbered: bool,
    pub number: u64,
    /// Of the first seat: how many seats were split off.
    pub made: u64,
    /// The value as it was put in.
    pub origin: Option<T>,
    /// The value whose history it has seen; none where it has seen the empty one.
    pub seen: Option<T>,
    /// The value whose part of its number it knows.
    pub knew: Option<T>,
    /// The value as it was taken, while the seat holds the turn.
    pub held: Option<T>,
    /// The exchanges on the word up to its own last one, or up to that of the first seat as it was split off.
    pub log: LinkedList<Exchange<T>>,
    /// While it meets a note: the value whose history the note has seen.
    pub met: Option<T>,
    /// Of the first seat: what the seats that came into it knew.
    pub retired: LinkedList<Retired<T>>,
}
