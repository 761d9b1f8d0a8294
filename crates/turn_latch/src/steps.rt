//! The nine kinds of atomic step of a latch, and the rule that each of them keeps.
//!
//! | Kind | Step | View that changes |
//! |---|---|---|
//! | take | `fetch_or` 1 on the word; won where it finds an even one | the taker's |
//! | release without an entry | `fetch_sub` 1 on the word | the holder's |
//! | release with an entry | `fetch_add` 1 on the word | the holder's |
//! | look | a load before a split | none |
//! | split | a load by the first seat | the first seat's, and that of the new seat |
//! | note | a load | that of the new note |
//! | meet | a load; the longer of two histories stays | that of the seat that takes the note in |
//! | compare | a load, the last step of `meet` | the loader's |
//! | retire | a load; a seat comes into the first one | the first seat's |
//!
//! The value leaves its slot by the take's own act, and comes home by the release's.
ghost use Rattle.std.specs.Prelude.{None};
ghost use Rattle.turn_latch.specs.Views.{first_view, note_of, parent, child, meeting, retiring};
ghost use Rattle.turn_latch.specs.Latched.{Latched, took, released, looked, compared};

use crate::turn::Parted;
use crate::view::View;
use atomic_table::{Join, Play, Split, TableRule};
use std::snapshot::Snapshot;

/// The rule of a latch.
pub struct InTurns;

impl<T: Parted> TableRule<Option<T>, View<T>, Snapshot<T>> for InTurns {
    ghost holds = { λ _. Latched T.history T.by T.part };

    ghost first = { λ k. first_view k.value };
}

/// A seat asks for a turn.
pub struct Take;

impl<T: Parted> Play<Option<T>, View<T>> for Take {
    ghost then = { took T.history T.by T.part };
}

/// A seat ends its turn, which added no entry.
pub struct Release;

impl<T: Parted> Play<Option<T>, View<T>> for Release {
    ghost then = { released T.history };
}

/// A seat ends its turn, which added an entry.
pub struct ReleaseWithEntry;

impl<T: Parted> Play<Option<T>, View<T>> for ReleaseWithEntry {
    ghost then = { released T.history };
}

/// The first seat sees that the next number has no entry.
pub struct Look;

impl<T: Parted> Play<Option<T>, View<T>> for Look {
    ghost then = { looked T.history T.by };
}

/// The first seat makes a seat with the next number.
pub struct Another;

impl<T: Parted> Split<View<T>> for Another {
    ghost left = { parent };

    ghost right = { child };
}

/// A seat makes a copy of what it has seen, which has no number.
pub struct Note;

impl<T: Parted> Split<View<T>> for Note {
    ghost left = { λ v. v };

    ghost right = { λ v. note_of v.seen };
}

/// A seat takes a note in.
pub struct Meet;

impl<T: Parted> Join<View<T>> for Meet {
    ghost both = { meeting };

    ghost spent = { note_of None };
}

/// A seat sees that the shorter history begins the longer one, which it keeps.
pub struct Compare;

impl<T: Parted> Play<Option<T>, View<T>> for Compare {
    ghost then = { compared T.history T.by };
}

/// The first seat takes a seat in, and keeps what it knew.
pub struct Retire;

impl<T: Parted> Join<View<T>> for Retire {
    ghost both = { retiring };

    ghost spent = { note_of None };
}
