//! A book of amounts, each added under a number.
ghost use Rattle.std.specs.Prelude.{◌≡◌, ℕ, ◌+◌, ◌%◌, [], List, length, MatchResult};
ghost use Rattle.turn_latch.specs.Histories.{of};
ghost use Rattle.latch_runs.specs.declared.book.Entry.{Entry};
ghost use Rattle.latch_runs.specs.Books.{by, Adds};

use std::alloc::{AllocError, Global};
use turn_latch::{Parted, Turn};

/// An amount, and the number of the seat that added it.
#[derive(Clone, Copy)]
pub struct Entry {
    pub seat: u64,
    pub amount: u64,
}

/// Its history is its entries, and a seat's part is the seat's own.
#[derive(Drop)]
pub struct Book {
    pub entries: Vec<Entry>,
}

impl Book {
    /// An empty book.
    pub fn new(alloc: Global) -> Book
        ensures { result.entries.items ≡ [] }
    {
        Book {
            entries: Vec::new(alloc),
        }
    }
}

impl Parted for Book {
    ghost Entry = { Entry };

    ghost Part = { List Entry };

    ghost history = { λ b. b.entries.items };

    ghost by = { by };

    ghost part = { λ b n. of by n b.entries.items };

    fn length(&self) -> u64 {
        self.entries.len() as u64
    }
}

/// One amount is added. The answer is its place in the book, or that memory is wanting.
#[derive(Drop)]
pub struct Add {
    pub seat: u32,
    pub amount: u64,
}

impl Turn<Book> for Add {
    type Out = Result<u64, AllocError>;

    ghost seat = { λ w. w.seat };

    ghost needs = { λ w b. Unit {0} };

    ghost does = { λ w b r b'. MatchResult r (λ n. (n ≡ length b.entries.items) × Adds w.seat w.amount b.entries.items b'.entries.items) (λ _. b'.entries.items ≡ b.entries.items) };

    fn number(&self) -> u32 {
        self.seat
    }

    fn turn(self, book: &mut Book) -> Result<u64, AllocError> {
        let at = book.entries.len() as u64;
        if at >= 1 << 62 {
            return Err(AllocError);
        }
        book.entries.push(Entry {
            seat: u64::from(self.seat),
            amount: self.amount,
        })?;
        Ok(at)
    }
}
