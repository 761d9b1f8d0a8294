//! Why tokens are no sentence of a grammar.
ghost use Rattle.std.specs.Prelude.{◌≡◌};
ghost use Rattle.text_grammar.specs.Readers.{goes_first};
ghost use Rattle.text_grammar.specs.declared.fault.ParseError.TheVariants.{Memory};

use std::alloc::{AllocError, AllocFailed};

/// What is wrong at a token.
#[derive(Clone, Copy, Debug, PartialEq, Eq)]
pub enum Cause {
    /// No text of the grammar goes on with this token, or ends here.
    Syntax,
    /// The grammar goes on, and passes the limit of this number.
    Limit(u32),
}

impl Cause {
    /// Whether of two causes at one token this one goes first: a syntax fault, and of two limits the lower number.
    pub fn goes_first(self, other: Cause) -> bool
        ensures { result ≡ goes_first self other }
    {
        match (self, other) {
            (Cause::Syntax, Cause::Limit(_)) => true,
            (Cause::Limit(which), Cause::Limit(than)) => which < than,
            (_, Cause::Syntax) => false,
        }
    }
}

/// What is wrong first, and how many tokens stand from there on, 0 at the end.
#[derive(Clone, Copy, Debug, PartialEq, Eq)]
pub struct Fault {
    pub cause: Cause,
    pub left: usize,
}

/// Why nothing was read.
#[derive(Debug, Drop)]
pub enum ParseError {
    /// There was no memory for what was read.
    Memory,
    Fault(Fault),
}

impl From<AllocError> for ParseError {
    ghost from_gives = { λ _ e. e ≡ Memory };

    fn from(_e: AllocError) -> ParseError {
        ParseError::Memory
    }
}

impl<T: Drop> From<AllocFailed<T>> for ParseError {
    ghost from_gives = { λ _ e. e ≡ Memory };

    fn from(_e: AllocFailed<T>) -> ParseError {
        ParseError::Memory
    }
}
