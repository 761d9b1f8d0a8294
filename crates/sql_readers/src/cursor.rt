//! The tokens that are still to be read.
ghost use Rattle.std.specs.Prelude.{List, ◌≡◌, ◌≢◌, ◌<◌, ◌∷◌, [], drop, pos, unsigned_abs, true, false, length, Ok, IfOk, IfErr, MatchBool};
ghost use Rattle.text_grammar.specs.Readers.{Gives, one, is, starts, fault_at};
ghost use Rattle.iv_types.specs.Tokens.{Symbol, fixed};
ghost use Rattle.iv_types.specs.Limits.{the_limits};
ghost use Rattle.iv_types.specs.Expressions.{the};
ghost use Rattle.iv_types.specs.Grammar.{the_hole};
ghost use Rattle.sql_tokens.specs.View.{symbols_at};
ghost use Rattle.sql_readers.specs.Levels.{pick_of, Next};
ghost use Rattle.sql_readers.specs.Passing.{Passed};
ghost use Rattle.sql_readers.specs.Ladder.{is_name, is_number, is_text, name_reader, number_reader, text_reader};

use crate::expressions::Level;
use iv_types::{Bytes, LONGEST_NAME, LONGEST_TEXT, NoMemory, Op, Terminal};
use sql_tokens::{Token, TokenKind};
use std::alloc::Global;
use std::marker::Model;
use text_grammar::{Cause, Fault, ParseError};

/// A text and those of its tokens that are still to be read. Contracts see the symbols of these tokens.
#[derive(Drop)]
pub struct Cursor<'a> {
    text: &'a [u8],
    tokens: &'a [Token],
}

impl<'a> Model for Cursor<'a> {
    ghost Value = { List Symbol };

    ghost view = { λ c. symbols_at c.text.now c.tokens.now };
}

// Want of memory, or what was made.
fn unless_wanting<T: Drop>(made: Result<T, NoMemory>) -> Result<T, ParseError>
    ensures ok { IfOk result (λ value. made ≡ Ok value) }
    ensures err { IfErr result (λ e. e ≡ ParseError.Memory) }
{
    match made {
        Ok(value) => Ok(value),
        Err(NoMemory) => Err(ParseError::Memory),
    }
}

impl<'a> Cursor<'a> {
    /// All tokens of a text.
    pub fn new(text: &'a [u8], tokens: &'a [Token]) -> Cursor<'a>
        ensures { result ≡ symbols_at text.now tokens.now }
    {
        Cursor { text, tokens }
    }

    /// Whether no token is left.
    pub fn is_at_end(&self) -> bool
        ensures { MatchBool result (self.now ≡ []) (length self.now ≢ 0) }
    {
        self.tokens.is_empty()
    }

    /// The fault at the first token, or at the end where there is none.
    pub fn fault(&self, cause: Cause) -> ParseError
        ensures { result ≡ ParseError.Fault (fault_at cause self.now) }
    {
        ParseError::Fault(Fault {
            cause,
            left: self.tokens.len(),
        })
    }

    /// Whether this keyword or mark comes next.
    #[tactic(auto, using(crate::proofs::Holes::begins_with_none))]
    pub fn begins(&self, k: Terminal) -> bool
        ensures value { result ≡ starts (is (the k)) self.now }
        ensures no_hole { starts (is the_hole) self.now ≡ false }
    {
        match self.tokens {
            [] => false,
            [token, ..] => match token.kind {
                TokenKind::Fixed(j) => j == k,
                _ => false,
            },
        }
    }

    /// Whether a name comes next.
    pub fn begins_name(&self) -> bool
        ensures { result ≡ starts is_name self.now }
    {
        match self.tokens {
            [] => false,
            [token, ..] => token.kind == TokenKind::Name,
        }
    }

    /// Whether a number comes next.
    pub fn begins_number(&self) -> bool
        ensures { result ≡ starts is_number self.now }
    {
        match self.tokens {
            [] => false,
            [token, ..] => token.kind == TokenKind::Number,
        }
    }

    /// Whether a text comes next.
    pub fn begins_text(&self) -> bool
        ensures { result ≡ starts is_text self.now }
    {
        match self.tokens {
            [] => false,
            [token, ..] => token.kind == TokenKind::Text,
        }
    }

    /// Passes the first token, if there is one.
    #[tactic(auto, using(crate::proofs::Holes::begins_with_none))]
    pub fn advance(&mut self)
        ensures passed { self.new ≡ drop 1 self.old }
        ensures no_hole { starts (is the_hole) self.new ≡ false }
    {
        if let [_, rest @ ..] = self.tokens {
            self.tokens = rest;
        }
    }

    /// Passes this keyword or mark, if it comes next, and answers whether it did.
    pub fn skip(&mut self, k: Terminal) -> bool
        ensures passed { result ≡ true → Passed k self.old self.new }
        ensures stays { result ≡ false → (starts (is (the k)) self.old ≡ false) × (self.new ≡ self.old) }
        ensures no_hole { starts (is the_hole) self.new ≡ false }
    {
        if !self.begins(k) {
            return false;
        }
        self.advance();
        true
    }

    /// Passes this keyword or mark, which has to come next.
    pub fn expect(&mut self, k: Terminal) -> Result<(), ParseError>
        ensures reads { Gives (λ _. (tt, self.new)) result (one (the k) self.old) }
        ensures shorter { IfOk result (λ _. length self.new < length self.old) }
    {
        if self.skip(k) {
            Ok(())
        } else {
            Err(self.fault(Cause::Syntax))
        }
    }

    /// A name, in lower case.
    pub fn name(&mut self, alloc: Global) -> Result<Bytes, ParseError>
        ensures reads { Gives (λ x. (x, self.new)) result (name_reader the_limits self.old) }
        ensures shorter { IfOk result (λ _. length self.new < length self.old) }
    {
        match self.tokens {
            [] => Err(self.fault(Cause::Syntax)),
            [token, rest @ ..] => {
                if token.kind != TokenKind::Name {
                    return Err(self.fault(Cause::Syntax));
                }
                if sql_tokens::piece(self.text, *token).len() > LONGEST_NAME {
                    return Err(self.fault(Cause::Limit(1)));
                }
                let name = unless_wanting(sql_tokens::name(alloc, self.text, *token))?;
                self.tokens = rest;
                Ok(name)
            }
        }
    }

    /// A number without a sign.
    pub fn number(&mut self) -> Result<i128, ParseError>
        ensures reads { Gives (λ x. (unsigned_abs x, self.new)) result (number_reader the_limits self.old) }
        ensures whole { IfOk result (λ x. x ≡ pos (unsigned_abs x)) }
        ensures shorter { IfOk result (λ _. length self.new < length self.old) }
    {
        match self.tokens {
            [] => Err(self.fault(Cause::Syntax)),
            [token, rest @ ..] => {
                if token.kind != TokenKind::Number {
                    return Err(self.fault(Cause::Syntax));
                }
                match sql_tokens::number(self.text, *token) {
                    Some(number) => {
                        self.tokens = rest;
                        Ok(number)
                    }
                    None => Err(self.fault(Cause::Limit(2))),
                }
            }
        }
    }

    /// A text's content.
    pub fn text(&mut self, alloc: Global) -> Result<Bytes, ParseError>
        ensures reads { Gives (λ x. (x, self.new)) result (text_reader the_limits self.old) }
        ensures shorter { IfOk result (λ _. length self.new < length self.old) }
    {
        match self.tokens {
            [] => Err(self.fault(Cause::Syntax)),
            [token, rest @ ..] => {
                if token.kind != TokenKind::Text {
                    return Err(self.fault(Cause::Syntax));
                }
                if sql_tokens::content_len(self.text, *token) > LONGEST_TEXT {
                    return Err(self.fault(Cause::Limit(3)));
                }
                let content = unless_wanting(sql_tokens::content(alloc, self.text, *token))?;
                self.tokens = rest;
                Ok(content)
            }
        }
    }

    /// The operator of a rule, if one comes next.
    pub fn operator(&self, level: Level) -> Option<Op>
        ensures { Next level result self.now }
    {
        match self.tokens {
            [] => None,
            [token, ..] => match token.kind {
                TokenKind::Fixed(k) => operator_of(level, k),
                _ => None,
            },
        }
    }
}

// The operator of a rule that a keyword or mark is.
fn operator_of(level: Level, k: Terminal) -> Option<Op>
    ensures { result ≡ pick_of level (fixed k) }
{
    match (level, k) {
        (Level::Or, Terminal::Or) => Some(Op::Or),
        (Level::And, Terminal::And) => Some(Op::And),
        (Level::Comparison, Terminal::Equal) => Some(Op::Equal),
        (Level::Comparison, Terminal::NotEqual) => Some(Op::NotEqual),
        (Level::Comparison, Terminal::Less) => Some(Op::Less),
        (Level::Comparison, Terminal::AtMost) => Some(Op::AtMost),
        (Level::Comparison, Terminal::Greater) => Some(Op::Greater),
        (Level::Comparison, Terminal::AtLeast) => Some(Op::AtLeast),
        (Level::Sum, Terminal::Plus) => Some(Op::Add),
        (Level::Sum, Terminal::Minus) => Some(Op::Subtract),
        (Level::Product, Terminal::Star) => Some(Op::Multiply),
        _ => None,
    }
}
