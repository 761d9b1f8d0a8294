//! Lists of what a rule derives, with commas between.
ghost use Rattle.std.specs.Prelude.{◌≡◌, ◌<◌, length, map, IfOk};
ghost use Rattle.text_grammar.specs.Readers.{Gives, Fails, Reader, blocked};
ghost use Rattle.text_grammar.specs.declared.fault.Cause.TheVariants.{Limit};
ghost use Rattle.text_grammar.proofs.Extends.{Stays};
ghost use Rattle.iv_types.specs.Tokens.{Symbol};
ghost use Rattle.sql_readers.specs.Statements.{comma_list, listed_to, enclosed};

use crate::cursor::Cursor;
use crate::expressions::goes_first;
use iv_types::{Sequence, Terminal};
use std::alloc::Global;
use text_grammar::{Cause, ParseError};

/// What a rule of the grammar derives.
pub trait Part: Drop + Sized {
    /// The value as the grammar has it.
    ghost Seen: { Type 0 };

    ghost seen: { Self → Seen };

    /// The reader of the rule.
    ghost reader: { Reader Symbol Seen };

    /// Reads it off the front of the tokens.
    fn read(alloc: Global, cursor: &mut Cursor) -> Result<Self, ParseError>
        ensures reads { Gives (λ x. (seen x, cursor.new)) result (reader cursor.old) }
        ensures shorter { IfOk result (λ _. length cursor.new < length cursor.old) };
}

/// One, and more with commas between.
pub fn listed<P: Part>(alloc: Global, cursor: &mut Cursor) -> Result<Sequence<P>, ParseError>
    requires forward { Stays P.reader }
    ensures reads { Gives (λ x. (map P.seen x, cursor.new)) result (comma_list P.reader cursor.old) }
    ensures shorter { IfOk result (λ _. length cursor.new < length cursor.old) }
{
    let first = P::read(alloc, cursor)?;
    let mut made = Vec::new(alloc);
    made.push(first)?;
    while cursor.skip(Terminal::Comma) {
        let next = P::read(alloc, cursor)?;
        made.push(next)?;
    }
    Ok(Sequence::from_vec(made))
}

/// The same of no more than so many; the first token of one too many passes the limit of this number.
pub fn listed_to<P: Part>(
    alloc: Global,
    cursor: &mut Cursor,
    limit: u32,
    most: usize,
) -> Result<Sequence<P>, ParseError>
    requires forward { Stays P.reader }
    ensures reads { Gives (λ x. (map P.seen x, cursor.new)) result (listed_to limit most P.reader cursor.old) }
    ensures shorter { IfOk result (λ _. length cursor.new < length cursor.old) }
{
    let first = P::read(alloc, cursor)?;
    let mut made = Vec::new(alloc);
    made.push(first)?;
    while cursor.skip(Terminal::Comma) {
        if made.len() >= most {
            return Err(one_too_many::<P>(alloc, cursor, limit));
        }
        let next = P::read(alloc, cursor)?;
        made.push(next)?;
    }
    Ok(Sequence::from_vec(made))
}

/// The fault of what begins with one too many: its first token passes the limit, unless that token is wrong in itself.
pub fn one_too_many<P: Part>(alloc: Global, cursor: &mut Cursor, limit: u32) -> ParseError
    ensures { Fails result (blocked (Limit limit) P.reader cursor.old) }
{
    let passed = cursor.fault(Cause::Limit(limit));
    match P::read(alloc, cursor) {
        Ok(_) => passed,
        Err(fault) => goes_first(fault, passed),
    }
}

/// What stands in parentheses.
pub fn enclosed<P: Part>(alloc: Global, cursor: &mut Cursor) -> Result<P, ParseError>
    ensures reads { Gives (λ x. (P.seen x, cursor.new)) result (enclosed P.reader cursor.old) }
    ensures shorter { IfOk result (λ _. length cursor.new < length cursor.old) }
{
    cursor.expect(Terminal::Open)?;
    let inside = P::read(alloc, cursor)?;
    cursor.expect(Terminal::Close)?;
    Ok(inside)
}

/// Lists in parentheses.
pub fn enclosed_list<P: Part>(alloc: Global, cursor: &mut Cursor) -> Result<Sequence<P>, ParseError>
    requires forward { Stays P.reader }
    ensures reads { Gives (λ x. (map P.seen x, cursor.new)) result (enclosed (comma_list P.reader) cursor.old) }
    ensures shorter { IfOk result (λ _. length cursor.new < length cursor.old) }
{
    cursor.expect(Terminal::Open)?;
    let inside = listed::<P>(alloc, cursor)?;
    cursor.expect(Terminal::Close)?;
    Ok(inside)
}
