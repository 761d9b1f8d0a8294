//! The texts behind the marks of lines.
ghost use Rattle.std.specs.Prelude.{◌≡◌, ◌≢◌, ◌++◌, ℕ, List, IfSome, IsSomeAnd, IfOk, MatchResult};
ghost use Rattle.iv_types.specs.declared.refusal.Refusal.TheVariants as refusal;
ghost use Rattle.iv_meaning.specs.Said.{IsRead};
ghost use Rattle.line_requests.specs.Parts.{IsBehindSpaces, IsBehind};
ghost use Rattle.line_requests.specs.Requests.{read_of};

use iv_types::{NoMemory, Refusal, Statement};
use sql_parse::parse;
use std::alloc::Global;
use std::str;

// The rest of a text behind a word, where the text begins with the word.
fn after<'a>(text: &'a [u8], word: &[u8]) -> Option<&'a [u8]>
    ensures sound { IfSome result (λ rest. text.now ≡ word.now ++ rest.now) }
    ensures complete { (rest : List ℕ) → text.now ≡ word.now ++ rest → IsSomeAnd result (λ r. r.now ≡ rest) }
{
    text.strip_prefix(word)
}

// The rest of a text behind the spaces that it begins with.
fn behind_spaces(text: &[u8]) -> &[u8]
    ensures { IsBehindSpaces text.now result.now }
{
    let mut at = 0usize;
    while at < text.len() && text[at] == b' ' {
        at += 1;
    }
    &text[at..]
}

/// The text behind a mark and its spaces.
pub fn marked<'a>(rest: &'a [u8], mark: &[u8]) -> Option<&'a str>
    ensures sound { IfSome result (λ text. IsBehind mark.now text.now rest.now) }
    ensures complete { (text : List ℕ) → IsBehind mark.now text rest.now → IsSomeAnd result (λ t. t.now ≡ text) }
{
    let spaced = after(rest, mark)?;
    match str::from_utf8(behind_spaces(spaced)) {
        Ok(text) => Some(text),
        Err(_) => None,
    }
}

// A refusal, unless it tells want of memory.
fn told(why: Refusal) -> Result<Refusal, NoMemory>
    ensures { MatchResult result (λ r. (r ≡ why) × (why ≢ refusal.NoMemory)) (λ _. why ≡ refusal.NoMemory) }
{
    match why {
        Refusal::NoMemory => Err(NoMemory),
        other => Ok(other),
    }
}

/// The statement of a text, or why the grammar refuses it.
///
/// # Errors
///
/// Where there is no memory for it.
pub fn read(alloc: Global, text: &str) -> Result<Result<Statement, Refusal>, NoMemory>
    ensures { IfOk result (λ read. IsRead text.now (read_of read)) }
{
    match parse(alloc, text) {
        Ok(statement) => Ok(Ok(statement)),
        Err(why) => Ok(Err(told(why)?)),
    }
}
