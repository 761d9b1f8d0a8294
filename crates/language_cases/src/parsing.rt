//! What is a statement and what is none, and for what cause and at which place.
//!
//! `parse`: of a text, in which one `^` may stand, without that mark: `whole` where it is a statement, `limit` with the
//! number of a limit that it passes and what that allows, or `syntax` with the place at which it leaves the grammar, which
//! is `^` where the mark stands there.
//!
//! `cuts`: of a text with a `|` at each place at which it is cut the same text with `!` where the part before it is a
//! statement and `|` where that part ends too early, which is where it leaves the grammar.
use iv_types::Refusal;
use sql_parse::parse;
use std::alloc::Global;
use std::mem::forget;

/// What becomes of a text.
#[derive(Clone, Copy)]
enum Outcome {
    Whole,
    Syntax(u64),
    Limit(u32, u128),
    Other,
}

fn refused(refusal: Refusal) -> Outcome {
    let outcome = match &refusal {
        Refusal::Syntax(place) => Outcome::Syntax(*place),
        Refusal::Limit(limit) => Outcome::Limit(limit.number(), limit.most()),
        _ => Outcome::Other,
    };
    forget(refusal);
    outcome
}

fn outcome_of(alloc: Global, text: &str) -> Outcome {
    match parse(alloc, text) {
        Ok(statement) => {
            forget(statement);
            Outcome::Whole
        }
        Err(refusal) => refused(refusal),
    }
}

fn written(alloc: Global, outcome: Outcome, mark: Option<u64>) -> anyhow::Result<String> {
    match outcome {
        Outcome::Whole => Ok(format!(in alloc; "whole")?),
        Outcome::Syntax(place) => {
            if mark == Some(place) {
                return Ok(format!(in alloc; "syntax ^")?);
            }
            Ok(format!(in alloc; "syntax {place}")?)
        }
        Outcome::Limit(which, most) => Ok(format!(in alloc; "limit {which} {most}")?),
        Outcome::Other => Ok(format!(in alloc; "another refusal")?),
    }
}

pub fn judged(alloc: Global, marked: &str) -> anyhow::Result<String> {
    match marked.split_once('^') {
        Some((before, behind)) => {
            let text = format!(in alloc; "{before}{behind}")?;
            let mark = before.len() as u64;
            written(alloc, outcome_of(alloc, text.as_str()), Some(mark))
        }
        None => written(alloc, outcome_of(alloc, marked), None),
    }
}

// The mark behind a text that is cut there.
fn mark_behind(alloc: Global, text: &str) -> char {
    match outcome_of(alloc, text) {
        Outcome::Whole => '!',
        Outcome::Syntax(place) => { if place == text.len() as u64 { '|' } else { '?' } }
        _ => '?',
    }
}

pub fn cuts(alloc: Global, marked: &str) -> anyhow::Result<String> {
    let mut text = String::new(alloc);
    let mut out = String::new(alloc);
    for letter in marked.chars() {
        if letter == '|' {
            out.push(mark_behind(alloc, text.as_str()))?;
        } else {
            text.push(letter)?;
            out.push(letter)?;
        }
    }
    Ok(out)
}
