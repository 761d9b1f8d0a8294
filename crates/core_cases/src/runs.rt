//! Tables of runs.
//!
//! A line `+ STEPS` gives a table the steps that come before its rows, and `+ log BYTES` the bytes of an area of its log, which has
//! no limit else; a table without such a line takes those that the one before has. For each row all steps of its table are done again from the first on: what a proof knows of the core behind a
//! step is not kept from one row to the next.
use crate::doing::last_answer;
use case_text::{Cases, first_word};
use std::alloc::Global;

/// The steps of a table so far.
#[derive(Drop)]
pub struct Runs {
    // The bytes of an area of its log, if it has a limit.
    log: String,
    // The steps before its rows, with `; ` between them.
    given: String,
    // Whether they are an earlier table's.
    is_earlier: bool,
    // Those of its rows.
    calls: String,
}

impl Runs {
    pub fn new(alloc: Global) -> Runs {
        Runs {
            log: String::new(alloc),
            given: String::new(alloc),
            is_earlier: false,
            calls: String::new(alloc),
        }
    }
}

// Adds calls to others.
fn add(calls: &mut String, more: &str) -> anyhow::Result<()> {
    if !calls.is_empty() {
        calls.push_str("; ")?;
    }
    calls.push_str(more)?;
    Ok(())
}

impl Cases for Runs {
    fn begin(&mut self, alloc: Global, _name: &str) -> anyhow::Result<()> {
        self.is_earlier = true;
        self.calls = String::new(alloc);
        Ok(())
    }

    fn give(&mut self, alloc: Global, text: &str) -> anyhow::Result<()> {
        if self.is_earlier {
            self.log = String::new(alloc);
            self.given = String::new(alloc);
            self.is_earlier = false;
        }
        let (word, rest) = first_word(text);
        match word {
            "log" => {
                self.log = String::from_str(alloc, rest)?;
                Ok(())
            }
            _ => add(&mut self.given, text),
        }
    }

    fn answer(&mut self, alloc: Global, asked: &str) -> anyhow::Result<String> {
        let told = last_answer(
            alloc,
            self.log.as_str(),
            self.given.as_str(),
            self.calls.as_str(),
            asked,
        )?;
        add(&mut self.calls, asked)?;
        Ok(told)
    }
}
