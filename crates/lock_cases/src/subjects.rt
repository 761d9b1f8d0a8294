//! What the rows of the tables call.
//!
//! What is left at the end is forgotten and not dropped: the program is short, and the drop is costly to prove.
use crate::bounds::Bounds;
use crate::locks::Locks;
use crate::pays;
use crate::waits::Waits;
use anyhow::bail;
use case_text::Cases;
use std::alloc::Global;
use std::mem::{forget, replace};

/// What the rows of a table call.
#[derive(Clone, Copy)]
enum Kind {
    Waits,
    Bounds,
    Locks,
    Pays,
}

fn kind_of(name: &str) -> anyhow::Result<Kind> {
    let Some((kind, _)) = name.split_once(": ") else {
        bail!("no kind of table")
    };
    match kind {
        "waits" => Ok(Kind::Waits),
        "bounds" => Ok(Kind::Bounds),
        "locks" => Ok(Kind::Locks),
        "pays" => Ok(Kind::Pays),
        _ => bail!("no such kind of table"),
    }
}

#[derive(Drop)]
pub struct Subjects {
    kind: Kind,
    waits: Waits,
    bounds: Bounds,
    locks: Locks,
    // The row that pays begin with.
    start: String,
    // The calls of the table so far, one a line.
    calls: String,
}

impl Subjects {
    pub fn new(alloc: Global) -> Subjects {
        Subjects {
            kind: Kind::Waits,
            waits: Waits::new(),
            bounds: Bounds::new(),
            locks: Locks::new(),
            start: String::new(alloc),
            calls: String::new(alloc),
        }
    }

    // Adds a call to those of the table.
    fn note(&mut self, asked: &str) -> anyhow::Result<()> {
        if !self.calls.as_str().is_empty() {
            self.calls.push('\n')?;
        }
        self.calls.push_str(asked)?;
        Ok(())
    }
}

impl Cases for Subjects {
    fn begin(&mut self, alloc: Global, name: &str) -> anyhow::Result<()> {
        self.kind = kind_of(name)?;
        self.waits = Waits::new();
        forget(replace(&mut self.bounds, Bounds::new()));
        self.locks.begin(alloc)?;
        self.start = String::new(alloc);
        self.calls = String::new(alloc);
        Ok(())
    }

    fn give(&mut self, alloc: Global, text: &str) -> anyhow::Result<()> {
        match self.kind {
            Kind::Waits => self.waits.give(text),
            Kind::Pays => {
                self.start = String::from_str(alloc, text)?;
                Ok(())
            }
            _ => bail!("nothing is given"),
        }
    }

    fn answer(&mut self, alloc: Global, asked: &str) -> anyhow::Result<String> {
        match self.kind {
            Kind::Waits => self.waits.answer(alloc, asked),
            Kind::Bounds => self.bounds.answer(alloc, asked),
            Kind::Locks => self.locks.answer(alloc, asked),
            Kind::Pays => {
                self.note(asked)?;
                pays::last_answer(alloc, self.start.as_str(), self.calls.as_str())
            }
        }
    }
}
