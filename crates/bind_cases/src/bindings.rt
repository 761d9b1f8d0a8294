//! Statements, and the catalogs on which they are bound.
//!
//! Statements and catalogs are forgotten and not dropped: the program is short, and their drops are costly to prove.
use crate::answers::{write_bound, write_refusal};
use crate::{intervals, plans};
use case_text::Cases;
use catalog_text::{Definitions, bound_or_refused};
use iv_types::Catalog;
use std::alloc::Global;
use std::mem::forget;

// What becomes of the statement of a text.
fn answer(alloc: Global, catalog: &Catalog, text: &str) -> anyhow::Result<String> {
    let mut out = String::new(alloc);
    let told = match bound_or_refused(alloc, catalog, text)? {
        Ok(bound) => {
            let told = write_bound(&mut out, &bound);
            forget(bound);
            told
        }
        Err(refusal) => {
            let told = write_refusal(&mut out, &refusal);
            forget(refusal);
            told
        }
    };
    told?;
    Ok(out)
}

/// What the rows of a table ask for.
#[derive(Clone, Copy)]
enum Asking {
    Binding,
    Plan,
    Interval,
}

/// Statements bound on a catalog that their table is given.
pub struct Bindings {
    asking: Asking,
    definitions: Definitions,
}

impl Bindings {
    pub fn new(alloc: Global) -> Bindings {
        Bindings {
            asking: Asking::Binding,
            definitions: Definitions::new(alloc),
        }
    }

    /// Forgets them all.
    pub fn forgotten(self) {
        let Bindings {
            asking: _,
            definitions,
        } = self;
        definitions.forgotten();
    }
}

impl Cases for Bindings {
    fn begin(&mut self, _alloc: Global, name: &str) -> anyhow::Result<()> {
        self.asking = if name.starts_with("plans: ") {
            Asking::Plan
        } else if name.starts_with("intervals: ") {
            Asking::Interval
        } else {
            Asking::Binding
        };
        Ok(())
    }

    fn give(&mut self, alloc: Global, text: &str) -> anyhow::Result<()> {
        for text in text.split(';') {
            if !text.is_empty() {
                self.definitions.give(alloc, text)?;
            }
        }
        Ok(())
    }

    fn answer(&mut self, alloc: Global, asked: &str) -> anyhow::Result<String> {
        self.definitions.end();
        match self.asking {
            Asking::Binding => answer(alloc, &self.definitions.catalog, asked),
            Asking::Plan => plans::answer(alloc, &self.definitions.catalog, asked),
            Asking::Interval => intervals::answer(alloc, asked),
        }
    }
}
