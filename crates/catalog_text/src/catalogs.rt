//! Statements bound on a catalog, and the definitions that it is made of.
//!
//! Statements and catalogs are forgotten and not dropped: the programs are short, and their drops are costly to prove.
use anyhow::bail;
use iv_types::{Bound, Catalog, Definition, Refusal};
use sql_bind::bind;
use sql_parse::parse;
use std::alloc::Global;
use std::mem::{forget, replace};

/// What the statement of a text is bound to, or why it is refused.
///
/// # Errors
///
/// Where the text is no statement.
pub fn bound_or_refused(
    alloc: Global,
    catalog: &Catalog,
    text: &str,
) -> anyhow::Result<Result<Bound, Refusal>> {
    match parse(alloc, text) {
        Ok(statement) => {
            let found = bind(alloc, catalog, &statement);
            forget(statement);
            Ok(found)
        }
        Err(refusal) => {
            forget(refusal);
            bail!("no statement")
        }
    }
}

/// What the statement of a text is bound to.
///
/// # Errors
///
/// Where it is no statement, or is refused.
pub fn bound(alloc: Global, catalog: &Catalog, text: &str) -> anyhow::Result<Bound> {
    match bound_or_refused(alloc, catalog, text)? {
        Ok(bound) => Ok(bound),
        Err(refusal) => {
            forget(refusal);
            bail!("a statement that is refused")
        }
    }
}

// What a CREATE statement makes.
fn made(bound: Bound) -> Option<Definition> {
    match bound {
        Bound::Table(table) => Some(Definition::Table(table)),
        Bound::Index(index) => Some(Definition::Index(index)),
        Bound::View(view) => Some(Definition::View(view)),
        other => {
            forget(other);
            None
        }
    }
}

fn add(catalog: &mut Catalog, definition: Definition) -> anyhow::Result<()> {
    if !catalog.can_add(&definition) {
        forget(definition);
        bail!("a number or a name that is not new, or no room");
    }
    catalog.add(definition)?;
    Ok(())
}

/// The catalog of a table, and those below it that are given none.
pub struct Definitions {
    pub catalog: Catalog,
    // Whether the catalog is that of an earlier table.
    is_earlier: bool,
}

impl Definitions {
    pub fn new(alloc: Global) -> Definitions {
        Definitions {
            catalog: Catalog::new(alloc),
            is_earlier: false,
        }
    }

    /// Forgets them all.
    pub fn forgotten(self) {
        let Definitions {
            catalog,
            is_earlier: _,
        } = self;
        forget(catalog);
    }

    /// Ends a table.
    pub fn end(&mut self) {
        self.is_earlier = true;
    }

    /// Adds what a CREATE statement makes to the table's catalog.
    pub fn give(&mut self, alloc: Global, text: &str) -> anyhow::Result<()> {
        if self.is_earlier {
            forget(replace(&mut self.catalog, Catalog::new(alloc)));
            self.is_earlier = false;
        }
        match made(bound(alloc, &self.catalog, text)?) {
            Some(definition) => add(&mut self.catalog, definition),
            None => bail!("no definition"),
        }
    }
}
