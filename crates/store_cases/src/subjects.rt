//! What the rows of the tables call.
//!
//! What is left at the end is forgotten and not dropped: the program is short, and the drop is costly to prove.
use crate::catalogs::add_definition;
use crate::maps::Maps;
use crate::places::Places;
use crate::versions::Versions;
use crate::{deltas, tables, wants};
use anyhow::bail;
use case_text::Cases;
use iv_types::Catalog;
use std::alloc::Global;
use std::mem::{forget, replace};

/// What the rows of a table call.
#[derive(Clone, Copy)]
enum Kind {
    Maps,
    Places,
    Tables,
    Deltas,
    Versions,
    Wants,
}

fn kind_of(name: &str) -> anyhow::Result<Kind> {
    let Some((kind, _)) = name.split_once(": ") else {
        bail!("no kind of table")
    };
    match kind {
        "maps" => Ok(Kind::Maps),
        "places" => Ok(Kind::Places),
        "tables" => Ok(Kind::Tables),
        "deltas" => Ok(Kind::Deltas),
        "versions" => Ok(Kind::Versions),
        "wants" => Ok(Kind::Wants),
        _ => bail!("no such kind of table"),
    }
}

#[derive(Drop)]
pub struct Subjects {
    kind: Kind,
    maps: Maps,
    places: Places,
    versions: Versions,
    catalog: Catalog,
    // The calls of the table so far, one a line.
    calls: String,
}

impl Subjects {
    pub fn new(alloc: Global) -> Subjects {
        Subjects {
            kind: Kind::Maps,
            maps: Maps::new(),
            places: Places::new(),
            versions: Versions::new(),
            catalog: Catalog::new(alloc),
            calls: String::new(alloc),
        }
    }

    // Adds a call to those of the table.
    fn note(&mut self, asked: &str) -> anyhow::Result<()> {
        if !self.calls.as_str().is_empty() {
            self.calls.push('\n')?;
        }
        self.calls.push_str(asked)?;
        Ok(())
    }
}

impl Cases for Subjects {
    fn begin(&mut self, alloc: Global, name: &str) -> anyhow::Result<()> {
        self.kind = kind_of(name)?;
        self.maps.begin(alloc)?;
        self.places.begin();
        self.versions.begin();
        forget(replace(&mut self.catalog, Catalog::new(alloc)));
        self.calls = String::new(alloc);
        Ok(())
    }

    fn give(&mut self, alloc: Global, text: &str) -> anyhow::Result<()> {
        match self.kind {
            Kind::Tables | Kind::Deltas | Kind::Wants => add_definition(
                alloc,
                &mut self.catalog,
                text,
            ),
            _ => bail!("nothing is given"),
        }
    }

    fn answer(&mut self, alloc: Global, asked: &str) -> anyhow::Result<String> {
        match self.kind {
            Kind::Maps => self.maps.answer(alloc, asked),
            Kind::Places => self.places.answer(alloc, asked),
            Kind::Versions => self.versions.answer(alloc, asked),
            Kind::Wants => wants::answer(alloc, &self.catalog, asked),
            Kind::Deltas => deltas::answer(alloc, &self.catalog, asked),
            Kind::Tables => {
                self.note(asked)?;
                tables::last_answer(alloc, &self.catalog, self.calls.as_str())
            }
        }
    }
}
