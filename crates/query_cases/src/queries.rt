//! Tables of what queries and their parts give.
use crate::changing;
use crate::evaluating::{truth_of, value_of};
use crate::grouping::groups_of;
use crate::selecting::turn_of;
use crate::turns::Running;
use crate::views::{kept_of, view_of};
use anyhow::bail;
use case_text::{Cases, read_rows};
use catalog_text::Definitions;
use iv_types::{Mode, RowList};
use std::alloc::Global;
use std::mem::{forget, replace};

/// What the rows of a table ask for.
#[derive(Clone, Copy, PartialEq, Eq)]
enum Asking {
    Value,
    Truth,
    Groups,
    View,
    Kept,
    Select,
    Snapshot,
    Change,
}

// What is asked for in a table of this name.
fn asked_for(name: &str) -> Option<Asking> {
    let (word, _) = name.split_once(": ")?;
    match word {
        "values" => Some(Asking::Value),
        "truths" => Some(Asking::Truth),
        "groups" => Some(Asking::Groups),
        "views" => Some(Asking::View),
        "kept" => Some(Asking::Kept),
        "selects" => Some(Asking::Select),
        "snapshots" => Some(Asking::Snapshot),
        "changes" => Some(Asking::Change),
        _ => None,
    }
}

/// What tables are given, and the statement that is under way.
pub struct Queries {
    asking: Asking,
    rows: RowList,
    definitions: Definitions,
    running: Option<Running>,
}

impl Queries {
    pub fn new(alloc: Global) -> Queries {
        Queries {
            asking: Asking::Value,
            rows: RowList::new(alloc),
            definitions: Definitions::new(alloc),
            running: None,
        }
    }

    fn select(&mut self, alloc: Global, mode: Mode, asked: &str) -> anyhow::Result<String> {
        turn_of(
            alloc,
            &self.definitions.catalog,
            &mut self.running,
            mode,
            asked,
        )
    }

    /// Forgets them all.
    pub fn forgotten(self) {
        let Queries {
            asking: _,
            rows,
            definitions,
            running,
        } = self;
        forget(rows);
        definitions.forgotten();
        forget(running);
    }
}

impl Cases for Queries {
    fn begin(&mut self, _alloc: Global, name: &str) -> anyhow::Result<()> {
        let Some(asking) = asked_for(name) else {
            bail!("no such table")
        };
        self.asking = asking;
        self.definitions.end();
        Ok(())
    }

    fn give(&mut self, alloc: Global, text: &str) -> anyhow::Result<()> {
        match self.asking {
            Asking::Value | Asking::Truth => {
                let rows = read_rows(alloc, text)?;
                forget(replace(&mut self.rows, rows));
                Ok(())
            }
            _ => self.definitions.give(alloc, text),
        }
    }

    fn answer(&mut self, alloc: Global, asked: &str) -> anyhow::Result<String> {
        match self.asking {
            Asking::Value => value_of(alloc, &self.rows, asked),
            Asking::Truth => truth_of(alloc, &self.rows, asked),
            Asking::Groups => groups_of(alloc, asked),
            Asking::View => view_of(alloc, &self.definitions.catalog, asked),
            Asking::Kept => kept_of(alloc, &self.definitions.catalog, asked),
            Asking::Select => self.select(alloc, Mode::Serial, asked),
            Asking::Snapshot => self.select(alloc, Mode::Snapshot, asked),
            Asking::Change => {
                changing::turn_of(alloc, &self.definitions.catalog, &mut self.running, asked)
            }
        }
    }
}
