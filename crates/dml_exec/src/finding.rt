//! How UPDATE and DELETE find what they change.
ghost use Rattle.std.specs.Prelude.{◌≡◌, map, slice_get, Some, IfOk};
ghost use Rattle.std.specs.Option.{option_map};
ghost use Rattle.iv_meaning.specs.Objects.{schema_of};
ghost use Rattle.iv_meaning.specs.Schema.{numbered};
ghost use Rattle.sql_plan.specs.Parts.{parts_of};
ghost use Rattle.task_parts.specs.Sources.{source_of};
ghost use Rattle.iv_meaning.specs.Bound.{set_tree};
ghost use Rattle.iv_meaning.specs.Reading as meant;
ghost use Rattle.statement_law.specs.Changing.{update_rows, delete_rows};
ghost use Rattle.dml_exec.specs.Tasks.{changes_by, found_work, work_found, finding_work, IsTable, IsPlace, IsTurn};

use crate::choosing::{chosen, unless_refused};
use crate::pending::{PendingList, set_in, taken_out};
use crate::setting::rows_after;
use iv_types::{
    BoundSet, BoundSetList, Catalog, Definition, Expr, LockMode, NoMemory, RowList, TableDef,
};
use object_kinds::numbered;
use sql_plan::Plan;
use std::alloc::Global;
use std::collections::VecDeque;
use std::mem::drop;
use task_parts::{Source, Turn, source_by};

/// What becomes of the rows that are found.
#[derive(Drop)]
pub enum What {
    /// They are set to others.
    Update(BoundSetList),
    /// They are taken out.
    Delete,
}

/// A table, and how it is read.
#[derive(Drop)]
pub struct Place {
    pub table: TableDef,
    pub source: Source,
}

/// Rows of a table that are to be found and changed.
#[derive(Drop)]
pub struct Finding {
    pub place: Place,
    pub condition: Option<Expr>,
    pub what: What,
}

/// What is changed of the rows that were found, and how many these are.
#[derive(Drop)]
pub struct Changes {
    pub pending: PendingList,
    pub count: u64,
}

// What is changed of rows of which the condition is true, if the assignments are not refused.
fn updates(
    alloc: Global,
    table: &TableDef,
    sets: &[BoundSet],
    rows: &RowList,
) -> Result<Option<Changes>, NoMemory>
    ensures { IfOk result (λ found. work_found table.now.number found ≡ update_rows table.now (map set_tree sets.now) (Some rows.now)) }
{
    let count = rows.as_slice().len() as u64;
    let Some(after) = unless_refused(rows_after(alloc, table, sets, rows.as_slice()))? else {
        return Ok(None);
    };
    let pending = set_in(alloc, table, rows.as_slice(), after)?;
    Ok(Some(Changes { pending, count }))
}

// The same where they are taken out.
fn deletes(alloc: Global, table: &TableDef, rows: &RowList) -> Result<Changes, NoMemory>
    ensures { IfOk result (λ found. work_found table.now.number (Some found) ≡ delete_rows table.now (Some rows.now)) }
{
    let count = rows.as_slice().len() as u64;
    let pending = taken_out(alloc, table, rows.as_slice())?;
    Ok(Changes { pending, count })
}

// The source of the first part of a plan.
fn first_source(alloc: Global, catalog: &Catalog, plan: Plan) -> Result<Option<Source>, NoMemory>
    ensures { IfOk result (λ source. slice_get (map (meant.source_of (schema_of catalog.now)) (parts_of plan)) 0 ≡ option_map source_of source) }
{
    let Plan { parts } = plan;
    let mut parts = VecDeque::from_vec(parts.into_vec());
    match parts.pop_front() {
        Some(part) => Ok(Some(source_by(alloc, catalog, part)?)),
        None => Ok(None),
    }
}

// A table and how it is read, if this number is a table's.
fn place_by(
    alloc: Global,
    catalog: &Catalog,
    table: u32,
    source: Source,
) -> Result<Option<Place>, NoMemory>
    ensures { IfOk result (λ place. IsTable (numbered (schema_of catalog.now) table) source place) }
{
    match numbered(catalog, table) {
        Some(Definition::Table(table)) => Ok(Some(Place {
            table: table.copied(alloc)?,
            source,
        })),
        _ => Ok(None),
    }
}

/// A table that is read by a plan, if this number is a table's and the plan has a part.
///
/// # Errors
///
/// Where there is no memory for it.
pub fn place_of(
    alloc: Global,
    catalog: &Catalog,
    table: u32,
    plan: Plan,
) -> Result<Option<Place>, NoMemory>
    ensures { IfOk result (IsPlace (schema_of catalog.now) table (parts_of plan)) }
{
    match first_source(alloc, catalog, plan)? {
        Some(source) => place_by(alloc, catalog, table, source),
        None => Ok(None),
    }
}

impl Finding {
    /// Wants the rows of the interval.
    pub fn turn(&self, alloc: Global) -> Turn
        ensures { IsTurn (finding_work self.now) result }
    {
        match self.place.source.interval(alloc, &RowList::new(alloc)) {
            Ok(interval) => Turn::Fetch {
                index: self.place.source.part.index,
                interval,
                mode: LockMode::Exclusive,
            },
            Err(NoMemory) => Turn::NoMemory,
        }
    }

    // What is changed of rows of which the condition is true.
    fn changes_of(&self, alloc: Global, rows: &RowList) -> Result<Option<Changes>, NoMemory>
        ensures { IfOk result (λ found. work_found self.now.place.table.number found ≡ changes_by self.now.what self.now.place.table (Some rows.now)) }
    {
        match &self.what {
            What::Update(sets) => updates(alloc, &self.place.table, sets.as_slice(), rows),
            What::Delete => Ok(Some(deletes(alloc, &self.place.table, rows)?)),
        }
    }

    /// What is changed of the rows of the interval, or nothing where the statement is refused with `NumberRange`.
    ///
    /// # Errors
    ///
    /// Where there is no memory for it.
    pub fn changes(&self, alloc: Global, rows: RowList) -> Result<Option<Changes>, NoMemory>
        ensures { IfOk result (λ found. work_found self.now.place.table.number found ≡ found_work self.now (meant.in_key_order self.now.place.source.key rows)) }
    {
        let rows = self.place.source.in_order(alloc, rows)?;
        match unless_refused(chosen(alloc, &self.condition, rows))? {
            Some(rows) => self.changes_of(alloc, &rows),
            None => Ok(None),
        }
    }

    /// Lets it go. Its drop is proved here alone.
    pub fn let_go(self) {
        drop(self);
    }
}
