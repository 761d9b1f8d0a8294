//! INSERTs, UPDATEs and DELETEs that are done step by step, as `turns` tells them.
use crate::turns::{Running, next_turn, turn_after};
use anyhow::bail;
use catalog_text::bound;
use dml_exec::Task;
use iv_types::{Bound, BoundInsert, Catalog, Mode};
use sql_plan::{Plan, plan};
use std::alloc::Global;
use std::mem::{forget, replace};
use task_parts::Told;

fn inserting(alloc: Global, catalog: &Catalog, insert: BoundInsert) -> anyhow::Result<Task> {
    let task = Task::insert(alloc, catalog, &insert);
    forget(insert);
    Ok(task?)
}

// A statement that changes rows, by its plan.
fn task_by(alloc: Global, catalog: &Catalog, bound: Bound, plan: Plan) -> anyhow::Result<Task> {
    match bound {
        Bound::Insert(insert) => inserting(alloc, catalog, insert),
        Bound::Update(update) => Ok(Task::update(alloc, catalog, update, plan)?),
        Bound::Delete(delete) => Ok(Task::delete(alloc, catalog, delete, plan)?),
        other => {
            forget(other);
            bail!("no change")
        }
    }
}

// What a text changes.
fn task_of(alloc: Global, catalog: &Catalog, text: &str) -> anyhow::Result<Task> {
    let bound = bound(alloc, catalog, text)?;
    match plan(alloc, catalog, &bound, Mode::Serial) {
        Ok(plan) => task_by(alloc, catalog, bound, plan),
        Err(_) => {
            forget(bound);
            bail!("no memory")
        }
    }
}

// Whether a row begins a statement.
fn begins(asked: &str) -> bool {
    asked.starts_with("INSERT ") || asked.starts_with("UPDATE ") || asked.starts_with("DELETE ")
}

/// The turn that a row leads to.
pub fn turn_of(
    alloc: Global,
    catalog: &Catalog,
    running: &mut Option<Running>,
    asked: &str,
) -> anyhow::Result<String> {
    if begins(asked) {
        let begun = task_of(alloc, catalog, asked)?;
        forget(replace(running, Some(Running::Change(begun))));
        return next_turn(alloc, running, Told::Nothing);
    }
    turn_after(alloc, running, asked)
}
