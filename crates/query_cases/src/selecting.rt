//! SELECTs that are read step by step, as `turns` tells them.
use crate::turns::{Running, next_turn, turn_after};
use anyhow::bail;
use catalog_text::bound;
use iv_types::{Bound, BoundSelect, Catalog, Mode};
use query_exec::Task;
use sql_plan::plan_select;
use std::alloc::Global;
use std::mem::{forget, replace};
use task_parts::Told;

// A SELECT that is read by its plan.
fn task_of(
    alloc: Global,
    catalog: &Catalog,
    select: BoundSelect,
    mode: Mode,
) -> anyhow::Result<Task> {
    match plan_select(alloc, catalog, &select, mode) {
        Ok(plan) => Ok(Task::new(alloc, catalog, select, plan, mode)?),
        Err(_) => {
            forget(select);
            bail!("no memory")
        }
    }
}

// What a SELECT is bound to.
fn select_of(alloc: Global, catalog: &Catalog, text: &str) -> anyhow::Result<BoundSelect> {
    match bound(alloc, catalog, text)? {
        Bound::Select(select) => Ok(select),
        other => {
            forget(other);
            bail!("no SELECT")
        }
    }
}

// Begins a SELECT in place of another statement.
fn begin(
    alloc: Global,
    catalog: &Catalog,
    running: &mut Option<Running>,
    mode: Mode,
    text: &str,
) -> anyhow::Result<()> {
    let begun = task_of(alloc, catalog, select_of(alloc, catalog, text)?, mode)?;
    forget(replace(running, Some(Running::Select(begun))));
    Ok(())
}

/// The turn that a row leads to, in transactions of this mode.
pub fn turn_of(
    alloc: Global,
    catalog: &Catalog,
    running: &mut Option<Running>,
    mode: Mode,
    asked: &str,
) -> anyhow::Result<String> {
    if asked.starts_with("SELECT ") {
        begin(alloc, catalog, running, mode, asked)?;
        return next_turn(alloc, running, Told::Nothing);
    }
    turn_after(alloc, running, asked)
}
