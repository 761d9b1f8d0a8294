//! A statement that reads or changes rows, as it is done.
ghost use Rattle.std.specs.Prelude.{◌≡◌, [], true, None, IfOk};
ghost use Rattle.iv_types.specs.Trees.{statement_tree};
ghost use Rattle.iv_meaning.specs.Bound.{bound_tree};
ghost use Rattle.iv_meaning.specs.Objects.{schema_of};
ghost use Rattle.iv_meaning.specs.Plan as meant_plan;
ghost use Rattle.iv_meaning.specs.Transaction.{refused_inside};
ghost use Rattle.script_law.specs.Works.{is_work};
ghost use Rattle.sql_plan.specs.Parts.{parts_of};
ghost use Rattle.statement_law.specs.Statements.{bound_work, statement_work};
ghost use Rattle.statement_tasks.specs.Tasks.{left, left_when, mode_of, IsFor, IsBegun, Moves};

use dml_exec::Task as ChangeTask;
use iv_types::{Bound, Catalog, Mode, NoMemory, Refusal, Statement};
use query_exec::Task as ReadTask;
use sql_bind::bind;
use sql_plan::{Plan, plan};
use std::alloc::Global;
use std::mem::drop;
use task_parts::{Told, Turn};

/// A SELECT, INSERT, UPDATE or DELETE that is done step by step.
#[derive(Drop)]
pub enum Task {
    Read(ReadTask),
    Change(ChangeTask),
}

// A bound statement and its plan, as a task.
fn planned(
    alloc: Global,
    catalog: &Catalog,
    bound: Bound,
    plan: Plan,
    mode: Mode,
) -> Result<Task, NoMemory>
    requires is_for { IsFor mode (bound_tree bound) }
    requires plan { parts_of plan ≡ meant_plan.plan (schema_of catalog.now) (bound_tree bound) mode }
    ensures left { IfOk result (λ task. left task ≡ bound_work mode (schema_of catalog.now) (bound_tree bound)) }
    ensures mode { IfOk result (λ task. mode_of task ≡ mode) }
{
    match bound {
        Bound::Select(select) => Ok(Task::Read(ReadTask::new(alloc, catalog, select, plan, mode)?)),
        Bound::Insert(insert) => Ok(Task::Change(ChangeTask::insert(alloc, catalog, &insert)?)),
        Bound::Update(update) => Ok(Task::Change(ChangeTask::update(
            alloc, catalog, update, plan,
        )?)),
        Bound::Delete(delete) => Ok(Task::Change(ChangeTask::delete(
            alloc, catalog, delete, plan,
        )?)),
        Bound::Table(_) => unreachable!(),
        Bound::Index(_) => unreachable!(),
        Bound::View(_) => unreachable!(),
        Bound::Control => unreachable!(),
    }
}

// A bound statement is let go here alone.
fn let_go(bound: Bound) {
    drop(bound);
}

// A bound statement, as a task.
fn of_bound(alloc: Global, catalog: &Catalog, bound: Bound, mode: Mode) -> Result<Task, NoMemory>
    requires { IsFor mode (bound_tree bound) }
    ensures left { IfOk result (λ task. left task ≡ bound_work mode (schema_of catalog.now) (bound_tree bound)) }
    ensures mode { IfOk result (λ task. mode_of task ≡ mode) }
{
    match plan(alloc, catalog, &bound, mode) {
        Ok(plan) => planned(alloc, catalog, bound, plan, mode),
        Err(NoMemory) => {
            let_go(bound);
            Err(NoMemory)
        }
    }
}

impl Task {
    /// A statement on this catalog, in a transaction of this mode. It is bound and planned here, and an INSERT's rows are
    /// evaluated.
    ///
    /// # Errors
    ///
    /// The refusal of a statement that can't be bound; `NoMemory` where there is none.
    #[tactic(auto, using(crate::proofs::Binding::bound_for))]
    pub fn new(
        alloc: Global,
        catalog: &Catalog,
        statement: &Statement,
        mode: Mode,
    ) -> Result<Task, Refusal>
        requires work { is_work (statement_tree statement.now) ≡ true }
        requires allowed { refused_inside mode [] (statement_tree statement.now) ≡ None }
        ensures begun { IsBegun mode (statement_work mode (schema_of catalog.now) (statement_tree statement.now)) result }
    {
        let bound = bind(alloc, catalog, statement)?;
        Ok(of_bound(alloc, catalog, bound, mode)?)
    }

    /// Hands over what was answered to its last want, and tells what it does next. Told nothing, it wants its rows again.
    pub fn next(&mut self, told: Told) -> Turn
        ensures { Moves (mode_of self.old) (left_when told self.old) result self.new }
    {
        match self {
            Task::Read(task) => task.next(told),
            Task::Change(task) => task.next(told),
        }
    }
}

impl Task {
    /// Lets a task go. Its drop is proved here, so that no crate above proves it again.
    pub fn let_go(self) {
        drop(self);
    }
}
