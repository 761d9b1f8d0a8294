//! An INSERT, UPDATE or DELETE as it is done.
ghost use Rattle.std.specs.Prelude.{◌≡◌, ◌⊎◌, ℕ, List, ◌∷◌, [], map, Option, Some, None, IfOk, OnOk};
ghost use Rattle.iv_types.specs.declared.statement.Mode.{Mode as AnyMode};
ghost use Rattle.iv_types.specs.Trees.{trees, perhaps_tree};
ghost use Rattle.iv_meaning.specs.Bound.{set_tree};
ghost use Rattle.iv_meaning.specs.Objects.{schema_of};
ghost use Rattle.iv_meaning.specs.Plan as meant_plan;
ghost use Rattle.iv_meaning.specs.Schema.{numbered};
ghost use Rattle.iv_meaning.specs.Statement as statement;
ghost use Rattle.iv_meaning.specs.Statement.{tuple_rows};
ghost use Rattle.sql_plan.specs.Parts.{parts_of};
ghost use Rattle.script_law.specs.Works.{Work, done, refuses, puts};
ghost use Rattle.iv_meaning.specs.Database.{Row as AnyRow};
ghost use Rattle.dml_exec.specs.declared.pending.Pending.{Pending as AnyPending};
ghost use Rattle.dml_exec.specs.declared.task.Phase.TheVariants as phase;
ghost use Rattle.statement_law.specs.Inserting.{insert_work};
ghost use Rattle.statement_law.specs.Statements.{bound_work};
ghost use Rattle.task_parts.specs.declared.turn.Told.TheVariants.{Rows};
ghost use Rattle.dml_exec.specs.Tasks.{left, left_in, left_when, after, inserts_by, finding_work, plan_work, refusal_of, IsTurn, Moves};

use crate::choosing::unless_refused;
use crate::finding::{Changes, Finding, What, place_of};
use crate::pending::{Pending, PendingList, put_in};
use iv_types::{
    BoundDelete, BoundInsert, BoundUpdate, Catalog, Definition, Expr, ExprList, LockMode, NoMemory,
    Refusal, Reply, ReplyList, RowList, TableDef,
};
use object_kinds::numbered;
use row_codec::point;
use row_eval::tuple_rows;
use sql_plan::Plan;
use std::alloc::Global;
use task_parts::{Told, Turn};

/// Why a statement is refused for what it means.
#[derive(Clone, Copy)]
pub enum Cause {
    NumberRange,
    DuplicateKey,
}

/// How far a statement came whose rows are known.
#[derive(Clone, Copy)]
pub enum Phase {
    /// The first row is put in if nothing is found under its key, and then the others.
    Inserting,
    /// Nothing was found there.
    Free,
    /// The rows are changed one after the other.
    Changing,
    Refused(Cause),
}

/// An INSERT, UPDATE or DELETE that is done step by step: which rows it wants to read, and then which changes it wants made.
#[derive(Drop)]
pub struct Task {
    alloc: Global,
    table: u32,
    // UPDATE and DELETE, until their rows are told.
    finding: Option<Finding>,
    phase: Phase,
    pending: PendingList,
    // How many rows it is about.
    count: u64,
}

impl Cause {
    fn refusal(self) -> Refusal
        ensures { result ≡ refusal_of self }
    {
        match self {
            Cause::NumberRange => Refusal::NumberRange,
            Cause::DuplicateKey => Refusal::DuplicateKey,
        }
    }
}

// The end of a statement that lists no rows and counts so many.
fn ended(alloc: Global, count: u64) -> Turn
    ensures { IsTurn (done [] count) result }
{
    let mut replies = ReplyList::new(alloc);
    match replies.push(Reply::Done(count)) {
        Ok(()) => Turn::Done(replies),
        Err(NoMemory) => Turn::NoMemory,
    }
}

// Wants what stands under the key of a row that is to be put in.
fn look_up(alloc: Global, table: u32, pending: &Pending) -> Turn
    ensures { (more : List AnyPending) (count : ℕ) → IsTurn (inserts_by table (pending.now ∷ more) count) result }
{
    match point(alloc, &pending.key) {
        Ok(interval) => Turn::Fetch {
            index: table,
            interval,
            mode: LockMode::Exclusive,
        },
        Err(NoMemory) => Turn::NoMemory,
    }
}

// Wants a row, or none, under a key.
fn change(table: u32, pending: Pending) -> Turn
    ensures { (more : Option AnyRow → Work) → IsTurn (puts table pending.key pending.row more) result }
{
    let Pending { key, row } = pending;
    Turn::Change {
        table,
        key,
        new: row,
    }
}

impl Task {
    // A statement whose rows are known.
    fn of_rows(alloc: Global, table: u32, phase: Phase, pending: PendingList, count: u64) -> Task
        ensures { left result ≡ left_in phase table pending.items count }
    {
        Task {
            alloc,
            table,
            finding: None,
            phase,
            pending,
            count,
        }
    }

    // A statement that is about no rows.
    fn of_none(alloc: Global, table: u32) -> Task
        ensures { left result ≡ done [] 0 }
    {
        Task::of_rows(alloc, table, Phase::Changing, PendingList::new(alloc), 0)
    }

    // A statement that is refused.
    fn of_refused(alloc: Global, table: u32, cause: Cause) -> Task
        ensures { left result ≡ refuses (refusal_of cause) }
    {
        Task::of_rows(
            alloc,
            table,
            Phase::Refused(cause),
            PendingList::new(alloc),
            0,
        )
    }

    // An INSERT of these rows.
    fn of_new(alloc: Global, table: &TableDef, rows: RowList) -> Result<Task, NoMemory>
        ensures { IfOk result (λ task. left task ≡ insert_work table.now (Some rows)) }
    {
        let count = rows.as_slice().len() as u64;
        let pending = put_in(alloc, table, rows)?;
        Ok(Task::of_rows(alloc, table.number, Phase::Inserting, pending, count))
    }

    // An INSERT of the rows of these tuples.
    fn of_tuples(alloc: Global, table: &TableDef, tuples: &[ExprList]) -> Result<Task, NoMemory>
        ensures { IfOk result (λ task. left task ≡ insert_work table.now (tuple_rows table.now (map trees tuples.now))) }
    {
        match unless_refused(tuple_rows(alloc, table, tuples))? {
            Some(rows) => Task::of_new(alloc, table, rows),
            None => Ok(Task::of_refused(alloc, table.number, Cause::NumberRange)),
        }
    }

    // Rows that are found by a plan, and changed so.
    fn by_plan(
        alloc: Global,
        catalog: &Catalog,
        table: u32,
        plan: Plan,
        condition: Option<Expr>,
        what: What,
    ) -> Result<Task, NoMemory>
        ensures { IfOk result (λ task. left task ≡ plan_work (schema_of catalog.now) table what (perhaps_tree condition) (parts_of plan)) }
    {
        match place_of(alloc, catalog, table, plan)? {
            Some(place) => Ok(Task {
                alloc,
                table,
                finding: Some(Finding {
                    place,
                    condition,
                    what,
                }),
                phase: Phase::Changing,
                pending: PendingList::new(alloc),
                count: 0,
            }),
            None => Ok(Task::of_none(alloc, table)),
        }
    }

    /// An INSERT that is bound on this catalog. All its rows are evaluated here, so that one that is refused refuses the
    /// statement before its first step.
    ///
    /// # Errors
    ///
    /// Where there is no memory for the rows.
    pub fn insert(alloc: Global, catalog: &Catalog, insert: &BoundInsert) -> Result<Task, NoMemory>
        ensures { (mode : AnyMode) → IfOk result (λ task. left task ≡ bound_work mode (schema_of catalog.now) (statement.insert insert.now.table (map trees insert.now.tuples))) }
    {
        match numbered(catalog, insert.table) {
            Some(Definition::Table(table)) => {
                Task::of_tuples(alloc, table, insert.tuples.as_slice())
            }
            _ => Ok(Task::of_none(alloc, insert.table)),
        }
    }

    /// An UPDATE that is bound on this catalog, by its plan there. It wants the rows of the plan's interval, evaluates what
    /// becomes of each of which its condition is true, and then wants those set that change, in the order of the primary key.
    ///
    /// # Errors
    ///
    /// Where there is no memory for it.
    pub fn update(
        alloc: Global,
        catalog: &Catalog,
        update: BoundUpdate,
        plan: Plan,
    ) -> Result<Task, NoMemory>
        ensures { (mode : AnyMode) → parts_of plan ≡ meant_plan.plan (schema_of catalog.now) (statement.update update.table (map set_tree update.sets) (perhaps_tree update.condition)) mode
            → IfOk result (λ task. left task ≡ bound_work mode (schema_of catalog.now) (statement.update update.table (map set_tree update.sets) (perhaps_tree update.condition))) }
    {
        let BoundUpdate {
            table,
            sets,
            condition,
        } = update;
        Task::by_plan(alloc, catalog, table, plan, condition, What::Update(sets))
    }

    /// A DELETE that is bound on this catalog, by its plan there. It wants the rows of the plan's interval, and then those
    /// taken out of which its condition is true, in the order of the primary key.
    ///
    /// # Errors
    ///
    /// Where there is no memory for it.
    pub fn delete(
        alloc: Global,
        catalog: &Catalog,
        delete: BoundDelete,
        plan: Plan,
    ) -> Result<Task, NoMemory>
        ensures { (mode : AnyMode) → parts_of plan ≡ meant_plan.plan (schema_of catalog.now) (statement.delete delete.table (perhaps_tree delete.condition)) mode
            → IfOk result (λ task. left task ≡ bound_work mode (schema_of catalog.now) (statement.delete delete.table (perhaps_tree delete.condition))) }
    {
        let BoundDelete { table, condition } = delete;
        Task::by_plan(alloc, catalog, table, plan, condition, What::Delete)
    }

    // The rows of the interval of an UPDATE or a DELETE.
    fn find(&mut self, finding: Finding, rows: RowList) -> Result<(), NoMemory>
        requires { self.old.finding ≡ None }
        ensures { OnOk result (left self.new ≡ after (Rows rows) (finding_work finding)) }
    {
        let changes = finding.changes(self.alloc, rows);
        self.table = finding.place.table.number;
        finding.let_go();
        match changes? {
            Some(Changes { pending, count }) => {
                self.pending = pending;
                self.count = count;
                self.phase = Phase::Changing;
            }
            None => self.phase = Phase::Refused(Cause::NumberRange),
        }
        Ok(())
    }

    // What stands under the key of a row that is to be put in.
    fn look(&mut self, rows: &RowList)
        requires { self.old.finding ≡ None }
        ensures { left self.new ≡ after (Rows rows.now) (left self.old) }
    {
        if self.pending.is_empty() {
            return;
        }
        if let Phase::Inserting = self.phase {
            self.phase = match rows.as_slice() {
                [] => Phase::Free,
                [_, ..] => Phase::Refused(Cause::DuplicateKey),
            };
        }
    }

    // The rows that it wanted.
    fn hand(&mut self, rows: RowList) -> Result<(), NoMemory>
        ensures { OnOk result (left self.new ≡ after (Rows rows) (left self.old)) }
    {
        match self.finding.take() {
            Some(finding) => self.find(finding, rows),
            None => {
                self.look(&rows);
                Ok(())
            }
        }
    }

    // Wants the next change, in a statement that is under way.
    fn change_next(&mut self, behind: Phase) -> Turn
        requires finding { self.old.finding ≡ None }
        requires phase { ((self.old.phase ≡ phase.Free) × (behind ≡ phase.Inserting)) ⊎ ((self.old.phase ≡ phase.Changing) × (behind ≡ phase.Changing)) }
        ensures { Moves (left self.old) result self.new }
    {
        match self.pending.pop_front() {
            Some(pending) => {
                self.phase = behind;
                change(self.table, pending)
            }
            None => ended(self.alloc, self.count),
        }
    }

    // What it does next.
    fn turn(&mut self) -> Turn
        ensures { Moves (left self.old) result self.new }
    {
        if let Some(finding) = &self.finding {
            return finding.turn(self.alloc);
        }
        match self.phase {
            Phase::Inserting => match self.pending.front() {
                Some(pending) => look_up(self.alloc, self.table, pending),
                None => ended(self.alloc, self.count),
            },
            Phase::Free => self.change_next(Phase::Inserting),
            Phase::Changing => self.change_next(Phase::Changing),
            Phase::Refused(cause) => Turn::Refused(cause.refusal()),
        }
    }

    /// Hands over what was answered to its last want, and tells what it does next. Told nothing, it wants its rows again.
    pub fn next(&mut self, told: Told) -> Turn
        ensures { Moves (left_when told self.old) result self.new }
    {
        match told {
            Told::Rows(rows) => {
                if self.hand(rows).is_err() {
                    return Turn::NoMemory;
                }
            }
            other => other.let_go(),
        }
        self.turn()
    }
}
