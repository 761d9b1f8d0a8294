//! How a statement starts.
ghost use Rattle.std.specs.Prelude.{◌≡◌, ◌∷◌, [], true, None, Some, IfOk, IsSome, OnOk, OnErr, ℕ};
ghost use Rattle.iv_types.specs.declared.reply.Reply.TheVariants as reply;
ghost use Rattle.iv_types.specs.Syntax.{rollback, savepoint};
ghost use Rattle.iv_types.specs.Trees.{statement_tree};
ghost use Rattle.statement_tasks.specs.Tasks.{left, mode_of};
ghost use Rattle.iv_meaning.specs.Objects.{schema_of};
ghost use Rattle.script_law.specs.Works.{is_work};
ghost use Rattle.script_law.specs.Sessions.{creates_with};
ghost use Rattle.statement_law.specs.Statements.{statement_work, the_works};
ghost use Rattle.txn_sessions.specs.declared.starting.Sort.TheVariants as sorts;
ghost use Rattle.txn_sessions.specs.Starts.{sort_of, is_select, IsFirst, IsFirstOr};
ghost use Rattle.txn_sessions.specs.Within.{IsWithin};
ghost use Rattle.txn_sessions.specs.Sessions.{stands, Comes, HasStayed, IsStarted};
ghost use Rattle.iv_meaning.specs.Transaction.{refused_inside};

use crate::line::{After, Opening, Stage, one};
use crate::session::Session;
use iv_types::{
    Bytes, Catalog, Limit, MOST_SAVEPOINTS, Mode, NoMemory, Refusal, Reply, ReplyList, Statement,
};
use statement_tasks::Task;
use std::alloc::Global;
use task_parts::{Told, Turn};
use txn_book::Act;

/// A task and its first turn, which is no want of memory.
#[derive(Drop)]
pub struct First {
    pub task: Task,
    pub turn: Turn,
}

/// What a statement is to its session.
#[derive(Clone, Copy)]
pub enum Sort {
    /// CREATE.
    Create,
    /// It reads or changes rows.
    Work,
    Begin(Mode),
    Commit,
    Rollback,
    Savepoint,
}

fn sort_of(statement: &Statement) -> Sort
    ensures { result ≡ sort_of (statement_tree statement.now) }
{
    match statement {
        Statement::CreateTable { .. } => Sort::Create,
        Statement::CreateIndex { .. } => Sort::Create,
        Statement::CreateView { .. } => Sort::Create,
        Statement::Insert { .. } => Sort::Work,
        Statement::Update { .. } => Sort::Work,
        Statement::Delete { .. } => Sort::Work,
        Statement::Select { .. } => Sort::Work,
        Statement::Begin(mode) => Sort::Begin(*mode),
        Statement::Commit => Sort::Commit,
        Statement::Rollback { .. } => Sort::Rollback,
        Statement::Savepoint { .. } => Sort::Savepoint,
    }
}

// To which savepoint a ROLLBACK goes back, if it names one.
fn rollback_to(statement: Statement) -> Option<Bytes>
    requires { sort_of (statement_tree statement) ≡ sorts.Rollback }
    ensures { statement_tree statement ≡ rollback result }
{
    match statement {
        Statement::Rollback { to } => to,
        _ => unreachable!(),
    }
}

// The name of a SAVEPOINT.
fn saved_name(statement: Statement) -> Bytes
    requires { sort_of (statement_tree statement) ≡ sorts.Savepoint }
    ensures { statement_tree statement ≡ savepoint result }
{
    match statement {
        Statement::Savepoint { name } => name,
        _ => unreachable!(),
    }
}

fn is_select(statement: &Statement) -> bool
    ensures { result ≡ is_select (statement_tree statement.now) }
{
    matches!(statement, Statement::Select { .. })
}

// The replies of a CREATE statement, but for the number of its commit.
fn done(alloc: Global) -> Result<ReplyList, NoMemory>
    ensures { IfOk result (λ replies. replies ≡ reply.Done 0 ∷ []) }
{
    let mut replies = ReplyList::new(alloc);
    replies.push(Reply::Done(0))?;
    Ok(replies)
}

// The first turn of a task.
fn turn_of(task: Task) -> Result<First, NoMemory>
    ensures { IfOk result (λ first. IsFirst (mode_of task) (left task) first) }
{
    let mut task = task;
    match task.next(Told::Nothing) {
        Turn::NoMemory => {
            task.let_go();
            Err(NoMemory)
        }
        turn => Ok(First { task, turn }),
    }
}

/// A statement's task on a catalog, and its first turn.
///
/// # Errors
///
/// The refusal of a statement that can't be bound; `NoMemory` where there is none.
pub fn begin(
    alloc: Global,
    catalog: &Catalog,
    statement: Statement,
    mode: Mode,
) -> Result<First, Refusal>
    requires work { is_work (statement_tree statement) ≡ true }
    requires allowed { refused_inside mode [] (statement_tree statement) ≡ None }
    ensures begun { IsFirstOr mode (statement_work mode (schema_of catalog.now) (statement_tree statement)) result }
{
    let task = Task::new(alloc, catalog, &statement, mode);
    statement.let_go();
    Ok(turn_of(task?)?)
}

impl Session {
    // A CREATE statement, which is one step.
    fn create(&mut self, statement: Statement) -> Result<(), NoMemory>
        requires mode { self.old.standing.mode ≡ None }
        requires create { sort_of (statement_tree statement) ≡ sorts.Create }
        ensures ok { OnOk result (Comes self.new (creates_with the_works (stands self.old).copy (statement_tree statement))) }
        ensures err { OnErr result (HasStayed self.old self.new) }
        ensures number { self.new.number ≡ self.old.number }
        ensures within { (n : ℕ) → IsWithin n self.old → IsWithin n self.new }
    {
        match done(self.alloc) {
            Ok(replies) => {
                self.ask(Act::Schema(statement), Stage::Creating(replies));
                Ok(())
            }
            Err(NoMemory) => {
                statement.let_go();
                Err(NoMemory)
            }
        }
    }

    /// A statement outside a transaction starts.
    ///
    /// # Errors
    ///
    /// `NoTransaction` where it needs one; `NoMemory` where there is none.
    pub fn start_outside(&mut self, statement: Statement) -> Result<(), Refusal>
        requires { self.old.standing.mode ≡ None }
        ensures started { IsStarted self.old (statement_tree statement) result self.new }
        ensures number { self.new.number ≡ self.old.number }
        ensures within { (n : ℕ) → IsWithin n self.old → IsWithin n self.new }
    {
        match sort_of(&statement) {
            Sort::Create => Ok(self.create(statement)?),
            Sort::Work => {
                let opening = Opening::Alone(statement);
                self.ask(Act::Begin(Mode::Serial), Stage::Opening(opening));
                Ok(())
            }
            Sort::Begin(mode) => {
                statement.let_go();
                self.ask(Act::Begin(mode), Stage::Opening(Opening::Begin(mode)));
                Ok(())
            }
            Sort::Commit | Sort::Rollback | Sort::Savepoint => {
                statement.let_go();
                Err(Refusal::NoTransaction)
            }
        }
    }

    // A statement that reads or changes rows starts in a transaction.
    fn start_work(&mut self, mode: Mode, statement: Statement) -> Result<(), Refusal>
        requires mode { self.old.standing.mode ≡ Some mode }
        requires work { is_work (statement_tree statement) ≡ true }
        ensures started { IsStarted self.old (statement_tree statement) result self.new }
        ensures number { self.new.number ≡ self.old.number }
        ensures within { (n : ℕ) → IsWithin n self.old → IsWithin n self.new }
    {
        if mode == Mode::Snapshot && !is_select(&statement) {
            statement.let_go();
            return Err(Refusal::ReadOnly);
        }
        let _kept = self.standing.kept;
        match begin(self.alloc, &self.standing.catalog, statement, mode) {
            Ok(First { task, turn }) => {
                self.take(task, turn, 0);
                Ok(())
            }
            Err(Refusal::NoMemory) => Err(Refusal::NoMemory),
            Err(why) => {
                self.back(0, why);
                Ok(())
            }
        }
    }

    // ROLLBACK TO.
    fn start_return(&mut self, name: Bytes) -> Result<(), Refusal>
        requires { IsSome self.old.standing.mode }
        ensures started { IsStarted self.old (rollback (Some name)) result self.new }
        ensures number { self.new.number ≡ self.old.number }
        ensures within { (n : ℕ) → IsWithin n self.old → IsWithin n self.new }
    {
        match self.standing.find(&name) {
            Some((later, kept)) => {
                let count = self.standing.kept.saturating_sub(kept);
                self.take_back(count, After::Returns { later, kept });
                Ok(())
            }
            None => Err(Refusal::UnknownSavepoint(name)),
        }
    }

    // ROLLBACK, also to a savepoint.
    fn start_rollback(&mut self, to: Option<Bytes>) -> Result<(), Refusal>
        requires { IsSome self.old.standing.mode }
        ensures started { IsStarted self.old (rollback to) result self.new }
        ensures number { self.new.number ≡ self.old.number }
        ensures within { (n : ℕ) → IsWithin n self.old → IsWithin n self.new }
    {
        match to {
            Some(name) => self.start_return(name),
            None => {
                let kept = self.standing.kept;
                self.take_back(kept, After::Ends(Reply::Done(0)));
                Ok(())
            }
        }
    }

    // SAVEPOINT.
    fn start_save(&mut self, name: Bytes) -> Result<(), Refusal>
        requires { IsSome self.old.standing.mode }
        ensures started { IsStarted self.old (savepoint name) result self.new }
        ensures number { self.new.number ≡ self.old.number }
        ensures within { (n : ℕ) → IsWithin n self.old → IsWithin n self.new }
    {
        if self.standing.saved.len() >= MOST_SAVEPOINTS as usize {
            return Err(Refusal::Limit(Limit::Savepoints));
        }
        self.standing.save(name)?;
        self.tell(one(self.alloc, Reply::Done(0)));
        Ok(())
    }

    /// A statement inside a transaction starts.
    ///
    /// # Errors
    ///
    /// `InTransaction`, `ReadOnly`, `UnknownSavepoint` and `Limit` where the transaction refuses it; `NoMemory` where there is
    /// none.
    pub fn start_inside(&mut self, mode: Mode, statement: Statement) -> Result<(), Refusal>
        requires { self.old.standing.mode ≡ Some mode }
        ensures started { IsStarted self.old (statement_tree statement) result self.new }
        ensures number { self.new.number ≡ self.old.number }
        ensures within { (n : ℕ) → IsWithin n self.old → IsWithin n self.new }
    {
        match sort_of(&statement) {
            Sort::Work => self.start_work(mode, statement),
            Sort::Commit => {
                statement.let_go();
                let replies = ReplyList::new(self.alloc);
                self.ask(Act::Commit, Stage::Committing(replies));
                Ok(())
            }
            Sort::Rollback => self.start_rollback(rollback_to(statement)),
            Sort::Savepoint => self.start_save(saved_name(statement)),
            Sort::Create | Sort::Begin(_) => {
                statement.let_go();
                Err(Refusal::InTransaction)
            }
        }
    }
}
