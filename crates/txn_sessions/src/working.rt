//! A statement's work, step by step.
ghost use Rattle.std.specs.Prelude.{◌≡◌, ◌+◌, ◌<◌, ◌^◌, ℕ, Bool, true, List, ◌∷◌, drop, Some, None, IfOk, IfErr, ◌≤◌};
ghost use Rattle.iv_types.specs.declared.lock.GroupDelta.{GroupDelta as AnyDelta};
ghost use Rattle.engine_refusals.specs.Named.{IsEscrow};
ghost use Rattle.statement_law.specs.Telling.{tell};
ghost use Rattle.iv_meaning.specs.Objects.{schema_of};
ghost use Rattle.txn_machine.specs.Acts as act;
ghost use Rattle.txn_machine.specs.Answers as answer;
ghost use Rattle.script_law.specs.Programs.{asks, ghosts};
ghost use Rattle.iv_types.specs.declared.refusal.Refusal.TheVariants as refusal;
ghost use Rattle.txn_machine.specs.Answers.{Answer as AnyAnswer};
ghost use Rattle.script_law.specs.Works.{Work};
ghost use Rattle.script_law.specs.Sessions.{with_memory};
ghost use Rattle.task_parts.specs.declared.turn.Turn.TheVariants as turns;
ghost use Rattle.statement_tasks.specs.Tasks.{left_when, mode_of, Moves};
ghost use Rattle.txn_sessions.specs.declared.line.Stage.TheVariants as stage;
ghost use Rattle.txn_sessions.specs.Answers.{WasRows, WasChanged};
ghost use Rattle.txn_sessions.specs.Fits.{is_owing};
ghost use Rattle.txn_sessions.specs.Left.{frame_in, runs_as, owes, owing_follows, follows};
ghost use Rattle.txn_sessions.specs.Within.{StandsWithin, IsWithin};
ghost use Rattle.txn_sessions.specs.Sessions.{stands, Comes};

use crate::line::{Owing, Stage};
use crate::session::Session;
use engine_refusals::{told_of, told_plainly};
use iv_types::{DeltaList, EngineRefusal, NoMemory, Refusal, Row, RowList};
use statement_tasks::Task;
use task_parts::{Told, Turn};
use txn_book::Act;

// How a pay's refusal is told.
fn told_for(session: &Session, owing: &Owing, why: EngineRefusal) -> Result<Refusal, NoMemory>
    requires { is_owing owing.now ≡ true }
    ensures told { IfOk result (λ r. (d : AnyDelta) (ds : List AnyDelta) → drop owing.now.paid owing.now.owed ≡ d ∷ ds → r ≡ tell (schema_of session.now.standing.catalog) (Some d) why) }
    ensures lacking { IfErr result (λ e. IsEscrow why) }
{
    let delta = &owing.owed.as_slice()[owing.paid];
    told_of(session.alloc, &session.standing.catalog, delta, why)
}

impl Session {
    /// What a task does next.
    pub fn take(&mut self, task: Task, turn: Turn, made: u64)
        requires { made + self.old.standing.kept < 2 ^ 64 }
        ensures went { (w : Work) → Moves (mode_of task) w turn task → (turn ≡ turns.NoMemory → ⊥) → Comes self.new (runs_as self.old.standing.mode (stands self.old) (mode_of task) w made) }
        ensures lacks { turn ≡ turns.NoMemory → Comes self.new ((frame_in self.old.standing.mode (stands self.old)).back made refusal.NoMemory) }
        ensures number { self.new.number ≡ self.old.number }
        ensures within { (n : ℕ) → StandsWithin n self.old.standing → made + self.old.standing.kept ≤ n → IsWithin n self.new }
    {
        match turn {
            Turn::Fetch {
                index,
                interval,
                mode,
            } => self.ask(
                Act::Fetch {
                    index,
                    interval,
                    mode,
                },
                Stage::Fetching { task, made },
            ),
            Turn::Peek { index, interval } => self.ask(
                Act::Peek { index, interval },
                Stage::Fetching { task, made },
            ),
            Turn::Change { table, key, new } => {
                self.ask(Act::Put { table, key, new }, Stage::Changing { task, made })
            }
            Turn::Done(replies) => {
                task.let_go();
                self.finish(replies, made);
            }
            Turn::Refused(why) => {
                task.let_go();
                self.back(made, why);
            }
            Turn::NoMemory => {
                task.let_go();
                self.back(made, Refusal::NoMemory);
            }
        }
    }

    /// A task goes on by what it is told.
    pub fn go_on(&mut self, task: Task, told: Told, made: u64)
        requires { made + self.old.standing.kept < 2 ^ 64 }
        ensures comes { (memory : Bool) × Comes self.new (with_memory memory (runs_as self.old.standing.mode (stands self.old) (mode_of task) (left_when told task) made) ((frame_in self.old.standing.mode (stands self.old)).back made refusal.NoMemory)) }
        ensures number { self.new.number ≡ self.old.number }
        ensures within { (n : ℕ) → StandsWithin n self.old.standing → made + self.old.standing.kept ≤ n → IsWithin n self.new }
    {
        let mut task = task;
        let turn = task.next(told);
        self.take(task, turn, made);
    }

    /// Rows were found.
    pub fn fetched(&mut self, task: Task, made: u64, rows: Result<RowList, EngineRefusal>)
        requires { made + self.old.standing.kept < 2 ^ 64 }
        ensures comes { (said : AnyAnswer) → WasRows rows said → (memory : Bool) × Comes self.new (follows self.old.standing.mode (stands self.old) (stage.Fetching task made) said memory) }
        ensures number { self.new.number ≡ self.old.number }
        ensures within { (n : ℕ) → StandsWithin n self.old.standing → made + self.old.standing.kept ≤ n → IsWithin n self.new }
    {
        match rows {
            Ok(rows) => self.go_on(task, Told::Rows(rows), made),
            Err(why) => {
                task.let_go();
                self.refuse(made, told_plainly(self.alloc, why), why);
            }
        }
    }

    /// The next delta is to be paid, or the task goes on where all are.
    pub fn owe(&mut self, owing: Owing)
        requires { owing.made + self.old.standing.kept < 2 ^ 64 }
        ensures comes { (memory : Bool) × Comes self.new (with_memory memory (owes self.old.standing.mode (stands self.old) owing) ((frame_in self.old.standing.mode (stands self.old)).back owing.made refusal.NoMemory)) }
        ensures number { self.new.number ≡ self.old.number }
        ensures within { (n : ℕ) → StandsWithin n self.old.standing → owing.made + self.old.standing.kept ≤ n → IsWithin n self.new }
    {
        if owing.paid < owing.owed.as_slice().len() {
            return self.ask(Act::Pay, Stage::Paying(owing));
        }
        let Owing {
            task,
            before,
            owed: _,
            paid: _,
            made,
        } = owing;
        self.go_on(task, Told::Before(before), made);
    }

    /// A row was changed.
    pub fn changed(
        &mut self,
        task: Task,
        made: u64,
        change: Result<(Option<Row>, DeltaList), EngineRefusal>,
    )
        requires { made + 1 + self.old.standing.kept < 2 ^ 64 }
        ensures comes { (said : AnyAnswer) → WasChanged change said → (memory : Bool) × Comes self.new (follows self.old.standing.mode (stands self.old) (stage.Changing task made) said memory) }
        ensures number { self.new.number ≡ self.old.number }
        ensures within { (n : ℕ) → StandsWithin n self.old.standing → made + 1 + self.old.standing.kept ≤ n → IsWithin n self.new }
        ensures refused { (n : ℕ) → StandsWithin n self.old.standing → IfErr change (λ why. IsWithin n self.new) }
    {
        match change {
            Ok((before, owed)) => self.owe(Owing {
                task,
                before,
                owed,
                paid: 0,
                made: made + 1,
            }),
            Err(why) => {
                task.let_go();
                self.refuse(made, told_plainly(self.alloc, why), why);
            }
        }
    }

    /// A pay, or the row that it lacks, was refused.
    pub fn unpaid(&mut self, owing: Owing, why: EngineRefusal)
        requires room { owing.made + self.old.standing.kept < 2 ^ 64 }
        requires owing { is_owing owing ≡ true }
        ensures comes { (memory : Bool) × Comes self.new (owing_follows self.old.standing.mode (stands self.old) owing (answer.Refused why) memory) }
        ensures number { self.new.number ≡ self.old.number }
        ensures within { (n : ℕ) → StandsWithin n self.old.standing → IsWithin n self.new }
    {
        let told = told_for(self, &owing, why);
        let made = owing.made;
        owing.let_go();
        match told {
            Ok(told) => self.refuse(made, told, why),
            Err(NoMemory) => self.back(made, Refusal::NoMemory),
        }
    }

    /// A delta was paid.
    pub fn paid(&mut self, owing: Owing)
        requires room { owing.made + 1 + self.old.standing.kept < 2 ^ 64 }
        requires owing { is_owing owing ≡ true }
        ensures comes { (left : ℕ) → (memory : Bool) × Comes self.new (owing_follows self.old.standing.mode (stands self.old) owing (answer.Paid left) memory) }
        ensures number { self.new.number ≡ self.old.number }
        ensures within { (n : ℕ) → StandsWithin n self.old.standing → owing.made + 1 + self.old.standing.kept ≤ n → IsWithin n self.new }
    {
        let Owing {
            task,
            before,
            owed,
            paid,
            made,
        } = owing;
        self.owe(Owing {
            task,
            before,
            owed,
            paid: paid + 1,
            made: made + 1,
        });
    }

    /// The row of the first owed delta is to be made.
    pub fn lack(&mut self, owing: Owing)
        requires { is_owing owing ≡ true }
        ensures comes { Comes self.new (ghosts (owing_follows self.old.standing.mode (stands self.old) owing)) }
        ensures number { self.new.number ≡ self.old.number }
        ensures within { (n : ℕ) → StandsWithin n self.old.standing → owing.made + self.old.standing.kept ≤ n → IsWithin n self.new }
    {
        self.ask(Act::Ghost, Stage::Lacking(owing));
    }

    /// The delta whose row is made now is to be paid.
    pub fn pay(&mut self, owing: Owing)
        requires { is_owing owing ≡ true }
        ensures comes { Comes self.new (asks act.Pay (owing_follows self.old.standing.mode (stands self.old) owing)) }
        ensures number { self.new.number ≡ self.old.number }
        ensures within { (n : ℕ) → StandsWithin n self.old.standing → owing.made + self.old.standing.kept ≤ n → IsWithin n self.new }
    {
        self.ask(Act::Pay, Stage::Paying(owing));
    }
}
