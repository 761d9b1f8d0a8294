//! How a transaction opens, and what it was opened for goes on.
ghost use Rattle.std.specs.Prelude.{◌≡◌, ◌<◌, ◌^◌, ℕ, Bool, true};
ghost use Rattle.iv_types.specs.declared.refusal.Refusal.TheVariants as refusal;
ghost use Rattle.iv_types.specs.declared.reply.Reply.TheVariants as reply;
ghost use Rattle.iv_types.specs.Trees.{statement_tree};
ghost use Rattle.iv_meaning.specs.Objects.{schema_of};
ghost use Rattle.iv_meaning.specs.Transaction.{begin_reply};
ghost use Rattle.txn_machine.specs.Answers.{Answer as AnyAnswer};
ghost use Rattle.script_law.specs.Sessions.{with_memory};
ghost use Rattle.script_law.specs.Works.{is_work};
ghost use Rattle.txn_sessions.specs.declared.line.Opening.TheVariants as opening;
ghost use Rattle.txn_sessions.specs.declared.line.Stage.TheVariants as stage;
ghost use Rattle.txn_sessions.specs.Answers.{WasBegun, WasDefs};
ghost use Rattle.txn_sessions.specs.Fits.{may_open};
ghost use Rattle.txn_sessions.specs.Left.{frame_in, opens, with_copy, lacking, follows};
ghost use Rattle.txn_sessions.specs.Within.{StandsWithin, IsWithin};
ghost use Rattle.txn_sessions.specs.Sessions.{stands, Comes};

use crate::line::{Opening, Stage, one};
use crate::session::Session;
use crate::starting::{First, begin};
use engine_refusals::{is_stop, told_plainly};
use iv_types::{Catalog, EngineRefusal, Mode, Refusal, Reply, Statement};
use txn_book::Act;

// What a BEGIN is answered in a transaction that began at this number.
fn begin_reply(mode: Mode, number: u64) -> Reply
    ensures { result ≡ begin_reply mode number }
{
    match mode {
        Mode::Serial => Reply::Done(0),
        Mode::Snapshot => Reply::Snapshot(number),
    }
}

impl Session {
    // BEGIN has ended.
    fn begin(&mut self, mode: Mode, number: u64)
        ensures comes { Comes self.new (opens self.old.standing.mode (stands self.old) (opening.Begin mode) number) }
        ensures number { self.new.number ≡ self.old.number }
        ensures within { (n : ℕ) → IsWithin n self.new }
    {
        self.standing.enter(mode);
        self.tell(one(self.alloc, begin_reply(mode, number)));
    }

    // A statement that is a transaction of its own begins on the copy of the definitions.
    fn begin_alone(&mut self, statement: Statement)
        requires room { self.old.standing.kept < 2 ^ 64 }
        requires work { is_work (statement_tree statement) ≡ true }
        ensures comes { (number : ℕ) → (memory : Bool) × Comes self.new (with_memory memory (opens self.old.standing.mode (stands self.old) (opening.Alone statement) number) (lacking self.old.standing.mode (stands self.old))) }
        ensures number { self.new.number ≡ self.old.number }
        ensures within { (n : ℕ) → StandsWithin n self.old.standing → IsWithin n self.new }
    {
        match begin(self.alloc, &self.standing.catalog, statement, Mode::Serial) {
            Ok(First { task, turn }) => self.take(task, turn, 0),
            Err(why) => self.back(0, why),
        }
    }

    // It begins on other definitions, of which the session keeps the copy unless there is no memory to begin.
    fn begin_on(&mut self, statement: Statement, catalog: Catalog)
        requires room { self.old.standing.kept < 2 ^ 64 }
        requires work { is_work (statement_tree statement) ≡ true }
        ensures comes { (number : ℕ) → (memory : Bool) × Comes self.new (with_memory memory (opens self.old.standing.mode (with_copy (stands self.old) (schema_of catalog)) (opening.Alone statement) number) (lacking self.old.standing.mode (stands self.old))) }
        ensures number { self.new.number ≡ self.old.number }
        ensures within { (n : ℕ) → StandsWithin n self.old.standing → IsWithin n self.new }
    {
        match begin(self.alloc, &catalog, statement, Mode::Serial) {
            Ok(First { task, turn }) => {
                self.standing.learn(catalog);
                self.take(task, turn, 0);
            }
            Err(Refusal::NoMemory) => {
                catalog.let_go();
                self.back(0, Refusal::NoMemory);
            }
            Err(why) => {
                self.standing.learn(catalog);
                self.back(0, why);
            }
        }
    }

    /// The transaction is open.
    pub fn opened(&mut self, opening: Opening, begun: Result<(u64, u32), EngineRefusal>)
        requires room { self.old.standing.kept < 2 ^ 64 }
        requires opening { may_open opening ≡ true }
        ensures comes { (said : AnyAnswer) → WasBegun begun said → (memory : Bool) × Comes self.new (follows self.old.standing.mode (stands self.old) (stage.Opening opening) said memory) }
        ensures number { self.new.number ≡ self.old.number }
        ensures within { (n : ℕ) → StandsWithin n self.old.standing → IsWithin n self.new }
    {
        match begun {
            Ok((number, defs)) => {
                if defs as usize != self.standing.catalog.len() {
                    return self.ask(Act::Defs, Stage::Learning { opening, number });
                }
                match opening {
                    Opening::Begin(mode) => self.begin(mode, number),
                    Opening::Alone(statement) => self.begin_alone(statement),
                }
            }
            Err(why) => {
                opening.let_go();
                self.fail(why);
            }
        }
    }

    /// The definitions are told.
    pub fn learned(&mut self, opening: Opening, number: u64, defs: Result<Catalog, EngineRefusal>)
        requires room { self.old.standing.kept < 2 ^ 64 }
        requires opening { may_open opening ≡ true }
        ensures comes { (said : AnyAnswer) → WasDefs defs said → (memory : Bool) × Comes self.new (follows self.old.standing.mode (stands self.old) (stage.Learning opening number) said memory) }
        ensures number { self.new.number ≡ self.old.number }
        ensures within { (n : ℕ) → StandsWithin n self.old.standing → IsWithin n self.new }
    {
        match defs {
            Ok(catalog) => match opening {
                Opening::Begin(mode) => {
                    self.standing.learn(catalog);
                    self.begin(mode, number);
                }
                Opening::Alone(statement) => self.begin_on(statement, catalog),
            },
            Err(why) => {
                opening.let_go();
                if is_stop(why) {
                    return self.fail(why);
                }
                self.back(0, told_plainly(self.alloc, why));
            }
        }
    }
}
