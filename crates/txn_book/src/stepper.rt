//! Engines that do steps.
ghost use Rattle.std.specs.Prelude.{◌≡◌, ◌≤◌, ◌<◌, ◌^◌, ℕ, None};
ghost use Rattle.std.specs.Option.{option_map};
ghost use Rattle.iv_meaning.specs.Database.{Database};
ghost use Rattle.iv_meaning.specs.Escrow.{IsSession};
ghost use Rattle.txn_machine.specs.Store.{committed};
ghost use Rattle.txn_machine.specs.State.{State};
ghost use Rattle.txn_machine.specs.Laws.{IsReached};
ghost use Rattle.txn_book.specs.Acts.{last_refusal};
ghost use Rattle.txn_book.specs.Moves.{IsAsked, IsAskable, Moves, CountsFault, kept_count};
ghost use Rattle.txn_book.specs.Crashes.{MayCommit, Elapses, IsWhole, IsPrefix};

use crate::step::{Answer, LastRefusal, Step};

/// An engine that does steps, one at a time. What a crash recovers is told or untold, by the engine's type.
pub trait Stepper {
    /// Holds where the engine tells what a crash recovers.
    ghost is_told: { Type 0 };

    /// Which states the engine is in, by the step relation of many open transactions.
    ghost stands: { Self → State → Type 0 };

    /// How often the engine's disk has failed. The count stands still at the end of a `u64`.
    ghost faults: { Self → ℕ };

    /// The databases that a crash at this moment may recover. An engine that does not tell them has none here.
    ghost may_recover: { Self → Database → Type 0 };

    /// The moment, as a number that does not fall.
    ghost moment: { Self → ℕ };

    /// What a crash at some moment from that one on might have recovered, during a step or between two.
    ghost recovered_since: { Self → ℕ → Database → Type 0 };

    /// Does a step that may be asked for. Steps are counted from 1; a step that is answered `Stopped` is not counted.
    fn step(&mut self, step: &Step) -> Answer
        requires { IsAskable (stands self.old) step.now }
        ensures moves { (s : State) → stands self.old s → IsAsked s step.now → Moves (stands self.new) (may_recover self.new) s step.now result }
        ensures cause { CountsFault result (faults self.old) (faults self.new) }
        ensures time { is_told → (s : State) → stands self.old s → IsAsked s step.now → Elapses (MayCommit s step.now result) (moment self.old) (moment self.new) (recovered_since self.old) (recovered_since self.new) };

    /// How many steps were done.
    fn steps_done(&self) -> u64
        ensures { (s : State) → stands self.now s → result ≡ s.steps };

    /// The session's last step that the engine refused, if there is one.
    fn refused(&self, session: u32) -> Option<LastRefusal>
        ensures { (s : State) → stands self.now s → option_map last_refusal result ≡ (s.seat_of session).refused };

    /// The greatest commit number.
    fn number(&self) -> u64
        ensures { (s : State) → stands self.now s → result ≡ (committed s.store).number };

    /// How many steps the session's open transaction keeps, if one is open.
    fn kept_steps(&self, session: u32) -> Option<u64>
        requires { IsSession session }
        ensures { (s : State) → stands self.now s → result ≡ option_map kept_count (s.store.open_of session) };

    /// Steps lead to each state in which it stands.
    ghost is_reached: { (engine : Self) (s : State) → stands engine s → IsReached s };

    /// While it is not stopped, its disk has failed no more than when it was opened.
    ghost runs_well: { (engine : Self) (s : State) → stands engine s → s.stop ≡ None → faults engine ≡ s.opening.faults };

    /// A crash recovers all that is committed, and nothing more unless it is stopped.
    ghost keeps_all: { (engine : Self) (s : State) (db : Database) → stands engine s → may_recover engine db → IsWhole s db };

    /// This moment is one of those since an earlier one.
    ghost counts_now: { (engine : Self) (t : ℕ) (db : Database) → t ≤ moment engine → may_recover engine db → recovered_since engine t db };

    /// Since this moment there is no other.
    ghost only_now: { (engine : Self) (db : Database) → recovered_since engine (moment engine) db → may_recover engine db };

    /// What a crash might have recovered since a moment, it might have since any earlier one.
    ghost longer: { (engine : Self) (t u : ℕ) (db : Database) → t ≤ u → recovered_since engine u db → recovered_since engine t db };

    /// Where it tells what a crash recovers, this moment is none before that of its opening.
    ghost opened_before: { is_told → (engine : Self) (s : State) → stands engine s → s.opening.moment ≤ moment engine };

    /// And what a crash might have recovered at any moment since then is a prefix of what was committed.
    ghost recovers_prefix: { is_told → (engine : Self) (s : State) (db : Database) → stands engine s → recovered_since engine s.opening.moment db → IsPrefix s db };

    /// The count of faults is a `u64`; with `cause` it never falls.
    ghost counts_in: { (engine : Self) → faults engine < 2 ^ 64 };
}

/// Does a step that is asked for once, and lets it go.
pub fn do_step<S: Stepper>(engine: &mut S, step: Step) -> Answer
    requires { IsAskable (S.stands engine.old) step }
    ensures moves { (s : State) → S.stands engine.old s → IsAsked s step → Moves (S.stands engine.new) (S.may_recover engine.new) s step result }
    ensures cause { CountsFault result (S.faults engine.old) (S.faults engine.new) }
    ensures time { S.is_told → (s : State) → S.stands engine.old s → IsAsked s step → Elapses (MayCommit s step result) (S.moment engine.old) (S.moment engine.new) (S.recovered_since engine.old) (S.recovered_since engine.new) }
{
    let answer = engine.step(&step);
    step.let_go();
    answer
}
