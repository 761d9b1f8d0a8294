//! The lock of a Pay.
ghost use Rattle.std.specs.Prelude.{◌≡◌, ◌∷◌, [], ◌↔◌, IsTrue, IfErr, OnOk};
ghost use Rattle.std.specs.List.{Contains};
ghost use Rattle.std.specs.Option.{option_copied};
ghost use Rattle.lock_manager.specs.Table as table;
ghost use Rattle.lock_desk.specs.Asking.{HasToWait, IsAsked};
ghost use Rattle.txn_machine.specs.Acts as act;
ghost use Rattle.txn_machine.specs.May.{Owes};
ghost use Rattle.txn_machine.specs.State.{State};
ghost use Rattle.txn_machine.specs.Steps.{IsFree, group_want};
ghost use Rattle.txn_machine.specs.Store.{locks_of};
ghost use Rattle.txn_book.specs.Acts.{answer_of};
ghost use Rattle.core_state.specs.Stands.{Began, Told};
ghost use Rattle.core_locks.specs.Asks.{others_wait};
ghost use Rattle.core_pays.specs.Holding.{IsNextWant, IsHolding};

use core_locks::lose;
use core_state::CoreState;
use iv_types::{Sessions, SortedMaps, Want};
use lock_desk::{Asked, ask};
use txn_book::Answer;

// The want of the first owed delta, unless its lock is held.
fn next_want<M: SortedMaps>(core: &CoreState<M>, session: u32) -> Option<&Want>
    requires { (s : State) × Began M.maps M.spare M.limit core.now s session × Owes s.store session }
    ensures { (s : State) (o : Owes s.store session) → Began M.maps M.spare M.limit core.now s session → IsNextWant (table.locks_of core.now.locks session) o.first (option_copied result) }
{
    match core.wants.next(session) {
        Some(wants) => wants.as_slice().first(),
        None => None,
    }
}

// Whether the lock of the first owed delta is held.
fn is_held<M: SortedMaps>(core: &CoreState<M>, session: u32) -> bool
    requires { (s : State) × Began M.maps M.spare M.limit core.now s session × Owes s.store session }
    ensures { (s : State) (o : Owes s.store session) → Began M.maps M.spare M.limit core.now s session → IsTrue result ↔ Contains (table.locks_of core.now.locks session) (group_want o.first) }
{
    match next_want(core, session) {
        Some(want) => core.locks.holds_want(session, want),
        None => true,
    }
}

// What becomes of its request, where it is not held.
fn ask_first<M: SortedMaps>(core: &CoreState<M>, session: u32) -> Asked
    requires { (s : State) × (o : Owes s.store session) × Began M.maps M.spare M.limit core.now s session × (Contains (table.locks_of core.now.locks session) (group_want o.first) → ⊥) }
    ensures { (s : State) (o : Owes s.store session) → Began M.maps M.spare M.limit core.now s session → (Contains (table.locks_of core.now.locks session) (group_want o.first) → ⊥) → IsAsked result (locks_of s.store) (others_wait s.waiting session) session (group_want o.first ∷ []) }
{
    match core.wants.next(session) {
        Some(wants) => ask(&core.locks, session, wants),
        None => unreachable!(),
    }
}

// The session waits for these, who are in the way.
fn wait_first<M: SortedMaps>(core: &mut CoreState<M>, session: u32, sessions: Sessions) -> Answer
    requires { (s : State) × (o : Owes s.store session) × Began M.maps M.spare M.limit core.old s session × (Contains (table.locks_of core.old.locks session) (group_want o.first) → ⊥) }
    ensures { (s : State) (o : Owes s.store session) → Began M.maps M.spare M.limit core.old s session → HasToWait (locks_of s.store) (others_wait s.waiting session) session (group_want o.first ∷ []) sessions
        → (Contains (table.locks_of core.old.locks session) (group_want o.first) → ⊥) → Told M.maps M.spare M.limit s session act.Pay (answer_of result) core.new }
{
    let wants = core.wants.take(session);
    core.locks.wait(session, wants);
    Answer::Blocked(sessions)
}

// The session takes it.
fn take_first<M: SortedMaps>(core: &mut CoreState<M>, session: u32)
    requires { (s : State) × (o : Owes s.store session) × Began M.maps M.spare M.limit core.old s session × (Contains (table.locks_of core.old.locks session) (group_want o.first) → ⊥)
        × IsFree s.store session (group_want o.first ∷ []) }
    ensures { (s : State) (o : Owes s.store session) → Began M.maps M.spare M.limit core.old s session → (Contains (table.locks_of core.old.locks session) (group_want o.first) → ⊥) → IsFree s.store session (group_want o.first ∷ [])
        → IsHolding M.maps M.spare M.limit s session core.new }
{
    let wants = core.wants.take(session);
    core.locks.grant(session, wants);
}

/// The session has the lock of the first delta that it owes. Else `Err` is the answer of its Pay: it has to wait, or a deadlock
/// meets its transaction. Takes no memory.
pub fn hold_first<M: SortedMaps>(core: &mut CoreState<M>, session: u32) -> Result<(), Answer>
    requires { (s : State) × Began M.maps M.spare M.limit core.old s session × Owes s.store session }
    ensures holds { OnOk result ((s : State) → Began M.maps M.spare M.limit core.old s session → Owes s.store session → IsHolding M.maps M.spare M.limit s session core.new) }
    ensures told { IfErr result (λ said. (s : State) → Began M.maps M.spare M.limit core.old s session → Owes s.store session → Told M.maps M.spare M.limit s session act.Pay (answer_of said) core.new) }
{
    if is_held(core, session) {
        return Ok(());
    }
    match ask_first(core, session) {
        Asked::Free => {
            take_first(core, session);
            Ok(())
        }
        Asked::Blocked(sessions) => Err(wait_first(core, session, sessions)),
        Asked::Deadlock(cycle) => Err(lose(core, session, cycle)),
    }
}
