//! End and Commit.
ghost use Rattle.std.specs.Prelude.{◌≡◌, ◌≢◌, ◌⊎◌, ◌+◌, ℕ, true, false, []};
ghost use Rattle.iv_types.specs.Faults.{Rose};
ghost use Rattle.txn_machine.specs.Acts as act;
ghost use Rattle.txn_machine.specs.May.{MayAct};
ghost use Rattle.txn_machine.specs.State.{State, is_fault};
ghost use Rattle.txn_machine.specs.Store.{changes_by, committed};
ghost use Rattle.txn_book.specs.Acts.{answer_of};
ghost use Rattle.core_state.specs.Stands.{Began};
ghost use Rattle.core_recording.specs.Giving.{CanGive, Gave, GaveUp, Gives, MayGiveUp};

use crate::append::{give_abort, give_and_flush};
use core_ends as ends;
use core_journal::Journal;
use core_state::CoreState;
use iv_types::{EngineRefusal, SortedMaps};
use record_lending::commit_of;
use txn_book::Answer;

/// Ends a transaction that keeps no change, without an entry. Where it has written, an Abort is given to the journal. Takes no memory.
#[tactic(none)]
pub fn end<M: SortedMaps, J: Journal>(
    core: &mut CoreState<M>,
    journal: &mut J,
    session: u32,
) -> Answer
    requires { CanGive M.maps M.spare M.limit J.has J.limit core.old journal.old session act.End }
    ensures gives { Gives M.maps M.spare M.limit J.has J.limit J.medium J.leaves core.old journal.old session act.End (answer_of result) core.new journal.new }
    ensures medium { J.medium journal.new ≡ J.medium journal.old }
{
    let number = core.next;
    let txn = core.open_of(session);
    let transaction = txn.id;
    let wrote = txn.has_written;
    let said = ends::end(core, session);
    give_abort(journal, wrote, number, transaction);
    said
}

/// The number of the next commit.
#[tactic(none)]
pub fn next_commit<M: SortedMaps>(core: &CoreState<M>) -> u64
    requires { (s : State) × (session : ℕ) × Began M.maps M.spare M.limit core.now s session }
    ensures { (s : State) (session : ℕ) → Began M.maps M.spare M.limit core.now s session → result ≡ (committed s.store).number + 1 }
{
    core.book.book_law();
    let number = core.book.number();
    number + 1
}

// Commits a transaction that keeps changes: the record of that is on the disk before anything is changed.
#[tactic(none)]
fn commit_changes<M: SortedMaps, J: Journal>(
    core: &mut CoreState<M>,
    journal: &mut J,
    session: u32,
) -> Answer
    requires { (q : CanGive M.maps M.spare M.limit J.has J.limit core.old journal.old session act.Commit) × (changes_by q.state.store session ≢ []) }
    ensures gives { (s : State) → Began M.maps M.spare M.limit core.old s session → MayAct s.store session act.Commit → changes_by s.store session ≢ []
        → Gave M.maps M.spare M.limit J.has J.limit J.medium J.leaves s session act.Commit (answer_of result) core.old journal.old core.new journal.new ⊎ GaveUp M.maps M.spare M.limit J.has J.limit J.medium J.leaves s session act.Commit (answer_of result) core.old journal.old core.new journal.new }
    ensures faults { is_fault (answer_of result) ≡ false → J.faults (J.medium journal.new) ≡ J.faults (J.medium journal.old) }
    ensures rose { is_fault (answer_of result) ≡ true → Rose (J.faults (J.medium journal.old)) (J.faults (J.medium journal.new)) }
{
    let number = core.next;
    let txn = core.open_of(session);
    let transaction = txn.id;
    let commit = next_commit(core);
    match give_and_flush(journal, number, commit_of(transaction, commit, session)) {
        Ok(()) => ends::commit(core, session),
        Err(_fault) => Answer::Refused(EngineRefusal::DiskFault),
    }
}

// Commits a transaction that keeps none. Where it has written, an Abort is given.
#[tactic(none)]
fn commit_none<M: SortedMaps, J: Journal>(
    core: &mut CoreState<M>,
    journal: &mut J,
    session: u32,
) -> Answer
    requires { (q : CanGive M.maps M.spare M.limit J.has J.limit core.old journal.old session act.Commit) × (changes_by q.state.store session ≡ []) }
    ensures gives { (s : State) → Began M.maps M.spare M.limit core.old s session → MayAct s.store session act.Commit → changes_by s.store session ≡ []
        → Gave M.maps M.spare M.limit J.has J.limit J.medium J.leaves s session act.Commit (answer_of result) core.old journal.old core.new journal.new }
    ensures medium { J.medium journal.new ≡ J.medium journal.old }
    ensures fine { is_fault (answer_of result) ≡ false }
{
    let number = core.next;
    let txn = core.open_of(session);
    let transaction = txn.id;
    let wrote = txn.has_written;
    let said = ends::commit(core, session);
    give_abort(journal, wrote, number, transaction);
    said
}

/// Commits a transaction that owes nothing. Where it keeps changes, the record of that is given to the journal and flushed before
/// anything is changed; where the disk fails, the answer is that fault, and nothing else is done. Where it keeps none but has written,
/// an Abort is given. Takes no memory.
#[tactic(none)]
pub fn commit<M: SortedMaps, J: Journal>(
    core: &mut CoreState<M>,
    journal: &mut J,
    session: u32,
) -> Answer
    requires { CanGive M.maps M.spare M.limit J.has J.limit core.old journal.old session act.Commit }
    ensures gives { MayGiveUp M.maps M.spare M.limit J.has J.limit J.medium J.leaves core.old journal.old session act.Commit (answer_of result) core.new journal.new }
    ensures faults { is_fault (answer_of result) ≡ false → J.faults (J.medium journal.new) ≡ J.faults (J.medium journal.old) }
    ensures rose { is_fault (answer_of result) ≡ true → Rose (J.faults (J.medium journal.old)) (J.faults (J.medium journal.new)) }
{
    core.book.book_law();
    if core.open_of(session).puts > 0 {
        return commit_changes(core, journal, session);
    }
    commit_none(core, journal, session)
}
