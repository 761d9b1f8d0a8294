//! Ghost.
ghost use Rattle.std.specs.Prelude.{◌≡◌, ◌≢◌, ◌∷◌, [], ℕ, List, reverse, is_some, IfOk, OnErr};
ghost use Rattle.std.specs.FinMap.{get};
ghost use Rattle.iv_types.specs.declared.lock.GroupDelta.{GroupDelta as Delta};
ghost use Rattle.txn_machine.specs.Acts as act;
ghost use Rattle.txn_machine.specs.Deltas.{place_of};
ghost use Rattle.txn_machine.specs.May.{MayAct};
ghost use Rattle.txn_machine.specs.State.{State};
ghost use Rattle.txn_book.specs.Acts.{answer_of};
ghost use Rattle.core_journal.specs.Records.{Records, records_after};
ghost use Rattle.core_state.specs.Stands.{Began, Told};
ghost use Rattle.core_recording.specs.Giving.{CanGive, Gives, IsUngiven};
ghost use Rattle.core_recording.specs.Kept.{is_made};

use crate::append::give;
use core_effects::has_row;
use core_journal::Journal;
use core_pays as pays;
use core_state::CoreState;
use iv_types::{GroupDelta, NoMemory, SortedMaps};
use record_lending::{ghost_of, short_law};
use txn_book::{Answer, Open};

// The delta that a transaction owes next.
fn next_owed(txn: &Open) -> &GroupDelta
    requires { txn.now.owed.items ≢ [] }
    ensures { (d : Delta) (ds : List Delta) → reverse txn.now.owed.items ≡ d ∷ ds → result.now ≡ d }
{
    match txn.owed.last() {
        Some(delta) => delta,
        None => unreachable!(),
    }
}

// Whether a Ghost that was answered so has made its row, which was there or not.
fn has_made(was_there: bool, said: &Answer) -> bool
    ensures { result ≡ is_made was_there (answer_of said.now) }
{
    !was_there && matches!(said, Answer::Ghosted)
}

// Gives the record of the row that a Ghost has made, where it has, under this number.
#[tactic(none)]
fn give_made<M: SortedMaps, J: Journal>(
    core: &CoreState<M>,
    journal: &mut J,
    session: u32,
    number: u64,
    was_there: bool,
    said: &Answer,
)
    requires { (u : IsUngiven M.maps M.spare M.limit J.has J.limit core.now journal.old session act.Ghost (answer_of said.now)) × (number ≡ u.state.log.next) × (was_there ≡ is_some (get u.state.store.view (place_of u.may.0.first))) }
    ensures gave { (s : State) (may : MayAct s.store session act.Ghost) → number ≡ s.log.next → was_there ≡ is_some (get s.store.view (place_of may.0.first)) → (told : Told M.maps M.spare M.limit s session act.Ghost (answer_of said.now) core.now) → (rs : Records) → J.has journal.old rs
        → J.has journal.new (records_after s session act.Ghost (answer_of said.now) told.effects rs) }
    ensures limit { J.limit journal.new ≡ J.limit journal.old }
    ensures medium { J.medium journal.new ≡ J.medium journal.old }
{
    short_law();
    let made = has_made(was_there, said);
    if !made {
        return;
    }
    let txn = core.open_of(session);
    give(journal, number, ghost_of(next_owed(txn)));
}

/// Makes the row of the first delta that a session owes, a row of zeros, where it is absent, and gives the record of that to the journal.
///
/// # Errors
///
/// Where there is no memory for it. Nothing is changed then but room.
#[tactic(none)]
pub fn make_ghost<M: SortedMaps, J: Journal>(
    core: &mut CoreState<M>,
    journal: &mut J,
    session: u32,
) -> Result<Answer, NoMemory>
    requires { CanGive M.maps M.spare M.limit J.has J.limit core.old journal.old session act.Ghost }
    ensures gives { IfOk result (λ said. Gives M.maps M.spare M.limit J.has J.limit J.medium J.leaves core.old journal.old session act.Ghost (answer_of said) core.new journal.new) }
    ensures err { OnErr result ((s : State) → Began M.maps M.spare M.limit core.old s session → MayAct s.store session act.Ghost → Began M.maps M.spare M.limit core.new s session) }
    ensures ungiven { OnErr result (journal.new ≡ journal.old) }
    ensures medium { J.medium journal.new ≡ J.medium journal.old }
{
    let number = core.next;
    let was_there = has_row(core, session);
    let said = pays::make_ghost(core, session)?;
    give_made(core, journal, session, number, was_there, &said);
    Ok(said)
}
