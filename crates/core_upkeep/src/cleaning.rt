//! Clean.
ghost use Rattle.std.specs.Prelude.{◌≡◌, ◌↔◌, ◌≤◌, None, true, [], ◌∷◌, IsTrue, IsSome, IfSome, IfErr, OnOk, length, take};
ghost use Rattle.iv_types.specs.declared.limit.TheConstants.{MOST_KEY_WIDTH};
ghost use Rattle.table_laws.specs.Place.{Place};
ghost use Rattle.txn_machine.specs.Acts as act;
ghost use Rattle.txn_machine.specs.Answers.{Cleaned, Refused};
ghost use Rattle.txn_machine.specs.Ghosts.{the_views, IsCleanable, IsFirstCleanable};
ghost use Rattle.txn_machine.specs.Log.{logs};
ghost use Rattle.txn_machine.specs.State.{State};
ghost use Rattle.txn_machine.specs.Store.{Cleans, does};
ghost use Rattle.txn_book.specs.Acts.{answer_of};
ghost use Rattle.data_store.specs.ViewPast.{view_of};
ghost use Rattle.core_state.specs.Stands.{Began, Holds, Told, its_texts};
ghost use Rattle.core_recording.specs.Giving.{CanGive, Gave, Gives};
ghost use Rattle.core_upkeep.specs.Cleaning.{IsUnlocked};

use core_journal::Journal;
use core_recording::give;
use core_state::CoreState;
use data_changes::remove_ghost;
use iv_types::{Catalog, Definition, EngineRefusal, LockMode, MOST_KEY_WIDTH, SortedMaps};
use lock_manager::LockTable;
use record_lending::{clean_of, group_bytes, short_law};
use txn_book::Answer;

// Whether no session holds an Increment lock on the row of a place.
fn is_unlocked(locks: &LockTable, view: u32, group: &[u8]) -> bool
    ensures { IsTrue result ↔ IsUnlocked locks.now (view, group.now) }
{
    for done in 0..64u32 {
        if locks.holds(done + 1, view, group, LockMode::Increment) {
            return false;
        }
    }
    true
}

// Whether a number is that of a view.
fn is_view(catalog: &Catalog, number: u32) -> bool
    ensures { IsTrue result ↔ IsSome (view_of catalog.now number) }
{
    match catalog.get(number) {
        Some(Definition::View(_)) => true,
        _ => false,
    }
}

// Whether the row at a place may be removed.
fn is_cleanable<M: SortedMaps>(core: &CoreState<M>, view: u32, group: &[u8]) -> bool
    requires { (s : State) × Began M.maps M.spare M.limit core.now s 0 }
    ensures { (s : State) → Began M.maps M.spare M.limit core.now s 0 → (result ≡ true) ↔ IsCleanable s.store (view, group.now) }
{
    if !is_view(&core.store.catalog, view) {
        return false;
    }
    let is_locked = !is_unlocked(&core.locks, view, group);
    let has_versions = !core.store.delta_versions.is_empty(view, group);
    core.store.views.cleanable(
        core.store.tables.maps(),
        view,
        group,
        is_locked,
        has_versions,
    )
}

// The first place whose row may be removed, if there is one. Only ghosts are looked at.
fn first_cleanable<M: SortedMaps>(core: &CoreState<M>) -> Option<(u32, &[u8])>
    requires { (s : State) × Began M.maps M.spare M.limit core.now s 0 }
    ensures some { IfSome result (λ place. (s : State) → Began M.maps M.spare M.limit core.now s 0 → IsFirstCleanable s.store (place.0, place.1.now)) }
    ensures none { result ≡ None → (s : State) → Began M.maps M.spare M.limit core.now s 0 → (place : Place) → IsCleanable s.store place → ⊥ }
{
    let mut next = core.store.views.first_candidate(0, &[]);
    while let Some((view, group)) = next {
        if is_cleanable(core, view, group) {
            return next;
        }
        next = core.store.views.next_candidate(view, group);
    }
    None
}

// Takes away the row of a place that may be removed.
fn remove<M: SortedMaps>(core: &mut CoreState<M>, view: u32, group: &[u8])
    requires { (s : State) × Began M.maps M.spare M.limit core.old s 0 × IsCleanable s.store (view, group.now) }
    ensures holds { (s : State) → Began M.maps M.spare M.limit core.old s 0 → IsCleanable s.store (view, group.now)
        → Holds M.maps M.spare M.limit core.new (does the_views s.store 0 (Cleans (view, group.now))) (logs s.store 0 act.Clean (Cleans (view, group.now)) s.log) (its_texts s) }
    ensures rest { core.new ≡ record core.old { store = core.new.store; next = core.new.next } }
{
    remove_ghost(&mut core.store, view, group);
    core.next += 1;
}

// Removes the row of the first place whose row may be removed, or tells why the log has no room for the record of it.
fn remove_first<M: SortedMaps>(
    core: &mut CoreState<M>,
    view: u32,
    group: &[u8],
) -> Result<(), EngineRefusal>
    requires { (s : State) × Began M.maps M.spare M.limit core.old s 0 × IsFirstCleanable s.store (view, group.now) }
    ensures ok { OnOk result ((s : State) → Began M.maps M.spare M.limit core.old s 0 → IsFirstCleanable s.store (view, group.now)
        → (told : Told M.maps M.spare M.limit s 0 act.Clean (Cleaned 1) core.new) × (told.effects ≡ Cleans (view, group.now) ∷ [])) }
    ensures err { IfErr result (λ why. (s : State) → Began M.maps M.spare M.limit core.old s 0 → IsFirstCleanable s.store (view, group.now) → Told M.maps M.spare M.limit s 0 act.Clean (Refused why) core.new) }
{
    let need = group_bytes(view, group);
    match core.log_room.refusal(need) {
        Some(why) => Err(why),
        None => {
            remove(core, view, group);
            core.log_room.clean(need);
            Ok(())
        }
    }
}

// Does so, and gives the record of it.
#[tactic(none)]
fn clean_at<M: SortedMaps, J: Journal>(
    core: &mut CoreState<M>,
    journal: &mut J,
    view: u32,
    group: &[u8],
) -> Answer
    requires { (q : CanGive M.maps M.spare M.limit J.has J.limit core.old journal.old 0 act.Clean) × IsFirstCleanable q.state.store (view, group.now) }
    ensures gives { (s : State) → Began M.maps M.spare M.limit core.old s 0 → IsFirstCleanable s.store (view, group.now)
        → Gave M.maps M.spare M.limit J.has J.limit J.medium J.leaves s 0 act.Clean (answer_of result) core.old journal.old core.new journal.new }
    ensures medium { J.medium journal.new ≡ J.medium journal.old }
{
    short_law();
    let number = core.next;
    match remove_first(core, view, group) {
        Ok(()) => {
            give(journal, number, clean_of(view, group));
            Answer::Cleaned(1)
        }
        Err(why) => Answer::Refused(why),
    }
}

// The bytes of a key at the front of as many as a key can have.
fn key_of(bytes: &[u8]) -> [u8; MOST_KEY_WIDTH as usize]
    requires { length bytes.now ≤ MOST_KEY_WIDTH }
    ensures { take (length bytes.now) result ≡ bytes.now }
{
    let mut key = [0u8; MOST_KEY_WIDTH as usize];
    key[..bytes.len()].copy_from_slice(bytes);
    key
}

/// Removes the first ghost, by its view's number and the bytes of its group, on which no pay is kept, which no session has locked and
/// of which no version is kept, if there is one, and gives the record of that to the journal. It is refused where the log has no room
/// for the record. Takes no memory.
pub fn clean<M: SortedMaps, J: Journal>(core: &mut CoreState<M>, journal: &mut J) -> Answer
    requires { CanGive M.maps M.spare M.limit J.has J.limit core.old journal.old 0 act.Clean }
    ensures gives { Gives M.maps M.spare M.limit J.has J.limit J.medium J.leaves core.old journal.old 0 act.Clean (answer_of result) core.new journal.new }
    ensures medium { J.medium journal.new ≡ J.medium journal.old }
{
    let (view, width, key) = match first_cleanable(core) {
        Some((view, group)) => (view, group.len(), key_of(group)),
        None => return Answer::Cleaned(0),
    };
    clean_at(core, journal, view, &key[..width])
}
