//! End and Commit.
ghost use Rattle.std.specs.Prelude.{◌≡◌, ◌≢◌, ℕ, [], IsSome};
ghost use Rattle.iv_types.specs.declared.statement.Mode.TheVariants.{Serial};
ghost use Rattle.table_laws.specs.Place.{Place};
ghost use Rattle.ghost_rows.specs.Rows.{row_at, settled_at};
ghost use Rattle.ghost_rows.specs.State.{room_of};
ghost use Rattle.iv_meaning.specs.Escrow.{IsSession};
ghost use Rattle.lock_manager.specs.Table.{IsReleased};
ghost use Rattle.txn_machine.specs.Acts as act;
ghost use Rattle.txn_machine.specs.Acts.{Act};
ghost use Rattle.txn_machine.specs.Ghosts.{the_views};
ghost use Rattle.txn_machine.specs.Log.{Log, logs};
ghost use Rattle.txn_machine.specs.May.{IsOpen, IsReady, MayAct};
ghost use Rattle.txn_machine.specs.Store.{Store, changes_by, does, now, Ends};
ghost use Rattle.txn_machine.specs.Steps.{number_unchanged};
ghost use Rattle.txn_machine.specs.State.{State};
ghost use Rattle.txn_book.specs.Acts.{answer_of};
ghost use Rattle.txn_book.specs.Opens.{open_at};
ghost use Rattle.data_store.specs.Contents.{Contents};
ghost use Rattle.data_store.specs.Held.{IsHeld};
ghost use Rattle.data_changes.specs.Effects.{keeping};
ghost use Rattle.log_room.specs.Rooms.{IsRoomOf};
ghost use Rattle.core_state.specs.Stands.{Began, Told};
ghost use Rattle.core_ends.specs.Ends.{EndsAs, IsEmpty, Left};

use crate::entering::enter_it;
use core_state::CoreState;
use data_changes::settle;
use iv_types::{Mode, SortedMaps};
use log_room::{LogRoom, same_room_law};
use txn_book::Answer;

/// What a transaction held goes: its locks, and what was made for its pays.
pub(crate) fn let_go<M: SortedMaps>(core: &mut CoreState<M>, session: u32)
    requires { IsSession session }
    ensures store { (c : Contents) → IsHeld core.old.store.catalog (M.maps core.old.store.tables) core.old.store.views c → IsHeld core.new.store.catalog (M.maps core.new.store.tables) core.new.store.views (keeping c session []) }
    ensures rows { (q : Place) → row_at core.new.store.views.rows q ≡ settled_at session (row_at core.old.store.views.rows q) }
    ensures rooms { (other : ℕ) → other ≢ session → room_of core.new.store.views other ≡ room_of core.old.store.views other }
    ensures locks { IsReleased core.old.locks core.new.locks session }
    ensures rest { core.new ≡ record core.old { store = record core.old.store { views = core.new.store.views }; locks = core.new.locks } }
{
    core.locks.release_all(session);
    settle(&mut core.store, session);
}

// Ends a transaction that keeps no change, without an entry.
fn end_it<M: SortedMaps>(core: &mut CoreState<M>, session: u32)
    requires { (s : State) × Began M.maps M.spare M.limit core.old s session × IsOpen s.store session }
    ensures { (s : State) → Began M.maps M.spare M.limit core.old s session → IsOpen s.store session → changes_by s.store session ≡ [] → Left M.maps M.spare M.limit s session Ends core.old core.new }
{
    core.book.book_law();
    let wrote = core.open_of(session).has_written;
    core.book.end(session);
    core.ahead.clear(session);
    let_go(core, session);
    if wrote {
        core.next += 1;
    }
}

// A transaction of this mode ends without an entry: nothing is reserved for it in the log any more, and an Abort is used where it
// has appended a record.
fn free_end(log: &mut LogRoom, mode: Mode, wrote: bool)
    ensures limit { log.new.limit ≡ log.old.limit }
    ensures room { (s : Store) (l : Log) (session : ℕ) (a : Act) → EndsAs s l session mode wrote → IsRoomOf log.old s l → IsRoomOf log.new (does the_views s session Ends) (logs s session a Ends l) }
{
    match mode {
        Mode::Serial => log.end(wrote),
        Mode::Snapshot => same_room_law(),
    }
}

/// Ends a transaction that keeps no change, without an entry. Nothing is kept for it then. Takes no memory.
pub fn end<M: SortedMaps>(core: &mut CoreState<M>, session: u32) -> Answer
    requires { (s : State) × Began M.maps M.spare M.limit core.old s session × MayAct s.store session act.End }
    ensures { (s : State) → Began M.maps M.spare M.limit core.old s session → MayAct s.store session act.End → Told M.maps M.spare M.limit s session act.End (answer_of result) core.new }
{
    let txn = core.open_of(session);
    let (mode, wrote) = (txn.mode, txn.has_written);
    end_it(core, session);
    core.data_room.settle(session);
    free_end(&mut core.log_room, mode, wrote);
    Answer::Ended
}

// The number that a commit of no change answers: the greatest, or a snapshot's own.
fn own_number<M: SortedMaps>(core: &CoreState<M>, session: u32) -> u64
    requires { IsSome (open_at core.now.book.opens session) }
    ensures { (s : State) → Began M.maps M.spare M.limit core.now s session → IsOpen s.store session → result ≡ number_unchanged s.store (now s.store session) }
{
    let txn = core.open_of(session);
    match txn.mode {
        Mode::Serial => core.book.number(),
        Mode::Snapshot => txn.number,
    }
}

// Commits a transaction that keeps changes.
fn commit_changes<M: SortedMaps>(core: &mut CoreState<M>, session: u32) -> Answer
    requires { (s : State) × Began M.maps M.spare M.limit core.old s session × IsReady s.store session Serial × (changes_by s.store session ≢ []) }
    ensures { (s : State) → Began M.maps M.spare M.limit core.old s session → IsReady s.store session Serial → changes_by s.store session ≢ [] → Told M.maps M.spare M.limit s session act.Commit (answer_of result) core.new }
{
    let kept = core.open_of(session).kept.len() as u64;
    let number = enter_it(core, session);
    core.data_room.settle(session);
    core.log_room.commit(kept);
    Answer::Committed(number)
}

// Commits a transaction that keeps none.
fn commit_none<M: SortedMaps>(core: &mut CoreState<M>, session: u32) -> Answer
    requires { (s : State) × Began M.maps M.spare M.limit core.old s session × IsEmpty s.store session }
    ensures { (s : State) → Began M.maps M.spare M.limit core.old s session → IsEmpty s.store session → Told M.maps M.spare M.limit s session act.Commit (answer_of result) core.new }
{
    let number = own_number(core, session);
    let txn = core.open_of(session);
    let (mode, wrote) = (txn.mode, txn.has_written);
    end_it(core, session);
    core.data_room.settle(session);
    free_end(&mut core.log_room, mode, wrote);
    Answer::Committed(number)
}

/// Commits a transaction that owes nothing: its changes are an entry of the next number, where it keeps some, and leave the versions
/// that were made ahead. Takes no memory.
pub fn commit<M: SortedMaps>(core: &mut CoreState<M>, session: u32) -> Answer
    requires { (s : State) × Began M.maps M.spare M.limit core.old s session × MayAct s.store session act.Commit }
    ensures { (s : State) → Began M.maps M.spare M.limit core.old s session → MayAct s.store session act.Commit → Told M.maps M.spare M.limit s session act.Commit (answer_of result) core.new }
{
    core.book.book_law();
    if core.open_of(session).puts > 0 {
        return commit_changes(core, session);
    }
    commit_none(core, session)
}
