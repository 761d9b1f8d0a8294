//! What a session reserves in the log, for what it pays and takes back.
ghost use Rattle.std.specs.Prelude.{◌≡◌, ◌≢◌, ◌∷◌, [], ℕ, List, drop, reverse};
ghost use Rattle.iv_types.specs.declared.lock.GroupDelta.{GroupDelta as Delta};
ghost use Rattle.txn_machine.specs.Acts as act;
ghost use Rattle.txn_machine.specs.Acts.{Act};
ghost use Rattle.txn_machine.specs.Counts.{told_need};
ghost use Rattle.txn_machine.specs.Ghosts.{the_views};
ghost use Rattle.txn_machine.specs.Log as log;
ghost use Rattle.txn_machine.specs.Log.{Log, logs};
ghost use Rattle.txn_machine.specs.May.{MayAct};
ghost use Rattle.txn_machine.specs.Records as machine;
ghost use Rattle.txn_machine.specs.State.{State};
ghost use Rattle.txn_machine.specs.Store.{Store, Undoes, does};
ghost use Rattle.log_room.specs.Rooms.{IsRoomOf, ghost_left};
ghost use Rattle.core_state.specs.Stands.{Began, Holds, Texts};
ghost use Rattle.core_effects.specs.Owing.{OwesFirst};
ghost use Rattle.core_pays.specs.Keeping.{IsOwedOfLatest};

use crate::keeping::latest_change;
use core_state::CoreState;
use iv_types::SortedMaps;
use log_room::LogRoom;
use record_lending::{delta_bytes, ghost_bytes, owed_bytes};
use txn_book::Open;

// What the record of the next delta that a transaction owes takes.
fn next_record(txn: &Open) -> u64
    requires { txn.now.owed.items ≢ [] }
    ensures { (d : Delta) (ds : List Delta) → reverse txn.now.owed.items ≡ d ∷ ds → result ≡ told_need (machine.delta_bytes d) }
{
    match txn.owed.last() {
        Some(delta) => delta_bytes(delta),
        None => unreachable!(),
    }
}

// What it reserves for the Ghost of that delta's row, which is nothing where it had that.
fn next_ghost(txn: &Open) -> u64
    requires { txn.now.owed.items ≢ [] }
    ensures { (d : Delta) (ds : List Delta) → reverse txn.now.owed.items ≡ d ∷ ds → result ≡ told_need (ghost_left txn.now.is_ghosted d) }
{
    if txn.is_ghosted {
        return 0;
    }
    match txn.owed.last() {
        Some(delta) => ghost_bytes(delta),
        None => unreachable!(),
    }
}

/// What the record of the first delta that a session owes takes.
pub(crate) fn record_of_first<M: SortedMaps>(core: &CoreState<M>, session: u32) -> u64
    requires { (s : Store) × (l : Log) × (texts : Texts) × Holds M.maps M.spare M.limit core.now s l texts × OwesFirst s session }
    ensures { (s : Store) (l : Log) (texts : Texts) (o : OwesFirst s session) → Holds M.maps M.spare M.limit core.now s l texts → result ≡ told_need (machine.delta_bytes o.first) }
{
    next_record(core.open_of(session))
}

/// What a session reserves for the Ghost of the first delta that it owes, unless that had it.
pub(crate) fn ghost_of_first<M: SortedMaps>(core: &CoreState<M>, session: u32) -> u64
    requires { (s : Store) × (l : Log) × (texts : Texts) × Holds M.maps M.spare M.limit core.now s l texts × OwesFirst s session }
    ensures { (s : Store) (l : Log) (texts : Texts) (o : OwesFirst s session) → Holds M.maps M.spare M.limit core.now s l texts → result ≡ told_need (ghost_left (l.logged session).ghosted o.first) }
{
    next_ghost(core.open_of(session))
}

// What a transaction reserves for the deltas that it still owes: all that are not coming back.
fn owed_records(txn: &Open) -> u64
    ensures { result ≡ told_need (log.owed_bytes txn.now.is_ghosted (drop txn.now.back (reverse txn.now.owed.items))) }
{
    let left = txn.owed.len().saturating_sub(txn.back);
    owed_bytes(&txn.owed[..left], txn.is_ghosted)
}

/// What a session reserves for what the latest step of its transaction still owes, unless that step is a pay.
pub(crate) fn owed_of_latest<M: SortedMaps>(core: &CoreState<M>, session: u32) -> Option<u64>
    requires { (s : State) × Began M.maps M.spare M.limit core.now s session × MayAct s.store session act.UndoOne }
    ensures { (s : State) → Began M.maps M.spare M.limit core.now s session → MayAct s.store session act.UndoOne → IsOwedOfLatest s.store s.log session result }
{
    let txn = core.open_of(session);
    match latest_change(txn) {
        Some(_kept) => Some(owed_records(txn)),
        None => None,
    }
}

/// The latest step is taken back, for which so much is reserved that it still owed, or which was a pay.
pub(crate) fn undo_in(room: &mut LogRoom, owed: Option<u64>)
    ensures limit { room.new.limit ≡ room.old.limit }
    ensures undone { (s : Store) (l : Log) (session : ℕ) (a : Act) → IsOwedOfLatest s l session owed → IsRoomOf room.old s l → IsRoomOf room.new (does the_views s session Undoes) (logs s session a Undoes l) }
{
    match owed {
        Some(bytes) => room.undo_put(bytes),
        None => room.undo_pay(),
    }
}
