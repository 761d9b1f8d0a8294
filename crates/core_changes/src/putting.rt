//! Put.
ghost use Rattle.std.specs.Prelude.{◌≡◌, ◌∷◌, [], ◌+◌, ◌-◌, ◌≤◌, ◌^◌, ℕ, List, map, min, ⊤, IfOk, IfSome, IfNone, OnErr};
ghost use Rattle.std.specs.FinMap.{get};
ghost use Rattle.std.specs.List.{sum};
ghost use Rattle.iv_types.specs.Maps.{IsWithin, used};
ghost use Rattle.iv_meaning.specs.Objects as defined;
ghost use Rattle.iv_meaning.specs.Sound.{IsTable};
ghost use Rattle.txn_machine.specs.Acts as act;
ghost use Rattle.txn_machine.specs.Counts.{put_size, kept_change_size};
ghost use Rattle.txn_machine.specs.Log.{Log, growth_back, delta_entry};
ghost use Rattle.txn_machine.specs.May.{MayAct};
ghost use Rattle.txn_machine.specs.RowChanges.{row_change};
ghost use Rattle.txn_machine.specs.State.{State};
ghost use Rattle.txn_machine.specs.Steps.{group_want};
ghost use Rattle.txn_machine.specs.Store.{Store, schema_of};
ghost use Rattle.txn_book.specs.Acts.{answer_of};
ghost use Rattle.txn_book.specs.Books.{IsOpenAnd, OfOpen, total_bytes};
ghost use Rattle.log_room.specs.Rooms.{IsRoomOf};
ghost use Rattle.core_state.specs.declared.limits.TheConstants.{MOST_OF_TRANSACTION, MOST_OF_HISTORY};
ghost use Rattle.core_state.specs.Stands.{Began, Holds, Told, Texts};
ghost use Rattle.view_delta.specs.Owing.{RowsFit};
ghost use Rattle.core_changes.specs.Putting.{IsFreePut, CanPut, LogFits, DataFits, IsFull};

use crate::ahead::reserve_ahead;
use crate::room::make_room;
use core_effects::{Writing, take, write};
use core_locks::ask_for;
use core_state::{CoreState, MOST_OF_HISTORY, MOST_OF_TRANSACTION, fits};
use data_past::{copied_deltas, ready_note, version_of};
use data_room::rows_room;
use iv_types::{
    Bytes, Change, DeltaList, EngineRefusal, GroupDelta, LockMode, NoMemory, Row, SortedMaps, Want,
    WantList, copied_perhaps,
};
use log_room::same_room_law;
use record_lending::{owed_bytes, write_bytes};
use row_codec::point;
use std::alloc::Global;
use txn_book::Answer;

// The change that a Put makes: of the row that is there.
fn change_of<M: SortedMaps>(
    core: &CoreState<M>,
    table: u32,
    key: &Bytes,
    new: &Option<Row>,
) -> Result<Change, NoMemory>
    requires { (s : Store) × (l : Log) × (texts : Texts) × Holds M.maps M.spare M.limit core.now s l texts × IsTable (schema_of s) table }
    ensures place { IfOk result (λ change. (change.table ≡ table) × (change.key ≡ key.now) × (change.after ≡ new.now)) }
    ensures before { IfOk result (λ change. (s : Store) (l : Log) (texts : Texts) → Holds M.maps M.spare M.limit core.now s l texts → get s.rows (table, key.now) ≡ change.before) }
{
    let before = core.store.row(table, key.as_slice())?;
    let after = copied_perhaps(core.alloc, new.as_ref())?;
    let key = key.copied(core.alloc)?;
    Ok(Change {
        table,
        key,
        before,
        after,
    })
}

// The lock that the pay of a delta asks for.
fn want_of(alloc: Global, delta: &GroupDelta) -> Result<WantList, NoMemory>
    ensures { IfOk result (λ wants. wants ≡ group_want delta.now ∷ []) }
{
    let interval = point(alloc, &delta.group)?;
    let mut wants = WantList::new(alloc);
    wants.push(Want {
        index: delta.view,
        interval,
        mode: LockMode::Increment,
    })?;
    Ok(wants)
}

// The locks that the pays of some deltas ask for.
fn wants_of(alloc: Global, owed: &[GroupDelta]) -> Result<Vec<WantList>, NoMemory>
    ensures { IfOk result (λ wants. wants.items ≡ map (λ d. group_want d ∷ []) owed.now) }
{
    let mut wants = Vec::new(alloc);
    for delta in owed {
        wants.push(want_of(alloc, delta)?)?;
    }
    Ok(wants)
}

// Why a change is refused that counts so many bytes in its session's transaction, in the log, in the data and in the history, if
// it is.
fn refusal<M: SortedMaps>(
    core: &CoreState<M>,
    session: u32,
    bytes: u64,
    log_need: u64,
    data_need: u64,
    entry_bytes: u64,
) -> Option<EngineRefusal>
    requires is_open { IsOpenAnd core.now.book session (λ o. ⊤) }
    requires logged { (s : Store) × (l : Log) × IsRoomOf core.now.log_room s l }
    requires within { IsWithin core.now.data_room.limit (used (M.maps core.now.store.tables) + core.now.data_room.total) }
    ensures none { IfNone result (OfOpen core.now.book session (λ o. o.txn_bytes + bytes ≤ MOST_OF_TRANSACTION) × LogFits core.now.log_room log_need × DataFits M.maps core.now data_need × (total_bytes core.now.book + entry_bytes ≤ MOST_OF_HISTORY)) }
    ensures some { IfSome result (IsFull M.maps core.now session bytes log_need data_need entry_bytes) }
{
    let kept = core.open_of(session).txn_bytes;
    if !fits(kept, bytes, MOST_OF_TRANSACTION) {
        return Some(EngineRefusal::TxnFull { kept, need: bytes });
    }
    if let Some(why) = core.log_room.refusal(log_need) {
        return Some(why);
    }
    if let Some(used) = core.full_of_data(data_need) {
        return Some(EngineRefusal::DataFull {
            used,
            need: data_need,
        });
    }
    let kept = core.book.history_bytes();
    if !fits(kept, entry_bytes, MOST_OF_HISTORY) {
        return Some(EngineRefusal::HistoryFull {
            kept,
            need: entry_bytes,
        });
    }
    None
}

// What a change keeps of the data for its transaction: by how much taking it back enlarges the entries, and the rows of the deltas
// that it owes.
fn kept_room<M: SortedMaps>(core: &CoreState<M>, change: &Change, owed: &[GroupDelta]) -> u64
    requires { RowsFit (defined.schema_of core.now.store.catalog) change.now }
    ensures { result ≡ min (growth_back (defined.schema_of core.now.store.catalog) (row_change change.now) + sum (map delta_entry owed.now)) (2 ^ 64 - 1) }
{
    core.store
        .growth_back(change)
        .saturating_add(rows_room(owed))
}

// Makes a change that is within the limits, whose locks are free.
fn put_within<M: SortedMaps>(
    core: &mut CoreState<M>,
    session: u32,
    change: Change,
    wants: WantList,
    owed: DeltaList,
    bytes: u64,
    entry_bytes: u64,
) -> Result<Answer, NoMemory>
    requires { (s : State) × CanPut M.maps M.spare M.limit s core.old session change wants owed bytes entry_bytes }
    ensures told { IfOk result (λ said. (s : State) → CanPut M.maps M.spare M.limit s core.old session change wants owed bytes entry_bytes → Told M.maps M.spare M.limit s session (act.Put change.table change.key change.after) (answer_of said) core.new) }
    ensures err { OnErr result ((s : State) → CanPut M.maps M.spare M.limit s core.old session change wants owed bytes entry_bytes → Began M.maps M.spare M.limit core.new s session) }
{
    let before = copied_perhaps(core.alloc, change.before.as_ref())?;
    let told = DeltaList::from_vec(copied_deltas(core.alloc, owed.as_slice())?);
    let pays = wants_of(core.alloc, owed.as_slice())?;
    reserve_ahead(core, session, owed.as_slice().len())?;
    make_room(
        core,
        session,
        change.table,
        wants.as_slice().len(),
        owed.as_slice(),
    )?;
    core.book.book_law();
    core.store.catalog.number_law();
    same_room_law();
    let noting = ready_note(&core.store, change.table, change.key.as_slice())?;
    let version = version_of(core.alloc, &core.store.catalog, &change)?;
    let copies = copied_deltas(core.alloc, owed.as_slice())?;
    let aside = kept_room(core, &change, owed.as_slice());
    let ready = core.store.tables.prepare(&core.store.catalog, change)?;
    let written = write_bytes(&ready.kept);
    // None of them had its Ghost, so their order does not matter.
    let reserved = owed_bytes(owed.as_slice(), false);
    take(core, session, wants);
    write(
        core,
        session,
        Writing {
            ready,
            noting,
            version,
            copies,
            owed: owed.into_vec(),
            wants: pays,
            txn_bytes: bytes,
            history_bytes: entry_bytes,
        },
    );
    core.data_room.set_aside(session, aside);
    core.log_room.put(written, reserved);
    Ok(Answer::Changed { before, owed: told })
}

// Makes a change whose locks are free, where it is within the limits.
fn put_free<M: SortedMaps>(
    core: &mut CoreState<M>,
    session: u32,
    change: Change,
    wants: WantList,
) -> Result<Answer, NoMemory>
    requires { (s : State) × IsFreePut M.maps M.spare M.limit s core.old session change wants }
    ensures told { IfOk result (λ said. (s : State) → IsFreePut M.maps M.spare M.limit s core.old session change wants → Told M.maps M.spare M.limit s session (act.Put change.table change.key change.after) (answer_of said) core.new) }
    ensures err { OnErr result ((s : State) → IsFreePut M.maps M.spare M.limit s core.old session change wants → Began M.maps M.spare M.limit core.new s session) }
{
    core.book.book_law();
    let owed = core.store.owed(&change)?;
    let bytes = core.store.put_size(&change, owed.as_slice());
    let log_need = core.store.write_need(&change, owed.as_slice());
    let data_need = core.store.change_need(&change, owed.as_slice());
    let entry_bytes = core.store.kept_change_size(&change);
    match refusal(core, session, bytes, log_need, data_need, entry_bytes) {
        Some(why) => Ok(Answer::Refused(why)),
        None => put_within(core, session, change, wants, owed, bytes, entry_bytes),
    }
}

/// Makes a row of a table the new one under its key, or takes it away, where nobody is in the way of its locks and it is within the
/// limits: those of the transaction, of the log, of the data and of the history, of which the first that it passes is told.
///
/// # Errors
///
/// Where there is no memory for it. Nothing is changed then but room.
pub fn put<M: SortedMaps>(
    core: &mut CoreState<M>,
    session: u32,
    table: u32,
    key: &Bytes,
    new: &Option<Row>,
) -> Result<Answer, NoMemory>
    requires { (s : State) × Began M.maps M.spare M.limit core.old s session × MayAct s.store session (act.Put table key.now new.now) }
    ensures told { IfOk result (λ said. (s : State) → Began M.maps M.spare M.limit core.old s session → MayAct s.store session (act.Put table key.now new.now) → Told M.maps M.spare M.limit s session (act.Put table key.now new.now) (answer_of said) core.new) }
    ensures err { OnErr result ((s : State) → Began M.maps M.spare M.limit core.old s session → MayAct s.store session (act.Put table key.now new.now) → Began M.maps M.spare M.limit core.new s session) }
{
    let change = change_of(core, table, key, new)?;
    let wants = core.store.put_wants(&change)?;
    match ask_for(core, session, wants) {
        Ok(wants) => put_free(core, session, change, wants),
        Err(said) => Ok(said),
    }
}
