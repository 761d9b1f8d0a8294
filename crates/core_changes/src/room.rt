//! Room that a change needs, made ahead.
ghost use Rattle.std.specs.Prelude.{◌≡◌, ◌≢◌, ◌+◌, ◌*◌, ◌≤◌, ◌<◌, ◌^◌, ℕ, List, [], length, reverse, ⊤, OnOk};
ghost use Rattle.std.specs.List.{Contains};
ghost use Rattle.iv_types.specs.declared.lock.GroupDelta.{GroupDelta as Delta};
ghost use Rattle.table_laws.specs.Place.{Place};
ghost use Rattle.iv_meaning.specs.Escrow.{IsSession};
ghost use Rattle.ghost_rows.specs.State.{HasSeat, room_of};
ghost use Rattle.table_store.specs.Readying.{HasPlaces};
ghost use Rattle.table_store.specs.Stored.{IsTableAnd, OfTable};
ghost use Rattle.txn_book.specs.Books.{IsOpenAnd, OfOpen, open_changes};
ghost use Rattle.txn_book.specs.Txns.{HasRoomFor};
ghost use Rattle.txn_machine.specs.Deltas.{place_of};
ghost use Rattle.txn_machine.specs.KeptLaws.{IsDelta};
ghost use Rattle.txn_machine.specs.Log.{Log};
ghost use Rattle.txn_machine.specs.May.{IsOpen};
ghost use Rattle.txn_machine.specs.State.{State};
ghost use Rattle.txn_machine.specs.Store.{Store, schema_of};
ghost use Rattle.core_state.specs.Stands.{Began, Holds, Texts};
ghost use Rattle.core_changes.specs.Room.{Keeps, AreDeltas, HasRoom};

use core_effects::reserve_locks;
use core_state::CoreState;
use data_changes::reserve_pay;
use iv_types::{GroupDelta, NoMemory, SortedMaps};

// Room for one more entry in each index of a table, beside all those that go back in where open transactions are taken back.
fn reserve_entries<M: SortedMaps>(core: &mut CoreState<M>, table: u32) -> Result<(), NoMemory>
    requires table { IsTableAnd core.old.store.catalog table (λ t. ⊤) }
    requires held { (s : Store) × (l : Log) × (texts : Texts) × Holds M.maps M.spare M.limit core.old s l texts }
    ensures room { OnOk result (OfTable core.new.store.catalog table (HasPlaces core.new.store.catalog (open_changes core.new.book.opens + 1) (M.spare core.new.store.tables))) }
    ensures holds { Keeps M.maps M.spare M.limit core.old core.new }
    ensures rest { core.new ≡ record core.old { store = record core.old.store { tables = core.new.store.tables } } }
{
    core.book.book_law();
    let more = core.book.changes() as u32 + 1;
    core.store.tables.reserve(&core.store.catalog, table, more)
}

// Room in a session's transaction for one more change that owes so many deltas.
fn reserve_step<M: SortedMaps>(
    core: &mut CoreState<M>,
    session: u32,
    deltas: usize,
) -> Result<(), NoMemory>
    requires few { deltas < 2 ^ 32 }
    requires held { (s : Store) × (l : Log) × (texts : Texts) × Holds M.maps M.spare M.limit core.old s l texts × IsOpen s session }
    ensures room { OnOk result (OfOpen core.new.book session (HasRoomFor deltas)) }
    ensures holds { (s : Store) (l : Log) (texts : Texts) → IsOpen s session → Holds M.maps M.spare M.limit core.old s l texts → Holds M.maps M.spare M.limit core.new s l texts }
    ensures rest { core.new ≡ record core.old { book = core.new.book } }
{
    core.book.book_law();
    core.book.reserve(session, deltas)
}

// Room for the pays of one delta, and so many buffers in all.
fn reserve_one<M: SortedMaps>(
    core: &mut CoreState<M>,
    session: u32,
    delta: &GroupDelta,
    room: usize,
) -> Result<(), NoMemory>
    requires session { IsSession session }
    requires held { (s : Store) × (l : Log) × (texts : Texts) × Holds M.maps M.spare M.limit core.old s l texts × IsDelta (schema_of s) delta.now }
    ensures seat { OnOk result (HasSeat core.new.store.views (place_of delta.now) session) }
    ensures room { OnOk result (room ≤ room_of core.new.store.views session) }
    ensures rooms { (s : ℕ) → room_of core.old.store.views s ≤ room_of core.new.store.views s }
    ensures seats { (s : ℕ) (place : Place) → HasSeat core.old.store.views place s → HasSeat core.new.store.views place s }
    ensures holds { (s : Store) (l : Log) (texts : Texts) → IsDelta (schema_of s) delta.now → Holds M.maps M.spare M.limit core.old s l texts → Holds M.maps M.spare M.limit core.new s l texts }
    ensures rest { core.new ≡ record core.old { store = record core.old.store { views = core.new.store.views } } }
{
    reserve_pay(&mut core.store, session, delta, room)
}

// Room for the pays of some deltas, and so many buffers in all.
fn reserve_pays<M: SortedMaps>(
    core: &mut CoreState<M>,
    session: u32,
    owed: &[GroupDelta],
    room: usize,
) -> Result<(), NoMemory>
    requires session { IsSession session }
    requires held { (s : Store) × (l : Log) × (texts : Texts) × Holds M.maps M.spare M.limit core.old s l texts × AreDeltas s owed.now }
    ensures seats { OnOk result ((d : Delta) → Contains owed.now d → HasSeat core.new.store.views (place_of d) session) }
    ensures room { OnOk result (owed.now ≢ [] → room ≤ room_of core.new.store.views session) }
    ensures rooms { (s : ℕ) → room_of core.old.store.views s ≤ room_of core.new.store.views s }
    ensures holds { (s : Store) (l : Log) (texts : Texts) → AreDeltas s owed.now → Holds M.maps M.spare M.limit core.old s l texts → Holds M.maps M.spare M.limit core.new s l texts }
    ensures rest { core.new ≡ record core.old { store = record core.old.store { views = core.new.store.views } } }
{
    for delta in owed {
        reserve_one(core, session, delta, room)?;
    }
    Ok(())
}

/// Makes all room that a change of a table's row needs, which takes so many locks and owes these deltas: for the locks, those of its
/// pays, its entries and those that go back in, its step and the pays, and for taking all of it back.
///
/// # Errors
///
/// Where there is no memory for it. Nothing is changed then but room.
pub fn make_room<M: SortedMaps>(
    core: &mut CoreState<M>,
    session: u32,
    table: u32,
    wants: usize,
    owed: &[GroupDelta],
) -> Result<(), NoMemory>
    requires wants { wants ≤ 258 }
    requires few { length owed.now ≤ 524288 }
    requires table { IsTableAnd core.old.store.catalog table (λ t. ⊤) }
    requires began { (s : State) × Began M.maps M.spare M.limit core.old s session × IsOpen s.store session × AreDeltas s.store owed.now }
    ensures room { OnOk result (HasRoom M.spare core.new session table wants owed.now) }
    ensures began { (s : State) → Began M.maps M.spare M.limit core.old s session → IsOpen s.store session → AreDeltas s.store owed.now → Began M.maps M.spare M.limit core.new s session }
    ensures rest { core.new ≡ record core.old { store = record core.old.store { tables = core.new.store.tables; views = core.new.store.views }; book = core.new.book; locks = core.new.locks } }
{
    reserve_step(core, session, owed.len())?;
    reserve_entries(core, table)?;
    reserve_locks(core, session, (wants + owed.len()) as u32)?;
    let room = 2 * owed.len() + core.open_of(session).kept.len();
    reserve_pays(core, session, owed, room)
}
