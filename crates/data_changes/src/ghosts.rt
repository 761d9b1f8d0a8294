//! Ghosts made and removed, and sessions settled.
ghost use Rattle.std.specs.Prelude.{◌≡◌, ◌≢◌, ◌+◌, ◌-◌, ◌^◌, ◌<◌, ◌≤◌, ℕ, suc, [], OnOk, OnErr};
ghost use Rattle.iv_meaning.specs.Escrow.{IsSession};
ghost use Rattle.ghost_rows.specs.Rows.{row_at, settled_at};
ghost use Rattle.ghost_rows.specs.State.{CanStore, room_of};
ghost use Rattle.table_laws.specs.Place.{Place};
ghost use Rattle.data_store.specs.Contents.{Contents};
ghost use Rattle.data_store.specs.Held.{IsHeld};
ghost use Rattle.data_changes.specs.Effects.{keeping, with_ghost, without_ghost};
ghost use Rattle.data_changes.specs.Ghosts.{HasAbsent, HasGhost};

use data_store::DataStore;
use iv_types::{NoMemory, SortedMaps};

/// Stores a row of zeros, its count and so many sums, under a group of a view, where none is stored. Then the view's index has
/// room for `room` entries more.
///
/// # Errors
///
/// Where there is no memory for it. Nothing is changed then but room.
pub fn make_ghost<M: SortedMaps>(
    store: &mut DataStore<M>,
    index: u32,
    group: &[u8],
    sums: u32,
    room: u32,
) -> Result<(), NoMemory>
    requires held { (c : Contents) × HasAbsent store.old.catalog (M.maps store.old.tables) store.old.views (index, group.now) sums c }
    requires sums { sums ≤ 8 }
    requires room { room < 2 ^ 32 - 1 }
    requires can { CanStore (M.maps store.old.tables) (M.limit store.old.tables) (index, group.now) (suc sums) }
    ensures made { OnOk result ((c : Contents) → HasAbsent store.old.catalog (M.maps store.old.tables) store.old.views (index, group.now) sums c
        → IsHeld store.new.catalog (M.maps store.new.tables) store.new.views (with_ghost c (index, group.now) (suc sums))) }
    ensures err { OnErr result ((c : Contents) → IsHeld store.old.catalog (M.maps store.old.tables) store.old.views c → IsHeld store.new.catalog (M.maps store.new.tables) store.new.views c) }
    ensures rows { store.new.views.rows ≡ store.old.views.rows }
    ensures rooms { store.new.views.rooms ≡ store.old.views.rooms }
    ensures room { OnOk result (room ≤ M.spare store.new.tables index) }
    ensures spare { M.spare store.old.tables index ≤ M.spare store.new.tables index + 1 }
    ensures other_spares { (i : ℕ) → i ≢ index → M.spare store.old.tables i ≤ M.spare store.new.tables i }
    ensures limit { M.limit store.new.tables ≡ M.limit store.old.tables }
    ensures rest { store.new ≡ record store.old { tables = store.new.tables; views = store.new.views } }
{
    store
        .views
        .make_ghost(store.tables.maps_mut(), index, group, sums, room)
}

/// Takes away the row of a group of a view, which is a row of zeros on which no pay is kept. Takes no memory.
pub fn remove_ghost<M: SortedMaps>(store: &mut DataStore<M>, index: u32, group: &[u8])
    requires held { (c : Contents) × HasGhost store.old.catalog (M.maps store.old.tables) store.old.views (index, group.now) c }
    ensures removed { (c : Contents) → HasGhost store.old.catalog (M.maps store.old.tables) store.old.views (index, group.now) c
        → IsHeld store.new.catalog (M.maps store.new.tables) store.new.views (without_ghost c (index, group.now)) }
    ensures rows { store.new.views.rows ≡ store.old.views.rows }
    ensures rooms { store.new.views.rooms ≡ store.old.views.rooms }
    ensures spare { (i : ℕ) → M.spare store.old.tables i ≤ M.spare store.new.tables i }
    ensures limit { M.limit store.new.tables ≡ M.limit store.old.tables }
    ensures rest { store.new ≡ record store.old { tables = store.new.tables; views = store.new.views } }
{
    store
        .views
        .remove_ghost(store.tables.maps_mut(), index, group);
}

/// The session keeps nothing any more: its kept pays are committed, and all that was made for them goes. Takes no memory.
pub fn settle<M: SortedMaps>(store: &mut DataStore<M>, session: u32)
    requires { IsSession session }
    ensures settled { (c : Contents) → IsHeld store.old.catalog (M.maps store.old.tables) store.old.views c → IsHeld store.new.catalog (M.maps store.new.tables) store.new.views (keeping c session []) }
    ensures rows { (q : Place) → row_at store.new.views.rows q ≡ settled_at session (row_at store.old.views.rows q) }
    ensures gone { room_of store.new.views session ≡ 0 }
    ensures rooms { (s : ℕ) → s ≢ session → room_of store.new.views s ≡ room_of store.old.views s }
    ensures rest { store.new ≡ record store.old { views = store.new.views } }
{
    store.views.settle(session);
}
