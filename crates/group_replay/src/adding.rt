//! Deltas added to the rows of their groups, and taken back.
ghost use Rattle.std.specs.Prelude.{◌≡◌, ◌≢◌, ◌≤◌, ◌∷◌, ℕ, ℤ, pos, List, length, FitsSigned, None, Some, IsSome, IfOk, OnOk};
ghost use Rattle.std.specs.Int.{w128};
ghost use Rattle.iv_types.specs.Maps.{Map, CanHold};
ghost use Rattle.table_laws.specs.Table.{write};
ghost use Rattle.iv_meaning.specs.Objects.{schema_of};
ghost use Rattle.query_laws.specs.Limited.{IsLimited};
ghost use Rattle.txn_machine.specs.Stored.{add_to};
ghost use Rattle.txn_log.specs.Replay.{Added};
ghost use Rattle.txn_log.specs.Fitting.{IsKnown};
ghost use Rattle.ghost_rows.specs.Numbers.{numbers_bytes};
ghost use Rattle.ghost_rows.specs.State.{stored_at, StoresOnlyAt};
ghost use Rattle.ghost_rows.specs.Ghosts.{IsCandidate, StayListed};
ghost use Rattle.data_store.specs.Contents.{Contents};
ghost use Rattle.group_replay.specs.Closed.{IsClosed, with_view};
ghost use Rattle.group_replay.specs.Adding.{amount, Tells, CanReplace};

use crate::numbers::sum_of;
use data_store::DataStore;
use ghost_rows::ViewRows;
use ghost_rows::numbers::front;
use iv_types::{Bytes, GroupDelta, NoMemory, SortedMaps};

/// What came of a delta.
#[derive(Clone, Copy, Debug, PartialEq, Eq)]
pub enum AddedDelta {
    /// It was added to the row of its group, or taken back.
    Added,
    /// Its group has no row.
    NoRow,
    /// A number of the row would leave the HUGE range.
    OutOfRange,
}

// Puts another value under a group of a view, which has one.
fn replace_value<M: SortedMaps>(maps: &mut M, view: u32, group: &[u8], value: Bytes)
    requires there { IsSome (stored_at (M.maps maps.old) (view, group.now)) }
    requires held { CanHold view group.now value }
    requires limit { M.limit maps.old ≡ None }
    ensures stored { stored_at (M.maps maps.new) (view, group.now) ≡ Some value }
    ensures others { StoresOnlyAt (view, group.now) (M.maps maps.old) (M.maps maps.new) }
    ensures limit { M.limit maps.new ≡ M.limit maps.old }
{
    maps.replace(view, group, value);
}

/// Has a group of a view cleaned whose numbers, which are these bytes, count no row.
///
/// # Errors
///
/// Where there is no memory for it.
pub fn list_ghost(
    views: &mut ViewRows,
    view: u32,
    group: &[u8],
    value: &[u8],
) -> Result<(), NoMemory>
    requires { 16 ≤ length value.now }
    ensures candidate { OnOk result ((count : ℤ) (sums : List ℤ) → FitsSigned w128 count → value.now ≡ numbers_bytes (count ∷ sums) → count ≡ pos 0 → IsCandidate views.new (view, group.now)) }
    ensures others { OnOk result ((maps : ℕ → Map) → StayListed views.old maps views.new maps) }
    ensures rows { views.new.rows ≡ views.old.rows }
{
    if front(value).0 != 0 {
        return Ok(());
    }
    views.add_candidate(view, group)
}

// Puts other numbers under a group of a view, which has a row. Where they count no row they are those of a ghost, and the
// group is to be cleaned.
fn replace_row<M: SortedMaps>(
    store: &mut DataStore<M>,
    view: u32,
    group: &[u8],
    value: Bytes,
) -> Result<(), NoMemory>
    requires row { (c : Contents) × (numbers : List ℤ) × CanReplace store.old.catalog (M.maps store.old.tables) store.old.views (view, group.now) numbers c × (value ≡ numbers_bytes numbers) }
    requires limited { IsLimited (schema_of store.old.catalog) }
    requires limit { M.limit store.old.tables ≡ None }
    ensures replaced { OnOk result ((c : Contents) (numbers : List ℤ) → CanReplace store.old.catalog (M.maps store.old.tables) store.old.views (view, group.now) numbers c → value ≡ numbers_bytes numbers
        → IsClosed store.new.catalog (M.maps store.new.tables) store.new.views (with_view c (write c.view (view, group.now) (Some numbers)))) }
    ensures limit { M.limit store.new.tables ≡ M.limit store.old.tables }
    ensures rest { store.new ≡ record store.old { tables = store.new.tables; views = store.new.views } }
{
    list_ghost(&mut store.views, view, group, value.as_slice())?;
    replace_value(store.tables.maps_mut(), view, group, value);
    Ok(())
}

/// Adds a delta to the row of its group, or takes it back, and answers whether that row is stored, and its numbers stay in
/// the HUGE range. Else nothing is changed. A row that then counts no row is to be cleaned.
///
/// # Errors
///
/// Where there is no memory for it. What the store has is not told then.
pub fn add_delta<M: SortedMaps>(
    store: &mut DataStore<M>,
    delta: &GroupDelta,
    back: bool,
) -> Result<AddedDelta, NoMemory>
    requires closed { (c : Contents) × IsClosed store.old.catalog (M.maps store.old.tables) store.old.views c }
    requires known { IsKnown (schema_of store.old.catalog) (Added delta.now) }
    requires limited { IsLimited (schema_of store.old.catalog) }
    requires limit { M.limit store.old.tables ≡ None }
    ensures told { IfOk result (λ answer. (c : Contents) → IsClosed store.old.catalog (M.maps store.old.tables) store.old.views c → Tells c.view (amount delta.now back) answer) }
    ensures added { IfOk result (λ answer. answer ≡ AddedDelta.Added → (c : Contents) → IsClosed store.old.catalog (M.maps store.old.tables) store.old.views c
        → IsClosed store.new.catalog (M.maps store.new.tables) store.new.views (with_view c (add_to c.view (amount delta.now back)))) }
    ensures untouched { IfOk result (λ answer. answer ≢ AddedDelta.Added → store.new ≡ store.old) }
    ensures limit { M.limit store.new.tables ≡ M.limit store.old.tables }
    ensures rest { store.new ≡ record store.old { tables = store.new.tables; views = store.new.views } }
{
    let stored = match store.tables.maps().get(delta.view, delta.group.as_slice()) {
        Some(stored) => stored,
        None => return Ok(AddedDelta::NoRow),
    };
    let value = match sum_of(store.alloc, stored, delta, back)? {
        Some(value) => value,
        None => return Ok(AddedDelta::OutOfRange),
    };
    replace_row(store, delta.view, delta.group.as_slice(), value)?;
    Ok(AddedDelta::Added)
}
