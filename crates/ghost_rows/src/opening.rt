//! Rows made in memory for the sessions that pay to them.
ghost use Rattle.std.specs.Prelude.{replicate, ◌≡◌, ◌≢◌, ℕ, ℤ, pos, List, Some, None, IfOk, OnOk, OnErr};
ghost use Rattle.table_laws.specs.Place.{Place};
ghost use Rattle.std.specs.List.{AllByRecursion};
ghost use Rattle.iv_types.specs.Encoding.{IsHuge};
ghost use Rattle.iv_meaning.specs.Escrow.{IsSession};
ghost use Rattle.txn_machine.specs.Deltas.{place_of};
ghost use Rattle.ghost_rows.specs.Rows.{row_at, HasRoom, IsSeated, GivesRoom};
ghost use Rattle.ghost_rows.specs.State.{stored_at};
ghost use Rattle.ghost_rows.specs.Kept.{Pays, width, IsDelta, HasNumbers, RowStands, StandsFor, no_pays};

use crate::numbers::{numbers_of, width};
use crate::row::Row;
use crate::table::Table;
use iv_types::{Bytes, GroupDelta, NoMemory, SortedMaps};
use std::alloc::Global;

// So many zeros.
pub fn zeros(alloc: Global, many: usize) -> Result<Vec<i128>, NoMemory>
    ensures { IfOk result (λ found. found.items ≡ replicate many (pos 0)) }
{
    Ok(vec![in alloc; 0; many]?)
}

// The numbers that a row begins with: zeros where it is absent.
fn numbers_at<M: SortedMaps>(
    alloc: Global,
    maps: &M,
    delta: &GroupDelta,
) -> Result<Vec<i128>, NoMemory>
    requires delta { IsDelta delta.now }
    requires stored { (numbers : List ℤ) × HasNumbers (stored_at (M.maps maps.now) (place_of delta.now)) (width delta.now) numbers }
    ensures { IfOk result (λ found. (numbers : List ℤ) → HasNumbers (stored_at (M.maps maps.now) (place_of delta.now)) (width delta.now) numbers → found.items ≡ numbers) }
{
    match maps.get(delta.view, delta.group.as_slice()) {
        Some(stored) => numbers_of(alloc, stored, width(delta)),
        None => zeros(alloc, width(delta)),
    }
}

// A row in memory with room for a session alone.
fn opened(alloc: Global, numbers: &[i128], session: u32) -> Result<Row, NoMemory>
    requires numbers { AllByRecursion IsHuge numbers.now }
    requires session { IsSession session }
    ensures stands { IfOk result (λ row. RowStands row numbers.now no_pays) }
    ensures room { IfOk result (HasRoom session) }
    ensures only { IfOk result (λ row. (other : ℕ) → other ≢ session → HasRoom other row → ⊥) }
{
    let mut row = Row::new(alloc, numbers)?;
    row.reserve(session)?;
    Ok(row)
}

// Makes the row of a delta in memory, where it is not there, with room for the session.
fn open<M: SortedMaps>(
    rows: &mut Table,
    alloc: Global,
    maps: &M,
    delta: &GroupDelta,
    session: u32,
) -> Result<(), NoMemory>
    requires session { IsSession session }
    requires delta { IsDelta delta.now }
    requires absent { row_at rows.old (place_of delta.now) ≡ None }
    requires kept { (pays : Pays) × StandsFor (row_at rows.old (place_of delta.now)) (stored_at (M.maps maps.now) (place_of delta.now)) (width delta.now) pays }
    ensures kept { (pays : Pays) → StandsFor (row_at rows.old (place_of delta.now)) (stored_at (M.maps maps.now) (place_of delta.now)) (width delta.now) pays
        → StandsFor (row_at rows.new (place_of delta.now)) (stored_at (M.maps maps.now) (place_of delta.now)) (width delta.now) pays }
    ensures seat { OnOk result (IsSeated rows.new (place_of delta.now) session) }
    ensures room { GivesRoom session (place_of delta.now) rows.old rows.new }
{
    let numbers = numbers_at(alloc, maps, delta)?;
    let row = opened(alloc, &numbers, session)?;
    let group = delta.group.copied(alloc)?;
    rows.insert(delta.view, group, row)?;
    Ok(())
}

/// Makes room for the session in the row of a delta, which is made in memory where it is not there.
///
/// # Errors
///
/// Where there is no memory for it. No kept pay and no room is lost then.
pub fn seat_in<M: SortedMaps>(
    rows: &mut Table,
    alloc: Global,
    maps: &M,
    delta: &GroupDelta,
    session: u32,
) -> Result<(), NoMemory>
    requires session { IsSession session }
    requires delta { IsDelta delta.now }
    requires kept { (pays : Pays) × StandsFor (row_at rows.old (place_of delta.now)) (stored_at (M.maps maps.now) (place_of delta.now)) (width delta.now) pays }
    ensures kept { (pays : Pays) → StandsFor (row_at rows.old (place_of delta.now)) (stored_at (M.maps maps.now) (place_of delta.now)) (width delta.now) pays
        → StandsFor (row_at rows.new (place_of delta.now)) (stored_at (M.maps maps.now) (place_of delta.now)) (width delta.now) pays }
    ensures seat { OnOk result (IsSeated rows.new (place_of delta.now) session) }
    ensures room { GivesRoom session (place_of delta.now) rows.old rows.new }
{
    let group = delta.group.as_slice();
    if rows.get(delta.view, group).is_some() {
        rows.reserve(delta.view, group, session)
    } else {
        open(rows, alloc, maps, delta, session)
    }
}
