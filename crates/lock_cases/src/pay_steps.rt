//! Pays to the row of the group 7 of the view 1, which has one sum, with what is kept by them.
ghost use Rattle.std.specs.Prelude.{◌≡◌, ◌≢◌, ◌+◌, ◌++◌, ◌≤◌, ℕ, ℤ, List, [], ◌∷◌, IfOk, OnOk, vec_capacity, vec_len};
ghost use Rattle.std.specs.FinMap as map;
ghost use Rattle.iv_meaning.specs.Escrow.{IsSession};
ghost use Rattle.iv_types.specs.declared.value.Kind.TheVariants.{Huge};
ghost use Rattle.iv_types.specs.declared.value.Value.TheVariants.{Number};
ghost use Rattle.iv_types.specs.Encoding.{value_bytes, IsHuge};
ghost use Rattle.table_store.specs.Lists.{map_at};
ghost use Rattle.txn_machine.specs.Deltas.{place_of};
ghost use Rattle.ghost_rows.specs.Numbers.{numbers_bytes};
ghost use Rattle.ghost_rows.specs.Kept.{Pays, no_pays, width, IsDelta};
ghost use Rattle.ghost_rows.specs.Reading.{AreViewRows};
ghost use Rattle.ghost_rows.specs.State.{AreKept, room_of};

use byteorder::{BigEndian, ByteOrder};
use ghost_rows::{PayRefusal, ViewRows};
use iv_types::{
    Bytes, GroupDelta, Interval, NoMemory, NumberList, PrefixList, SortedMaps, ViewRowList,
};
use std::alloc::Global;
use table_store::ListMaps;

fn group(alloc: Global) -> Result<Bytes, NoMemory>
    ensures { IfOk result (λ group. group ≡ 7 ∷ []) }
{
    let mut bytes = Vec::new(alloc);
    bytes.push(7)?;
    Ok(Bytes::from_vec(bytes))
}

// Adds the bytes of a number, for which there is room.
fn put(out: &mut Vec<u8>, number: i128)
    requires { vec_len out.old + 16 ≤ vec_capacity out.old }
    ensures items { out.new.items ≡ out.old.items ++ value_bytes Huge (Number number) }
    ensures len { vec_len out.new ≡ vec_len out.old + 16 }
    ensures capacity { vec_capacity out.old ≤ vec_capacity out.new }
{
    let mut bytes = [0; 16];
    BigEndian::write_i128(&mut bytes, number);
    match out.extend_from_slice(&bytes) {
        Ok(()) => {}
        Err(_) => unreachable!(),
    }
}

fn value(alloc: Global, count: i128, sum: i128) -> Result<Bytes, NoMemory>
    ensures { IfOk result (λ value. value ≡ numbers_bytes (count ∷ sum ∷ [])) }
{
    let mut bytes = Vec::with_capacity(alloc, 32)?;
    put(&mut bytes, count);
    put(&mut bytes, sum);
    Ok(Bytes::from_vec(bytes))
}

/// A delta of the row.
pub fn delta(alloc: Global, count: i8, sum: i128) -> Result<GroupDelta, NoMemory>
    requires { IsHuge sum }
    ensures place { IfOk result (λ d. place_of d ≡ (1, 7 ∷ [])) }
    ensures width { IfOk result (λ d. width d ≡ 2) }
    ensures delta { IfOk result IsDelta }
{
    let mut sums = Vec::new(alloc);
    sums.push(sum)?;
    Ok(GroupDelta {
        view: 1,
        group: group(alloc)?,
        count,
        sums: NumberList::from_vec(sums),
    })
}

/// Maps in which no row is stored.
pub fn without_row(alloc: Global) -> Result<(ViewRows, ListMaps), NoMemory>
    ensures kept { IfOk result (λ all. AreKept all.0 (map_at all.1) (1, 7 ∷ []) 2 no_pays) }
    ensures none { IfOk result (λ all. map_at all.1 1 ≡ map.empty) }
{
    let maps = ListMaps::new(alloc)?;
    Ok((ViewRows::new(alloc)?, maps))
}

// Maps in which the row is stored alone.
fn stored(alloc: Global, count: i128, sum: i128) -> Result<ListMaps, NoMemory>
    ensures { IfOk result (λ maps. map_at maps 1 ≡ map.insert map.empty (7 ∷ []) (numbers_bytes (count ∷ sum ∷ []))) }
{
    let mut maps = ListMaps::new(alloc)?;
    let value = value(alloc, count, sum)?;
    let group = group(alloc)?;
    maps.reserve(1, 1)?;
    maps.insert(1, group, value);
    Ok(maps)
}

/// Maps in which the row is stored alone, and no open transactions.
pub fn with_row(alloc: Global, count: i128, sum: i128) -> Result<(ViewRows, ListMaps), NoMemory>
    requires count { IsHuge count }
    requires sum { IsHuge sum }
    ensures { IfOk result (λ all. (pays : Pays) × AreKept all.0 (map_at all.1) (1, 7 ∷ []) 2 pays) }
{
    let maps = stored(alloc, count, sum)?;
    Ok((ViewRows::new(alloc)?, maps))
}

/// What the whole view reads as where the row is stored alone.
pub fn read(alloc: Global, count: i128, sum: i128) -> Result<ViewRowList, NoMemory>
    requires count { IsHuge count }
    requires sum { IsHuge sum }
{
    let maps = stored(alloc, count, sum)?;
    let rows = ViewRows::new(alloc)?;
    let whole = Interval {
        low: Bytes::new(alloc),
        high: None,
    };
    rows.read(&maps, 1, &whole)
}

/// A pay of a session, with the room that it needs.
pub fn pay(
    rows: &mut ViewRows,
    maps: &mut ListMaps,
    session: u32,
    delta: &GroupDelta,
) -> Result<Result<PrefixList, PayRefusal>, NoMemory>
    requires session { IsSession session }
    requires delta { IsDelta delta.now }
    requires place { place_of delta.now ≡ (1, 7 ∷ []) }
    requires width { width delta.now ≡ 2 }
    requires kept { (pays : Pays) × AreKept rows.old (map_at maps.old) (1, 7 ∷ []) 2 pays }
    ensures kept { OnOk result ((pays : Pays) → AreKept rows.old (map_at maps.old) (1, 7 ∷ []) 2 pays
        → (after : Pays) × AreKept rows.new (map_at maps.new) (1, 7 ∷ []) 2 after × ((s : ℕ) → s ≢ session → after s ≡ pays s)) }
    ensures rooms { OnOk result ((s : ℕ) → s ≢ session → room_of rows.old s ≤ room_of rows.new s) }
{
    rows.reserve(maps, delta, session, 2)?;
    Ok(rows.pay(maps, session, delta))
}

/// Whether the row is a ghost.
pub fn is_ghost(rows: &ViewRows, maps: &ListMaps) -> bool
    requires kept { (pays : Pays) × AreKept rows.now (map_at maps.now) (1, 7 ∷ []) 2 pays }
{
    rows.is_ghost(maps, 1, &[7])
}

/// Whether the row can be cleaned.
pub fn is_cleanable(rows: &ViewRows, maps: &ListMaps, locked: bool, versions: bool) -> bool
    requires kept { (pays : Pays) × AreKept rows.now (map_at maps.now) (1, 7 ∷ []) 2 pays }
{
    rows.cleanable(maps, 1, &[7], locked, versions)
}
