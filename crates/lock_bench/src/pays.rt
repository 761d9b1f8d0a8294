//! Pays of 64 transactions to one stored row: that of the group 7 of the view 1, which has one sum.
ghost use Rattle.std.specs.Prelude.{◌≡◌, ◌≤◌, [], ◌∷◌, pos, IfOk, OnOk};
ghost use Rattle.std.specs.FinMap as map;
ghost use Rattle.iv_meaning.specs.Escrow.{IsSession};
ghost use Rattle.table_store.specs.Lists.{map_at};
ghost use Rattle.txn_machine.specs.Deltas.{place_of};
ghost use Rattle.ghost_rows.specs.Numbers.{numbers_bytes};
ghost use Rattle.ghost_rows.specs.Kept.{Pays, width, IsDelta};
ghost use Rattle.ghost_rows.specs.State.{AreKept};

use crate::per_second;
use anyhow::bail;
use ghost_rows::ViewRows;
use iv_types::{Bytes, GroupDelta, NoMemory, NumberList, SortedMaps};
use std::alloc::Global;
use std::time::{Duration, Instant};
use table_store::ListMaps;

/// How many pays of each session a round has.
const TIMES: u32 = 100;

/// How many transactions of each session end between the two measurements.
const ENDED: u32 = 1563;

fn group(alloc: Global) -> Result<Bytes, NoMemory>
    ensures { IfOk result (λ group. group ≡ 7 ∷ []) }
{
    let mut bytes = Vec::new(alloc);
    bytes.push(7)?;
    Ok(Bytes::from_vec(bytes))
}

/// What each pay adds.
fn delta(alloc: Global) -> Result<GroupDelta, NoMemory>
    ensures place { IfOk result (λ d. place_of d ≡ (1, 7 ∷ [])) }
    ensures width { IfOk result (λ d. width d ≡ 2) }
    ensures delta { IfOk result IsDelta }
{
    let mut sums = Vec::new(alloc);
    sums.push(5)?;
    Ok(GroupDelta {
        view: 1,
        group: group(alloc)?,
        count: 1,
        sums: NumberList::from_vec(sums),
    })
}

/// The row alone, with the count and the sum 0.
fn stored(alloc: Global) -> Result<ListMaps, NoMemory>
    ensures { IfOk result (λ maps. map_at maps 1 ≡ map.insert map.empty (7 ∷ []) (numbers_bytes (pos 0 ∷ pos 0 ∷ []))) }
{
    let mut maps = ListMaps::new(alloc)?;
    let value = Bytes::from_vec(Vec::from_slice(alloc, &[0; 32])?);
    let group = group(alloc)?;
    maps.reserve(1, 1)?;
    maps.insert(1, group, value);
    Ok(maps)
}

fn begin(alloc: Global) -> Result<(ViewRows, ListMaps), NoMemory>
    ensures { IfOk result (λ all. (pays : Pays) × AreKept all.0 (map_at all.1) (1, 7 ∷ []) 2 pays) }
{
    let maps = stored(alloc)?;
    Ok((ViewRows::new(alloc)?, maps))
}

/// Ends the session's transaction, if there is one, and pays in a new one. Whether the pay is kept.
fn end_and_pay(
    rows: &mut ViewRows,
    maps: &mut ListMaps,
    session: u32,
    delta: &GroupDelta,
) -> Result<bool, NoMemory>
    requires session { IsSession session }
    requires delta { IsDelta delta.now }
    requires place { place_of delta.now ≡ (1, 7 ∷ []) }
    requires width { width delta.now ≡ 2 }
    requires kept { (pays : Pays) × AreKept rows.old (map_at maps.old) (1, 7 ∷ []) 2 pays }
    ensures kept { OnOk result ((pays : Pays) × AreKept rows.new (map_at maps.new) (1, 7 ∷ []) 2 pays) }
{
    rows.settle(session);
    rows.reserve(maps, delta, session, 2)?;
    Ok(rows.pay(maps, session, delta).is_ok())
}

/// Pays and takes it back. Whether the pay was kept.
fn pay_and_take_back(
    rows: &mut ViewRows,
    maps: &mut ListMaps,
    session: u32,
    delta: &GroupDelta,
) -> Result<bool, NoMemory>
    requires session { IsSession session }
    requires delta { IsDelta delta.now }
    requires place { place_of delta.now ≡ (1, 7 ∷ []) }
    requires width { width delta.now ≡ 2 }
    requires kept { (pays : Pays) × AreKept rows.old (map_at maps.old) (1, 7 ∷ []) 2 pays }
    ensures kept { OnOk result ((pays : Pays) × AreKept rows.new (map_at maps.new) (1, 7 ∷ []) 2 pays) }
{
    rows.reserve(maps, delta, session, 2)?;
    match rows.pay(maps, session, delta) {
        Ok(before) => {
            rows.take_back(maps, session, delta, &before);
            Ok(true)
        }
        Err(_) => Ok(false),
    }
}

/// A pay that is taken back, or else ends the transaction before.
fn pay_once(
    rows: &mut ViewRows,
    maps: &mut ListMaps,
    session: u32,
    delta: &GroupDelta,
    back: bool,
) -> anyhow::Result<()>
    requires session { IsSession session }
    requires delta { IsDelta delta.now }
    requires place { place_of delta.now ≡ (1, 7 ∷ []) }
    requires width { width delta.now ≡ 2 }
    requires kept { (pays : Pays) × AreKept rows.old (map_at maps.old) (1, 7 ∷ []) 2 pays }
    ensures kept { OnOk result ((pays : Pays) × AreKept rows.new (map_at maps.new) (1, 7 ∷ []) 2 pays) }
{
    let kept = if back {
        pay_and_take_back(rows, maps, session, delta)?
    } else {
        end_and_pay(rows, maps, session, delta)?
    };
    if !kept {
        bail!("a pay is refused");
    }
    Ok(())
}

/// A pay of each session.
fn pay_each(
    rows: &mut ViewRows,
    maps: &mut ListMaps,
    delta: &GroupDelta,
    back: bool,
) -> anyhow::Result<()>
    requires delta { IsDelta delta.now }
    requires place { place_of delta.now ≡ (1, 7 ∷ []) }
    requires width { width delta.now ≡ 2 }
    requires kept { (pays : Pays) × AreKept rows.old (map_at maps.old) (1, 7 ∷ []) 2 pays }
    ensures kept { OnOk result ((pays : Pays) × AreKept rows.new (map_at maps.new) (1, 7 ∷ []) 2 pays) }
{
    for session in 1..65 {
        pay_once(rows, maps, session, delta, back)?;
    }
    Ok(())
}

/// So many pays of each session.
fn pay_all(
    rows: &mut ViewRows,
    maps: &mut ListMaps,
    delta: &GroupDelta,
    back: bool,
    times: u32,
) -> anyhow::Result<()>
    requires delta { IsDelta delta.now }
    requires place { place_of delta.now ≡ (1, 7 ∷ []) }
    requires width { width delta.now ≡ 2 }
    requires kept { (pays : Pays) × AreKept rows.old (map_at maps.old) (1, 7 ∷ []) 2 pays }
    ensures kept { OnOk result ((pays : Pays) × AreKept rows.new (map_at maps.new) (1, 7 ∷ []) 2 pays) }
{
    for _ in 0..times {
        pay_each(rows, maps, delta, back)?;
    }
    Ok(())
}

/// The least time of some rounds.
fn best(
    rt: &HostRuntime,
    rows: &mut ViewRows,
    maps: &mut ListMaps,
    delta: &GroupDelta,
    back: bool,
    rounds: u32,
) -> anyhow::Result<Duration>
    requires delta { IsDelta delta.now }
    requires place { place_of delta.now ≡ (1, 7 ∷ []) }
    requires width { width delta.now ≡ 2 }
    requires kept { (pays : Pays) × AreKept rows.old (map_at maps.old) (1, 7 ∷ []) 2 pays }
    ensures kept { OnOk result ((pays : Pays) × AreKept rows.new (map_at maps.new) (1, 7 ∷ []) 2 pays) }
{
    let mut best = Duration::MAX;
    for _ in 0..rounds {
        let start = Instant::now(rt)?;
        pay_all(rows, maps, delta, back, TIMES)?;
        best = best.min(start.elapsed(rt)?);
    }
    Ok(best)
}

fn measure_both(
    rt: &HostRuntime,
    rows: &mut ViewRows,
    maps: &mut ListMaps,
    delta: &GroupDelta,
    rounds: u32,
) -> anyhow::Result<()>
    requires delta { IsDelta delta.now }
    requires place { place_of delta.now ≡ (1, 7 ∷ []) }
    requires width { width delta.now ≡ 2 }
    requires kept { (pays : Pays) × AreKept rows.old (map_at maps.old) (1, 7 ∷ []) 2 pays }
    ensures kept { OnOk result ((pays : Pays) × AreKept rows.new (map_at maps.new) (1, 7 ∷ []) 2 pays) }
{
    let back = best(rt, rows, maps, delta, true, rounds)?;
    let settled = best(rt, rows, maps, delta, false, rounds)?;
    let back = per_second(64 * TIMES, back);
    let settled = per_second(64 * TIMES, settled);
    println!(rt; "  {back} a second are taken back")?;
    println!(rt; "  {settled} a second end the transaction before")?;
    Ok(())
}

pub fn measure(rt: &HostRuntime, rounds: u32) -> anyhow::Result<()> {
    let delta = delta(rt.alloc())?;
    let (mut rows, mut maps) = begin(rt.alloc())?;
    pay_each(&mut rows, &mut maps, &delta, false)?;
    println!(rt; "pays on one row by 64 transactions:")?;
    measure_both(rt, &mut rows, &mut maps, &delta, rounds)?;
    pay_all(&mut rows, &mut maps, &delta, false, ENDED)?;
    let ended = 64 * ENDED;
    println!(rt; "after {ended} more transactions:")?;
    measure_both(rt, &mut rows, &mut maps, &delta, rounds)
}
