//! Ghosts of the group 7 of the view 1, what is committed of its row, and the candidates.
ghost use Rattle.std.specs.Prelude.{◌≡◌, [], ◌∷◌, OnOk};
ghost use Rattle.std.specs.FinMap as map;
ghost use Rattle.table_store.specs.Lists.{map_at};
ghost use Rattle.ghost_rows.specs.Kept.{Pays, no_pays};
ghost use Rattle.ghost_rows.specs.State.{AreKept};

use crate::pay_steps::without_row;
use anyhow::bail;
use case_text::{write_hexadecimal, write_numbers};
use ghost_rows::ViewRows;
use iv_types::{NoMemory, NumberList, SortedMaps};
use std::alloc::Global;
use std::fmt::Write;
use std::mem::forget;
use table_store::ListMaps;

/// Makes the row of zeros, which is not stored yet.
pub fn make(rows: &mut ViewRows, maps: &mut ListMaps) -> anyhow::Result<()>
    requires kept { (pays : Pays) × AreKept rows.old (map_at maps.old) (1, 7 ∷ []) 2 pays }
    ensures kept { OnOk result ((pays : Pays) × AreKept rows.new (map_at maps.new) (1, 7 ∷ []) 2 pays) }
{
    if maps.get(1, &[7]).is_some() {
        bail!("the row is stored");
    }
    rows.make_ghost(maps, 1, &[7], 1, 0)?;
    Ok(())
}

/// Adds a candidate at the row.
pub fn add(rows: &mut ViewRows, maps: &ListMaps) -> anyhow::Result<()>
    requires kept { (pays : Pays) × AreKept rows.old (map_at maps.now) (1, 7 ∷ []) 2 pays }
    ensures kept { OnOk result ((pays : Pays) × AreKept rows.new (map_at maps.now) (1, 7 ∷ []) 2 pays) }
{
    rows.add_candidate(1, &[7])?;
    Ok(())
}

/// Drops the candidate at the row unless that is a ghost. Whether it is one.
pub fn drop_unless_ghost(rows: &mut ViewRows, maps: &ListMaps) -> bool
    requires kept { (pays : Pays) × AreKept rows.old (map_at maps.now) (1, 7 ∷ []) 2 pays }
    ensures kept { (pays : Pays) × AreKept rows.new (map_at maps.now) (1, 7 ∷ []) 2 pays }
{
    rows.drop_unless_ghost(maps, 1, &[7])
}

fn write_found(out: &mut String, found: &Option<NumberList>) -> anyhow::Result<()> {
    match found {
        Some(numbers) => write_numbers(out, numbers.as_slice()),
        None => {
            out.push_str("nothing")?;
            Ok(())
        }
    }
}

/// Writes the committed count and the committed sum.
pub fn write_committed(out: &mut String, rows: &ViewRows, maps: &ListMaps) -> anyhow::Result<()>
    requires kept { (pays : Pays) × AreKept rows.now (map_at maps.now) (1, 7 ∷ []) 2 pays }
{
    let found = rows.committed(maps, 1, &[7])?;
    let told = write_found(out, &found);
    forget(found);
    told
}

// Writes a place.
fn write_place(out: &mut String, place: Option<(u32, &[u8])>) -> anyhow::Result<()> {
    match place {
        Some((view, group)) => {
            write!(out, "{view} ")?;
            write_hexadecimal(out, group)
        }
        None => {
            out.push_str("none")?;
            Ok(())
        }
    }
}

/// Writes the first candidate at the place 1 07, and the first one behind it.
pub fn write_candidates(out: &mut String, rows: &ViewRows) -> anyhow::Result<()> {
    write_place(out, rows.first_candidate(1, &[7]))?;
    out.push_str(", ")?;
    write_place(out, rows.next_candidate(1, &[7]))
}

// Writes the candidates where the row is made, and those where it is removed again.
fn write_both(out: &mut String, rows: &mut ViewRows, maps: &mut ListMaps) -> anyhow::Result<()>
    requires kept { AreKept rows.old (map_at maps.old) (1, 7 ∷ []) 2 no_pays }
    requires none { map_at maps.old 1 ≡ map.empty }
{
    rows.make_ghost(maps, 1, &[7], 1, 0)?;
    write_candidates(out, rows)?;
    rows.remove_ghost(maps, 1, &[7]);
    out.push_str(", then ")?;
    write_candidates(out, rows)?;
    let left = if maps.get(1, &[7]).is_some() {
        " and a row"
    } else {
        " and no row"
    };
    out.push_str(left)?;
    Ok(())
}

/// Writes the candidates where the row is made in maps of its own, and those where it is removed again.
pub fn write_removed(alloc: Global, out: &mut String) -> anyhow::Result<()> {
    let (mut rows, mut maps) = without_row(alloc)?;
    let told = write_both(out, &mut rows, &mut maps);
    forget(rows);
    forget(maps);
    told
}

// Writes the first candidates of all, in their order.
fn write_walk_of(out: &mut String, rows: &ViewRows) -> anyhow::Result<()> {
    let mut next = rows.first_candidate(0, &[]);
    for _turn in 0..8 {
        if let Some((view, group)) = next {
            write!(out, "{view} ")?;
            write_hexadecimal(out, group)?;
            out.push_str(", ")?;
            next = rows.next_candidate(view, group);
        }
    }
    write_place(out, next)
}

fn add_four(rows: &mut ViewRows) -> Result<(), NoMemory> {
    rows.add_candidate(2, &[7])?;
    rows.add_candidate(1, &[8])?;
    rows.add_candidate(1, &[7, 1])?;
    rows.add_candidate(1, &[7])?;
    rows.add_candidate(1, &[8])
}

/// Writes candidates that were added in another order, in theirs.
pub fn write_walk(alloc: Global, out: &mut String) -> anyhow::Result<()> {
    let mut rows = ViewRows::new(alloc)?;
    let added = add_four(&mut rows);
    let told = write_walk_of(out, &rows);
    forget(rows);
    added?;
    told
}
