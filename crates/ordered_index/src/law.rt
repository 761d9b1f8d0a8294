//! Laws of sorted maps.
ghost use Rattle.std.specs.Prelude.{◌≡◌, ◌≢◌, ℕ, ◌+◌, ◌≤◌, List, None, IsSome, IfOk, OnOk, OnErr};
ghost use Rattle.std.specs.FinMap as map;
ghost use Rattle.std.specs.Option.{option_copied, option_map};
ghost use Rattle.iv_types.specs.Maps.{CanHold, IsWithin, used, with_map};
ghost use Rattle.ordered_index.specs.Calls.{CanPut, CanCall, CanRun, maps_after, maps_after_all, room_after, answer_of, answers_of};
ghost use Rattle.ordered_index.specs.Bound.{PageBound};

use crate::calls::{MapAnswer, MapCall};
use iv_types::{Bytes, NoMemory, SortedMaps};
use std::alloc::Global;

/// The page bound: leaves in order of which no two neighbours of one index fit into one page leave 63 pages free where
/// their entries are within the limit. So an insert finds a page.
pub fn page_bound()
    ensures { PageBound }
{}

// The same bytes again.
fn copied(alloc: Global, bytes: &[u8]) -> Result<Bytes, NoMemory>
    ensures { IfOk result (λ copy. copy ≡ bytes.now) }
{
    Ok(Bytes::from_vec(Vec::from_slice(alloc, bytes)?))
}

// The same value again, if there is one.
fn copied_value(alloc: Global, value: Option<&[u8]>) -> Result<Option<Bytes>, NoMemory>
    ensures { IfOk result (λ copy. copy ≡ option_copied value.entry) }
{
    match value {
        Some(value) => Ok(Some(copied(alloc, value)?)),
        None => Ok(None),
    }
}

// The same entry again, if there is one.
fn copied_entry(
    alloc: Global,
    entry: Option<(&[u8], &[u8])>,
) -> Result<Option<(Bytes, Bytes)>, NoMemory>
    ensures { IfOk result (λ copy. copy ≡ option_map (λ e. (e.0.now, e.1.now)) entry.entry) }
{
    match entry {
        Some((key, value)) => {
            let key = copied(alloc, key)?;
            let value = copied(alloc, value)?;
            Ok(Some((key, value)))
        }
        None => Ok(None),
    }
}

// Does a call on sorted maps.
fn play<M: SortedMaps>(alloc: Global, maps: &mut M, call: &MapCall) -> Result<MapAnswer, NoMemory>
    requires { CanCall call.now (M.maps maps.old) (M.spare maps.old) (M.limit maps.old) }
    ensures answer { IfOk result (λ answer. answer ≡ answer_of call.now (M.maps maps.old)) }
    ensures maps { OnOk result ((i : ℕ) → M.maps maps.new i ≡ maps_after call.now (M.maps maps.old) i) }
    ensures room { OnOk result ((i : ℕ) → room_after call.now (M.spare maps.old) i ≤ M.spare maps.new i) }
    ensures limit { M.limit maps.new ≡ M.limit maps.old }
{
    match call {
        MapCall::Reserve(index, more) => {
            maps.reserve(*index, *more)?;
            Ok(MapAnswer::Done)
        }
        MapCall::Get(index, key) => {
            let value = copied_value(alloc, maps.get(*index, key.as_slice()))?;
            Ok(MapAnswer::Value(value))
        }
        MapCall::FirstAt(index, key) => {
            let entry = copied_entry(alloc, maps.first_at(*index, key.as_slice()))?;
            Ok(MapAnswer::Entry(entry))
        }
        MapCall::FirstAfter(index, key) => {
            let entry = copied_entry(alloc, maps.first_after(*index, key.as_slice()))?;
            Ok(MapAnswer::Entry(entry))
        }
        MapCall::Insert(index, key, value) => {
            let key = copied(alloc, key.as_slice())?;
            let value = copied(alloc, value.as_slice())?;
            maps.insert(*index, key, value);
            Ok(MapAnswer::Done)
        }
        MapCall::Replace(index, key, value) => {
            let value = copied(alloc, value.as_slice())?;
            maps.replace(*index, key.as_slice(), value);
            Ok(MapAnswer::Done)
        }
        MapCall::Remove(index, key) => {
            maps.remove(*index, key.as_slice());
            Ok(MapAnswer::Done)
        }
    }
}

/// Does calls on sorted maps, one after another. What they answer and leave is told by the calls alone, whatever the maps
/// are made of.
///
/// # Errors
///
/// Where a reserve answers so, or where there is no memory for an answer.
pub fn play_all<M: SortedMaps>(
    alloc: Global,
    maps: &mut M,
    calls: &[MapCall],
) -> Result<Vec<MapAnswer>, NoMemory>
    requires { CanRun calls.now (M.maps maps.old) (M.spare maps.old) (M.limit maps.old) }
    ensures answers { IfOk result (λ answers. answers.items ≡ answers_of calls.now (M.maps maps.old)) }
    ensures maps { OnOk result ((i : ℕ) → M.maps maps.new i ≡ maps_after_all calls.now (M.maps maps.old) i) }
{
    let mut answers = Vec::new(alloc);
    for call in calls {
        answers.push(play(alloc, maps, call)?)?;
    }
    Ok(answers)
}

/// The sorted maps law: the same calls on two kinds of sorted maps that hold the same give equal answers and leave equal
/// maps, those that the calls alone tell, unless a reserve answers with want of memory.
///
/// # Errors
///
/// Where a reserve answers so, or where there is no memory for an answer.
pub fn play_both<A: SortedMaps, B: SortedMaps>(
    alloc: Global,
    a: &mut A,
    b: &mut B,
    calls: &[MapCall],
) -> Result<(Vec<MapAnswer>, Vec<MapAnswer>), NoMemory>
    requires same { (i : ℕ) → A.maps a.old i ≡ B.maps b.old i }
    requires first { CanRun calls.now (A.maps a.old) (A.spare a.old) (A.limit a.old) }
    requires second { CanRun calls.now (B.maps b.old) (B.spare b.old) (B.limit b.old) }
    ensures answers { IfOk result (λ r. (r.0.items ≡ answers_of calls.now (A.maps a.old)) × (r.1.items ≡ answers_of calls.now (A.maps a.old))) }
    ensures maps { OnOk result ((i : ℕ) → (A.maps a.new i ≡ maps_after_all calls.now (A.maps a.old) i) × (B.maps b.new i ≡ maps_after_all calls.now (A.maps a.old) i)) }
{
    let first = play_all(alloc, a, calls)?;
    let second = play_all(alloc, b, calls)?;
    Ok((first, second))
}
