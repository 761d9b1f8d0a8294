//! Entries of several indexes, taken out of maps and put into them.
ghost use Rattle.std.specs.Prelude.{◌≡◌, ◌≢◌, ◌+◌, ◌≤◌, ℕ, [], OnOk};
ghost use Rattle.std.specs.List.{AllByRecursion};
ghost use Rattle.iv_types.specs.Maps.{IsWithin, used, last_index};
ghost use Rattle.table_store.specs.Entries.{AreApart, AreThere, AreAbsent, HavePlaces, TakesOut, PutsIn};
ghost use Rattle.iv_types.specs.declared.catalog.IndexDef.{IndexDef};
ghost use Rattle.iv_types.specs.declared.catalog.Definition.TheVariants as variant;
ghost use Rattle.table_store.specs.Stored.{IsIndexOf};
ghost use Rattle.table_store.specs.Changes.{sizes, how_many, CanHoldEach, CanExchange, Exchanges, TakesRoom};

use iv_types::{Catalog, Definition, IndexEntry, IndexEntryList, NoMemory, SortedMaps, TableDef};

// Takes entries out, at most one of each index, which leaves room for them.
fn take_out<M: SortedMaps>(maps: &mut M, entries: &[IndexEntry])
    requires apart { AreApart entries.now }
    requires there { AreThere (M.maps maps.old) entries.now }
    ensures out { TakesOut entries.now (M.maps maps.old) (M.maps maps.new) }
    ensures room { (n : ℕ) → M.spare maps.old n + how_many n entries.now ≤ M.spare maps.new n }
    ensures count { AllByRecursion (λ e. e.index ≤ last_index) entries.now → used (M.maps maps.new) + sizes entries.now ≡ used (M.maps maps.old) }
    ensures limit { M.limit maps.new ≡ M.limit maps.old }
{
    for entry in entries {
        maps.remove(entry.index, entry.key.as_slice());
    }
}

// Puts entries in, at most one of each index, into room that was made.
fn put_in<M: SortedMaps>(maps: &mut M, entries: IndexEntryList)
    requires apart { AreApart entries }
    requires absent { AreAbsent (M.maps maps.old) entries }
    requires places { HavePlaces (M.spare maps.old) entries }
    requires held { CanHoldEach entries }
    requires within { entries ≢ [] → IsWithin (M.limit maps.old) (used (M.maps maps.old) + sizes entries) }
    ensures put { PutsIn entries (M.maps maps.old) (M.maps maps.new) }
    ensures room { (n : ℕ) → M.spare maps.old n ≤ M.spare maps.new n + how_many n entries }
    ensures limit { M.limit maps.new ≡ M.limit maps.old }
{
    let mut left = entries.into_vec();
    while let Some(IndexEntry { index, key, value }) = left.pop() {
        maps.insert(index, key, value);
    }
}

/// Takes entries out and puts others in, which takes no memory.
pub fn exchange<M: SortedMaps>(maps: &mut M, gone: &[IndexEntry], made: IndexEntryList)
    requires { CanExchange (M.maps maps.old) (M.spare maps.old) (M.limit maps.old) gone.now made }
    ensures moved { Exchanges gone.now made (M.maps maps.old) (M.maps maps.new) }
    ensures spare { TakesRoom (M.spare maps.old) (M.spare maps.new) gone.now made }
    ensures limit { M.limit maps.new ≡ M.limit maps.old }
{
    take_out(maps, gone);
    put_in(maps, made);
}

// Makes room in an index where a definition is that of one of the table.
fn make_room_of<M: SortedMaps>(
    maps: &mut M,
    definition: &Definition,
    table: &TableDef,
    more: u32,
) -> Result<(), NoMemory>
    ensures room { OnOk result ((i : IndexDef) → definition.now ≡ variant.Index i → i.table ≡ table.now.number → more ≤ M.spare maps.new i.number) }
    ensures maps { (n : ℕ) → M.maps maps.new n ≡ M.maps maps.old n }
    ensures spare { (n : ℕ) → M.spare maps.old n ≤ M.spare maps.new n }
    ensures limit { M.limit maps.new ≡ M.limit maps.old }
{
    match definition {
        Definition::Index(index) if index.table == table.number => maps.reserve(index.number, more),
        _ => Ok(()),
    }
}

/// Makes room for that many entries more in each index of a table. An `Err` takes no room away.
///
/// # Errors
///
/// Where there is no memory for them.
pub fn make_room<M: SortedMaps>(
    maps: &mut M,
    catalog: &Catalog,
    table: &TableDef,
    more: u32,
) -> Result<(), NoMemory>
    ensures primary { OnOk result (more ≤ M.spare maps.new table.now.number) }
    ensures secondary { OnOk result ((i : IndexDef) → IsIndexOf catalog.now table.now i → more ≤ M.spare maps.new i.number) }
    ensures maps { (n : ℕ) → M.maps maps.new n ≡ M.maps maps.old n }
    ensures spare { (n : ℕ) → M.spare maps.old n ≤ M.spare maps.new n }
    ensures limit { M.limit maps.new ≡ M.limit maps.old }
{
    catalog.number_law();
    maps.reserve(table.number, more)?;
    for definition in catalog.definitions() {
        make_room_of(maps, definition, table, more)?;
    }
    Ok(())
}
