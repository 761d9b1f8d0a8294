//! The entries that a definition begins with.
ghost use Rattle.std.specs.Prelude.{◌≡◌, ◌++◌, ◌∷◌, ◌⊎◌, [], List, map, IfOk, IfErr};
ghost use Rattle.std.specs.List.{AllByRecursion};
ghost use Rattle.std.specs.Option.{option_map};
ghost use Rattle.iv_types.specs.declared.refusal.Refusal.TheVariants as refused;
ghost use Rattle.iv_meaning.specs.Database.{Database, rows_of};
ghost use Rattle.iv_meaning.specs.Objects.{object_of, view_tree};
ghost use Rattle.iv_meaning.specs.Schema.{sources_of};
ghost use Rattle.iv_meaning.specs.Schema as schema;
ghost use Rattle.iv_meaning.specs.Sound.{IsTable};
ghost use Rattle.iv_meaning.specs.Statement.{Refused, create_meaning};
ghost use Rattle.iv_meaning.specs.View.{whole_view};
ghost use Rattle.row_eval.specs.Fresh.{table_rows, view_row};
ghost use Rattle.row_eval.specs.Grouped.{Gives};
ghost use Rattle.txn_machine.specs.ViewLaws.{AreSound};
ghost use Rattle.data_store.specs.Contents.{Contents};
ghost use Rattle.data_store.specs.Reading.{CanBeRead};
ghost use Rattle.data_defining.specs.Defining.{view_entry, AreFirst, CanEvaluate, CanReadView};

use data_store::DataStore;
use ghost_rows::numbers::bytes_of;
use iv_types::{
    Bytes, Definition, IndexDef, IndexEntry, IndexEntryList, Interval, NoMemory, NumberList,
    Refusal, RowsOf, SortedMaps, TableRows, ViewDef, ViewRow, ViewRowList,
};
use row_eval::kept_rows;
use std::alloc::Global;
use table_store::table_of;

// The rows of a table.
fn rows_of_table<M: SortedMaps>(store: &DataStore<M>, table: u32) -> Result<RowsOf, NoMemory>
    requires { (c : Contents) × CanBeRead store.now.catalog (M.maps store.now.tables) store.now.views c × IsTable c.objects table }
    ensures { IfOk result (λ rows. (c : Contents) → CanBeRead store.now.catalog (M.maps store.now.tables) store.now.views c → AreSound c.objects c.rows
        → rows ≡ record { table = table; rows = rows_of c.rows table }) }
{
    let whole = Interval {
        low: Bytes::new(store.alloc),
        high: None,
    };
    let rows = store.found(table, &whole)?;
    Ok(RowsOf { table, rows })
}

// The rows of the tables of a view.
fn rows_of_tables<M: SortedMaps>(
    store: &DataStore<M>,
    view: &ViewDef,
) -> Result<TableRows, NoMemory>
    requires { (c : Contents) × CanBeRead store.now.catalog (M.maps store.now.tables) store.now.views c × AllByRecursion (IsTable c.objects) (sources_of (view_tree view.now)) }
    ensures { IfOk result (λ tables. (c : Contents) → CanBeRead store.now.catalog (M.maps store.now.tables) store.now.views c → AreSound c.objects c.rows
        → map (table_rows tables) (sources_of (view_tree view.now)) ≡ map (rows_of c.rows) (sources_of (view_tree view.now))) }
{
    let mut tables = TableRows::new(store.alloc);
    tables.push(rows_of_table(store, view.first)?)?;
    if let Some(second) = &view.second {
        tables.push(rows_of_table(store, second.table)?)?;
    }
    Ok(tables)
}

/// The rows of a view, new or of the catalog, evaluated whole on the rows of its tables.
///
/// # Errors
///
/// `NumberRange` where the rows can't be evaluated; `NoMemory`.
pub fn rows_of_view<M: SortedMaps>(
    store: &DataStore<M>,
    view: &ViewDef,
) -> Result<ViewRowList, Refusal>
    requires { (c : Contents) × CanReadView store.now.catalog (M.maps store.now.tables) store.now.views (view_tree view.now) c }
    ensures { (c : Contents) → CanReadView store.now.catalog (M.maps store.now.tables) store.now.views (view_tree view.now) c
        → Gives (option_map (map (view_row c.objects (view_tree view.now))) (whole_view c.objects c.rows (view_tree view.now))) result }
{
    let tables = rows_of_tables(store, view)?;
    kept_rows(store.alloc, &store.catalog, view, &tables)
}

// The numbers of a row: its count and its sums.
fn numbers_of(alloc: Global, count: i128, sums: &[i128]) -> Result<NumberList, NoMemory>
    ensures { IfOk result (λ numbers. numbers ≡ count ∷ sums.now) }
{
    let mut numbers = NumberList::new(alloc);
    numbers.push(count)?;
    for index in 0..sums.len() {
        numbers.push(sums[index])?;
    }
    Ok(numbers)
}

// A row of a view as an entry of the view's index.
fn view_entry(alloc: Global, number: u32, row: ViewRow) -> Result<IndexEntry, NoMemory>
    ensures { IfOk result (λ entry. entry ≡ view_entry number row) }
{
    let ViewRow { group, count, sums } = row;
    let numbers = numbers_of(alloc, count, sums.as_slice())?;
    let value = bytes_of(alloc, numbers.as_slice())?;
    Ok(IndexEntry {
        index: number,
        key: group,
        value,
    })
}

// The rows of a view as entries of the view's index.
fn view_entries(alloc: Global, number: u32, rows: ViewRowList) -> Result<IndexEntryList, NoMemory>
    ensures { IfOk result (λ entries. entries ≡ map (view_entry number) rows) }
{
    let mut entries = IndexEntryList::new(alloc);
    for row in rows.into_vec() {
        entries.push(view_entry(alloc, number, row)?)?;
    }
    Ok(entries)
}

// The entries of a new index.
fn index_entries<M: SortedMaps>(
    store: &DataStore<M>,
    index: &IndexDef,
) -> Result<IndexEntryList, NoMemory>
    requires { (c : Contents) × CanEvaluate store.now.catalog (M.maps store.now.tables) store.now.views (schema.index index.now) c }
    ensures { IfOk result (λ entries. (c : Contents) → CanEvaluate store.now.catalog (M.maps store.now.tables) store.now.views (schema.index index.now) c
        → AreFirst store.now.catalog (M.maps store.now.tables) c (Definition.Index index.now) entries) }
{
    store.catalog.number_law();
    let table = table_of(&store.catalog, index.table);
    store.tables.index_entries(table, index)
}

/// The entries that a definition begins with: those of an index are made of its table's rows, and those of a view are its rows,
/// evaluated whole.
///
/// # Errors
///
/// `NumberRange` where the rows of a view can't be evaluated; `NoMemory`.
pub fn first_entries<M: SortedMaps>(
    store: &DataStore<M>,
    definition: &Definition,
) -> Result<IndexEntryList, Refusal>
    requires { (c : Contents) × CanEvaluate store.now.catalog (M.maps store.now.tables) store.now.views (object_of definition.now) c }
    ensures first { IfOk result (λ entries. (c : Contents) → CanEvaluate store.now.catalog (M.maps store.now.tables) store.now.views (object_of definition.now) c
        → AreFirst store.now.catalog (M.maps store.now.tables) c definition.now entries) }
    ensures refused { IfErr result (λ why. (c : Contents) (db : Database) → CanEvaluate store.now.catalog (M.maps store.now.tables) store.now.views (object_of definition.now) c
        → db.schema ≡ c.objects → db.rows ≡ c.rows → (why ≡ refused.NoMemory) ⊎ (create_meaning (object_of definition.now) db ≡ Refused why)) }
{
    match definition {
        Definition::Table(_) => Ok(IndexEntryList::new(store.alloc)),
        Definition::Index(index) => Ok(index_entries(store, index)?),
        Definition::View(view) => {
            let rows = rows_of_view(store, view)?;
            Ok(view_entries(store.alloc, view.number, rows)?)
        }
    }
}
