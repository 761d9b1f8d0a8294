//! Objects of a catalog.
use anyhow::bail;
use case_text::write_escaped;
use iv_types::{Bytes, Catalog, Definition, KindList, NoMemory};
use object_kinds::{group_kinds, kinds_at, kinds_of, kinds_of_table};
use std::alloc::Global;

/// The object of a name.
pub fn object_of<'a>(catalog: &'a Catalog, name: &str) -> anyhow::Result<&'a Definition> {
    match catalog.find(name.as_bytes()) {
        Some(definition) => Ok(definition),
        None => bail!("no object of this name"),
    }
}

/// Its number.
pub fn number_of(definition: &Definition) -> u32 {
    match definition {
        Definition::Table(table) => table.number,
        Definition::Index(index) => index.number,
        Definition::View(view) => view.number,
    }
}

/// Its name.
pub fn name_of(definition: &Definition) -> &Bytes {
    match definition {
        Definition::Table(table) => &table.name,
        Definition::Index(index) => &index.name,
        Definition::View(view) => &view.name,
    }
}

/// The kinds of the columns by which its index finds rows: of a table its primary key's, of a view its group's.
pub fn key_kinds(
    alloc: Global,
    catalog: &Catalog,
    definition: &Definition,
) -> Result<KindList, NoMemory> {
    match definition {
        Definition::Table(table) => {
            let kinds = kinds_of(alloc, table)?;
            kinds_at(alloc, kinds.as_slice(), table.primary.as_slice())
        }
        Definition::Index(index) => {
            let kinds = kinds_of_table(alloc, catalog, index.table)?;
            kinds_at(alloc, kinds.as_slice(), index.columns.as_slice())
        }
        Definition::View(view) => group_kinds(alloc, catalog, view),
    }
}

/// Writes the name of an object by its number.
pub fn write_name(out: &mut String, catalog: &Catalog, number: u32) -> anyhow::Result<()> {
    match catalog.get(number) {
        Some(definition) => write_escaped(out, name_of(definition).as_slice()),
        None => bail!("no object of this number"),
    }
}
