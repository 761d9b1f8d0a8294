//! Copies of definitions and of catalogs.
ghost use Rattle.std.specs.Prelude.{◌≡◌, IfOk};
ghost use Rattle.iv_types.specs.Definitions.{IsCopy, AreCopies, IsViewCopy};

use crate::{
    Bytes, Catalog, Definition, IndexDef, NameList, NoMemory, Second, TableDef, ViewDef,
    copied_columns, copied_condition,
};
use std::alloc::Global;

fn copied_names(alloc: Global, names: &[Bytes]) -> Result<NameList, NoMemory>
    ensures { IfOk result (λ copy. copy ≡ names.now) }
{
    let mut copy = NameList::new(alloc);
    for name in names {
        copy.push(name.copied(alloc)?)?;
    }
    Ok(copy)
}

impl TableDef {
    /// The same definition again.
    ///
    /// # Errors
    ///
    /// Where there is no memory for it.
    pub fn copied(&self, alloc: Global) -> Result<TableDef, NoMemory>
        ensures { IfOk result (λ copy. copy ≡ self.now) }
    {
        Ok(TableDef {
            number: self.number,
            name: self.name.copied(alloc)?,
            columns: copied_columns(alloc, self.columns.as_slice())?,
            primary: self.primary.copied(alloc)?,
        })
    }
}

impl IndexDef {
    /// The same definition again.
    ///
    /// # Errors
    ///
    /// Where there is no memory for it.
    pub fn copied(&self, alloc: Global) -> Result<IndexDef, NoMemory>
        ensures { IfOk result (λ copy. copy ≡ self.now) }
    {
        Ok(IndexDef {
            number: self.number,
            name: self.name.copied(alloc)?,
            table: self.table,
            columns: self.columns.copied(alloc)?,
        })
    }
}

fn copied_second(alloc: Global, second: &Option<Second>) -> Result<Option<Second>, NoMemory>
    ensures { IfOk result (λ copy. copy ≡ second.now) }
{
    match second {
        Some(second) => Ok(Some(Second {
            table: second.table,
            joined: second.joined.copied(alloc)?,
            index: second.index,
        })),
        None => Ok(None),
    }
}

impl ViewDef {
    /// The same definition again.
    ///
    /// # Errors
    ///
    /// Where there is no memory for it.
    pub fn copied(&self, alloc: Global) -> Result<ViewDef, NoMemory>
        ensures { IfOk result (λ copy. IsViewCopy copy self.now) }
    {
        Ok(ViewDef {
            number: self.number,
            name: self.name.copied(alloc)?,
            names: copied_names(alloc, self.names.as_slice())?,
            first: self.first,
            second: copied_second(alloc, &self.second)?,
            condition: copied_condition(alloc, &self.condition)?,
            group: self.group.copied(alloc)?,
            sums: self.sums.copied(alloc)?,
        })
    }
}

impl Definition {
    /// The same definition again.
    ///
    /// # Errors
    ///
    /// Where there is no memory for it.
    pub fn copied(&self, alloc: Global) -> Result<Definition, NoMemory>
        ensures { IfOk result (λ copy. IsCopy copy self.now) }
    {
        match self {
            Definition::Table(table) => Ok(Definition::Table(table.copied(alloc)?)),
            Definition::Index(index) => Ok(Definition::Index(index.copied(alloc)?)),
            Definition::View(view) => Ok(Definition::View(view.copied(alloc)?)),
        }
    }
}

impl Catalog {
    /// The same catalog again.
    ///
    /// # Errors
    ///
    /// Where there is no memory for it.
    pub fn copied(&self, alloc: Global) -> Result<Catalog, NoMemory>
        ensures { IfOk result (λ copy. AreCopies copy self.now) }
    {
        self.number_law();
        self.name_law();
        self.few_law();
        let mut copy = Catalog::new(alloc);
        for definition in self.definitions() {
            copy.add(definition.copied(alloc)?)?;
        }
        Ok(copy)
    }
}
