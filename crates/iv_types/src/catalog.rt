//! What a database defines: tables, indexes and views.
ghost use Rattle.std.specs.Prelude.{◌≡◌, ◌+◌, ◌≤◌, ◌++◌, ◌↔◌, [], ◌∷◌, length, None, IsTrue, IfSome, IfOk, OnOk, OnErr};
ghost use Rattle.std.specs.Option.{option_copied};
ghost use Rattle.iv_types.specs.Definitions.{AreNumbered, AreNamed, AreFew, CanAdd, are_alike, how_many_alike, number_of, name_of, numbered, named};

use crate::{Bytes, ColumnAtList, ColumnList, Expr, MOST_OBJECTS, NameList, NoMemory, Places};
use indexmap::IndexMap;
use std::alloc::Global;
use std::marker::Model;

/// A table. Its object number is that of its primary index too.
#[derive(Drop)]
pub struct TableDef {
    pub number: u32,
    pub name: Bytes,
    pub columns: ColumnList,
    /// The columns of the primary key.
    pub primary: Places,
}

/// An index that CREATE INDEX made.
#[derive(Drop)]
pub struct IndexDef {
    pub number: u32,
    pub name: Bytes,
    pub table: u32,
    pub columns: Places,
}

/// The second table of a join view.
#[derive(Drop)]
pub struct Second {
    pub table: u32,
    /// The first table's columns that are equal to the second's primary key, in the key's order.
    pub joined: Places,
    /// The index of the first table that begins with these columns.
    pub index: u32,
}

/// A view. Its object number is that of its index too.
#[derive(Drop)]
pub struct ViewDef {
    pub number: u32,
    pub name: Bytes,
    /// The names of its columns: the group columns, the count and the sums.
    pub names: NameList,
    pub first: u32,
    pub second: Option<Second>,
    pub condition: Option<Expr>,
    pub group: ColumnAtList,
    pub sums: ColumnAtList,
}

/// What an object number stands for.
#[derive(Drop)]
pub enum Definition {
    Table(TableDef),
    Index(IndexDef),
    View(ViewDef),
}

impl Definition {
    /// The object number.
    pub fn number(&self) -> u32
        ensures { result ≡ number_of self.now }
    {
        match self {
            Definition::Table(table) => table.number,
            Definition::Index(index) => index.number,
            Definition::View(view) => view.number,
        }
    }

    /// The name.
    pub fn name(&self) -> &Bytes
        ensures { result.now ≡ name_of self.now }
    {
        match self {
            Definition::Table(table) => &table.name,
            Definition::Index(index) => &index.name,
            Definition::View(view) => &view.name,
        }
    }

    // Whether both are tables, indexes or views.
    fn is_alike(&self, other: &Definition) -> bool
        ensures { result ≡ are_alike self.now other.now }
    {
        match (self, other) {
            (Definition::Table(_), Definition::Table(_)) => true,
            (Definition::Index(_), Definition::Index(_)) => true,
            (Definition::View(_), Definition::View(_)) => true,
            _ => false,
        }
    }
}

// How many definitions are of the kind of this one.
fn how_many_alike(definition: &Definition, definitions: &[Definition]) -> usize
    ensures { result ≡ how_many_alike definition.now definitions.now }
{
    definitions
        .iter()
        .filter(|other| definition.is_alike(other))
        .count()
}

// A definition's name, as its key in a catalog.
fn name_key(alloc: Global, definition: &Definition) -> Result<Vec<u8>, NoMemory>
    ensures { IfOk result (λ key. key.items ≡ name_of definition.now) }
{
    Ok(definition.name().as_slice().to_vec(alloc)?)
}

// What a key stood for is let go here alone, which is costly to prove.
fn let_go_replaced(replaced: Option<Definition>) {
    let _ = replaced;
}

/// The definitions of a database, in the order in which they were made, and their names. No two have one name, and the
/// object numbers count them from 1. There are at most 64 tables, 64 indexes that CREATE INDEX made and 64 views.
#[derive(Drop)]
pub struct Catalog {
    named: IndexMap<Vec<u8>, Definition>,
}

impl Model for Catalog {
    ghost use Rattle.indexmap.specs.IndexMap.{values};
    ghost use Rattle.iv_types.specs.Definitions.{Definitions, AreFew, AreKept, AreNamed};
    ghost use Rattle.iv_types.specs.contracts.expression.Expr as expr;
    ghost use Rattle.std.specs.Coded.{codes};

    ghost Value = { Definitions };

    ghost coded = { Prim.hlevel (codes, expr.the_row.coded) };

    ghost view = { λ c. values c.named };

    ghost invariant = { λ c. AreKept 0 c.named.entries × AreFew (values c.named) × AreNamed (values c.named) };
}

impl Catalog {
    /// A catalog without definitions, which takes no memory.
    pub fn new(alloc: Global) -> Self
        ensures { result ≡ [] }
    {
        Catalog {
            named: IndexMap::new(alloc),
        }
    }

    /// How many definitions there are.
    pub fn len(&self) -> usize
        ensures { result ≡ length self.now }
    {
        self.named.len()
    }

    /// The definitions, in the order in which they were made.
    pub fn definitions(&self) -> &[Definition]
        ensures { result.now ≡ self.now }
    {
        self.named.values().as_slice()
    }

    /// That each definition has the number of its place. It does nothing.
    pub fn number_law(&self)
        ensures { AreNumbered self.now }
    {
        let _count = self.named.len();
    }

    /// The definition of an object number, if there is one.
    pub fn get(&self, number: u32) -> Option<&Definition>
        ensures value { option_copied result ≡ numbered self.now number }
        ensures number { IfSome result (λ d. number_of d.now ≡ number) }
    {
        if number == 0 {
            return None;
        }
        match self.named.get_index(number as usize - 1) {
            Some((_, definition)) => Some(definition),
            None => None,
        }
    }

    /// The definition that has a name, if there is one.
    pub fn find(&self, name: &[u8]) -> Option<&Definition>
        ensures { option_copied result ≡ named self.now name.now }
    {
        self.named.get(name)
    }

    /// The object number of the next definition.
    pub fn next_number(&self) -> u32
        ensures { result ≡ length self.now + 1 }
    {
        self.named.len() as u32 + 1
    }

    /// That each definition has a name of its own. It does nothing.
    pub fn name_law(&self)
        ensures { AreNamed self.now }
    {
        let _count = self.named.len();
    }

    /// That there are at most 64 definitions of each kind, and so at most 192. It does nothing.
    pub fn few_law(&self)
        ensures few { AreFew self.now }
        ensures all { length self.now ≤ 192 }
    {
        let _count = self.named.len();
    }

    /// Whether a definition can be added: it has the next object number and a name of its own, and there are fewer than 64
    /// of its kind.
    pub fn can_add(&self, definition: &Definition) -> bool
        ensures { IsTrue result ↔ CanAdd self.now definition.now }
    {
        definition.number() == self.next_number()
            && self.find(definition.name().as_slice()).is_none()
            && how_many_alike(definition, self.definitions()) < MOST_OBJECTS as usize
    }

    /// Adds a definition.
    ///
    /// # Errors
    ///
    /// Where there is no memory for it.
    pub fn add(&mut self, definition: Definition) -> Result<(), NoMemory>
        requires { CanAdd self.old definition }
        ensures ok { OnOk result (self.new ≡ self.old ++ definition ∷ []) }
        ensures err { OnErr result (self.new ≡ self.old) }
    {
        match name_key(*self.named.allocator(), &definition) {
            Ok(name) => {
                let replaced = self.named.insert(name, definition)?;
                let_go_replaced(replaced);
                Ok(())
            }
            Err(error) => {
                definition.let_go();
                Err(error)
            }
        }
    }

    /// Takes the last definition away again, and gives it.
    pub fn remove_last(&mut self) -> Option<Definition>
        ensures some { IfSome result (λ d. self.old ≡ self.new ++ d ∷ []) }
        ensures none { result ≡ None → (self.old ≡ []) × (self.new ≡ self.old) }
    {
        match self.named.pop() {
            Some((_, definition)) => Some(definition),
            None => None,
        }
    }
}

impl Definition {
    /// Lets a definition go. Its drop is proved here, so that no crate above proves it again.
    pub fn let_go(self) {
        let _ = self;
    }
}

impl Catalog {
    /// Lets a catalog go. Its drop is proved here, so that no crate above proves it again.
    pub fn let_go(self) {
        let _ = self;
    }
}
