//! What a statement sees, and what it is resolved to.
use iv_types::{
    BoundItem, BoundSetList, Bytes, ColumnAt, ColumnAtList, ColumnDef, Definition, Expr, Order,
    Places, Sequence, TupleList,
};

/// A column of a relation that a statement sees.
#[derive(Drop)]
pub struct Column<'a> {
    /// What the statement calls its relation.
    pub relation: &'a Bytes,
    pub name: &'a Bytes,
    pub place: ColumnAt,
}

/// The relations that a statement sees, in FROM order, and all their columns.
#[derive(Drop)]
pub struct Scope<'a> {
    /// What the statement calls them.
    pub relations: Sequence<&'a Bytes>,
    pub columns: Sequence<Column<'a>>,
}

/// An item and its name, if it has one.
#[derive(Drop)]
pub struct NamedItem<'a> {
    pub item: BoundItem,
    pub name: Option<&'a Bytes>,
}

/// A relation behind JOIN and its condition.
#[derive(Drop)]
pub struct Joined<'a> {
    pub object: &'a Definition,
    pub on: Expr,
}

/// A query with objects and places for names.
#[derive(Drop)]
pub struct ResolvedQuery<'a> {
    /// `*` stands for all columns of FROM.
    pub items: Sequence<NamedItem<'a>>,
    pub first: &'a Definition,
    pub joins: Sequence<Joined<'a>>,
    pub condition: Option<Expr>,
    /// Empty where there is no GROUP BY.
    pub group: ColumnAtList,
}

/// A statement with objects and places for names.
#[derive(Drop)]
pub enum Resolved<'a> {
    Table {
        name: &'a Bytes,
        columns: &'a [ColumnDef],
        primary: Places,
    },
    Index {
        name: &'a Bytes,
        target: &'a Definition,
        columns: Places,
    },
    View {
        name: &'a Bytes,
        query: ResolvedQuery<'a>,
    },
    Insert {
        target: &'a Definition,
        tuples: TupleList,
    },
    Update {
        target: &'a Definition,
        sets: BoundSetList,
        condition: Option<Expr>,
    },
    Delete {
        target: &'a Definition,
        condition: Option<Expr>,
    },
    Select {
        query: ResolvedQuery<'a>,
        order: &'a [Order],
    },
    /// BEGIN, COMMIT, ROLLBACK, SAVEPOINT.
    Control,
}

impl Resolved<'_> {
    /// Lets it go, here alone, since that is costly to prove.
    pub fn let_go(self) {
        let _ = self;
    }
}
