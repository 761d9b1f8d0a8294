//! Statements as they are parsed. Names are in lower case.
ghost use Rattle.std.specs.Prelude.{◌≡◌, IfOk};

use crate::{Bytes, Expr, ExprList, Kind, NameList, NoMemory, Ref, RefList, Sequence};
use std::alloc::Global;

/// How a transaction reads: serializable by locks, or a snapshot that writes nothing.
#[derive(Clone, Copy, PartialEq, Eq)]
pub enum Mode {
    Serial,
    Snapshot,
}

/// A column of a table.
#[derive(Drop)]
pub struct ColumnDef {
    pub name: Bytes,
    pub kind: Kind,
}

impl ColumnDef {
    /// The same column again.
    ///
    /// # Errors
    ///
    /// Where there is no memory for it.
    pub fn copied(&self, alloc: Global) -> Result<ColumnDef, NoMemory>
        ensures { IfOk result (λ copy. copy ≡ self.now) }
    {
        Ok(ColumnDef {
            name: self.name.copied(alloc)?,
            kind: self.kind,
        })
    }
}

/// The columns of a table, in order.
pub type ColumnList = Sequence<ColumnDef>;

/// The same columns again.
///
/// # Errors
///
/// Where there is no memory for them.
pub fn copied_columns(alloc: Global, columns: &[ColumnDef]) -> Result<ColumnList, NoMemory>
    ensures { IfOk result (λ copy. copy ≡ columns.now) }
{
    let mut copy = ColumnList::new(alloc);
    for column in columns {
        copy.push(column.copied(alloc)?)?;
    }
    Ok(copy)
}

/// The tuples of an INSERT.
pub type TupleList = Sequence<ExprList>;

/// A relation of FROM: a table or a view, and the name by which the statement calls it where that is another.
#[derive(Drop)]
pub struct Relation {
    pub name: Bytes,
    pub alias: Option<Bytes>,
}

/// A further relation of FROM and its ON condition.
#[derive(Drop)]
pub struct Join {
    pub relation: Relation,
    pub on: Expr,
}

/// The further relations of FROM.
pub type JoinList = Sequence<Join>;

/// An item of a SELECT, with the name that AS gives it.
#[derive(Drop)]
pub enum Item {
    /// `*`: all columns of FROM.
    All,
    /// `COUNT(*)`.
    Count(Option<Bytes>),
    /// `SUM(column)`.
    Sum(Ref, Option<Bytes>),
    Plain(Expr, Option<Bytes>),
}

/// The items of a SELECT.
pub type ItemList = Sequence<Item>;

/// A query, without its ORDER BY. An empty `group` means that it has no GROUP BY.
#[derive(Drop)]
pub struct Query {
    pub items: ItemList,
    pub first: Relation,
    pub joins: JoinList,
    pub condition: Option<Expr>,
    pub group: RefList,
}

/// By what an ORDER BY sorts: the item of this number, counted from 1, or the item of this name.
#[derive(Drop)]
pub enum OrderKey {
    Place(i128),
    Name(Bytes),
}

/// One term of an ORDER BY.
#[derive(Drop)]
pub struct Order {
    pub by: OrderKey,
    pub descending: bool,
}

/// The terms of an ORDER BY.
pub type OrderList = Sequence<Order>;

/// One assignment of an UPDATE.
#[derive(Drop)]
pub struct Set {
    pub name: Bytes,
    pub value: Expr,
}

/// The assignments of an UPDATE.
pub type SetList = Sequence<Set>;

/// A statement.
#[derive(Drop)]
pub enum Statement {
    CreateTable {
        name: Bytes,
        columns: ColumnList,
        primary: NameList,
    },
    CreateIndex {
        name: Bytes,
        table: Bytes,
        columns: NameList,
    },
    CreateView {
        name: Bytes,
        query: Query,
    },
    Insert {
        table: Bytes,
        tuples: TupleList,
    },
    Update {
        table: Bytes,
        sets: SetList,
        condition: Option<Expr>,
    },
    Delete {
        table: Bytes,
        condition: Option<Expr>,
    },
    Select {
        query: Query,
        order: OrderList,
    },
    Begin(Mode),
    Commit,
    Rollback {
        to: Option<Bytes>,
    },
    Savepoint {
        name: Bytes,
    },
}

impl Query {
    /// Lets a query go. Its drop is proved here, so that no crate above proves it again.
    pub fn let_go(self) {
        let _ = self;
    }
}

impl Statement {
    /// Lets a statement go. Its drop is proved here, so that no crate above proves it again.
    pub fn let_go(self) {
        match self {
            Statement::CreateView { name: _, query } => query.let_go(),
            Statement::Select { query, order: _ } => query.let_go(),
            _ => {}
        }
    }
}
