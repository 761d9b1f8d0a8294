//! Statements whose names are numbers: objects by their object numbers, columns by their relation's place in FROM and their
//! own place in it, each counted from 0.
use crate::{
    ColumnAt, ColumnAtList, Expr, ExprList, IndexDef, ObjectNumbers, Sequence, TableDef, TupleList,
    ViewDef,
};

/// An assignment of an UPDATE, to the column of this place.
#[derive(Drop)]
pub struct BoundSet {
    pub column: usize,
    pub value: Expr,
}

/// The assignments of an UPDATE.
pub type BoundSetList = Sequence<BoundSet>;

/// An item of a SELECT.
#[derive(Drop)]
pub enum BoundItem {
    Count,
    Sum(ColumnAt),
    Plain(Expr),
}

/// The items of a SELECT, `*` standing for all columns of FROM.
pub type BoundItemList = Sequence<BoundItem>;

/// One term of an ORDER BY: the item's place, counted from 0.
#[derive(Clone, Copy, Debug)]
pub struct BoundOrder {
    pub item: usize,
    pub descending: bool,
}

/// The terms of an ORDER BY.
pub type BoundOrderList = Sequence<BoundOrder>;

/// An INSERT.
#[derive(Drop)]
pub struct BoundInsert {
    pub table: u32,
    pub tuples: TupleList,
}

/// An UPDATE.
#[derive(Drop)]
pub struct BoundUpdate {
    pub table: u32,
    pub sets: BoundSetList,
    pub condition: Option<Expr>,
}

/// A DELETE.
#[derive(Drop)]
pub struct BoundDelete {
    pub table: u32,
    pub condition: Option<Expr>,
}

/// A SELECT.
#[derive(Drop)]
pub struct BoundSelect {
    /// In FROM order.
    pub relations: ObjectNumbers,
    /// The ON conditions in order, and then the WHERE if there is one.
    pub conditions: ExprList,
    pub items: BoundItemList,
    /// Empty where there is no GROUP BY.
    pub group: ColumnAtList,
    pub order: BoundOrderList,
}

/// A statement with numbers for names.
#[derive(Drop)]
pub enum Bound {
    Table(TableDef),
    Index(IndexDef),
    View(ViewDef),
    Insert(BoundInsert),
    Update(BoundUpdate),
    Delete(BoundDelete),
    Select(BoundSelect),
    /// BEGIN, COMMIT, ROLLBACK, SAVEPOINT.
    Control,
}
