//! Values and rows.
ghost use Rattle.std.specs.Prelude.{◌≡◌, IfOk};

use crate::{Bytes, NoMemory, Sequence};
use std::alloc::Global;

/// The type of a column.
#[derive(Clone, Copy, PartialEq, Eq)]
pub enum Kind {
    /// Whole numbers of 64 bits.
    Int,
    /// Whole numbers from -(2^127 - 1) to 2^127 - 1, the HUGE range.
    Huge,
    /// Texts of up to 200 bytes of UTF-8.
    Text,
}

/// A list of column types.
pub type KindList = Sequence<Kind>;

/// A value of a column: a number where it is INT or HUGE, a text's bytes where it is TEXT. Texts are in the order of their
/// bytes.
#[derive(Debug, Drop, PartialEq, Eq, PartialOrd, Ord)]
pub enum Value {
    Number(i128),
    Word(Bytes),
}

impl Value {
    /// The same value again.
    pub fn copied(&self, alloc: Global) -> Result<Value, NoMemory>
        ensures { IfOk result (λ copy. copy ≡ self.now) }
    {
        match self {
            Value::Number(number) => Ok(Value::Number(*number)),
            Value::Word(word) => Ok(Value::Word(word.copied(alloc)?)),
        }
    }
}

/// The same row again.
pub fn copied_row(alloc: Global, row: &Row) -> Result<Row, NoMemory>
    ensures { IfOk result (λ copy. copy ≡ row.now) }
{
    let values = row.as_slice();
    let mut copy = Vec::with_capacity(alloc, values.len())?;
    for value in values {
        copy.push(value.copied(alloc)?)?;
    }
    Ok(Row::from_vec(copy))
}

/// A row: one value for each column, in the columns' order.
pub type Row = Sequence<Value>;

/// A list of rows.
pub type RowList = Sequence<Row>;

/// The rows of a table, by its object number.
#[derive(Drop)]
pub struct RowsOf {
    pub table: u32,
    pub rows: RowList,
}

/// The rows of some tables, in the order of their numbers.
pub type TableRows = Sequence<RowsOf>;

/// A range of encoded keys: those at or after `low` and, where there is a high end, before `high`, in lexicographic
/// order of their bytes.
#[derive(Drop)]
pub struct Interval {
    pub low: Bytes,
    pub high: Option<Bytes>,
}

impl Interval {
    /// The same interval again.
    ///
    /// # Errors
    ///
    /// Where there is no memory for it.
    pub fn copied(&self, alloc: Global) -> Result<Interval, NoMemory>
        ensures { IfOk result (λ copy. copy ≡ self.now) }
    {
        let low = self.low.copied(alloc)?;
        let high = match &self.high {
            Some(high) => Some(high.copied(alloc)?),
            None => None,
        };
        Ok(Interval { low, high })
    }
}
