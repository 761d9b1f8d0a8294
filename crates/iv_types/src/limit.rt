//! The limits of statements, and the rules of their shape.
ghost use Rattle.std.specs.Prelude.{◌≡◌, ◌<◌, ◌^◌};
ghost use Rattle.iv_types.specs.Limits as limits;

/// The most bytes of a name.
pub const LONGEST_NAME: usize = 64;

/// The greatest value of a number literal, which is the end of the HUGE range.
pub const GREATEST_NUMBER: u128 = GREATEST_HUGE as u128;

/// The most bytes of a text literal, and of a value of TEXT.
pub const LONGEST_TEXT: usize = 200;

/// The deepest nesting of an expression.
pub const MOST_NESTING: u32 = 64;

/// The most rows of one INSERT.
pub const MOST_ROWS: usize = 1000;

/// The most columns of a table, an index or a GROUP BY.
pub const MOST_COLUMNS: u32 = 32;

/// The most relations in FROM.
pub const MOST_RELATIONS: usize = 4;

/// The most tables of a database, and as many indexes and views.
pub const MOST_OBJECTS: u32 = 64;

/// The most views that read one table.
pub const MOST_READERS: u32 = 8;

/// The greatest width of a key, in bytes.
pub const MOST_KEY_WIDTH: u32 = 1024;

/// The greatest width of a row, in bytes.
pub const MOST_ROW_WIDTH: u32 = 2048;

/// The most SUM columns of a view.
pub const MOST_SUMS: u32 = 8;

/// The most bytes of a definition's text.
pub const LONGEST_DEFINITION: u32 = 4096;

/// The most live savepoints of a transaction.
pub const MOST_SAVEPOINTS: u32 = 64;

/// The most items of a SELECT.
pub const MOST_ITEMS: usize = 64;

/// The most operations of one expression.
pub const MOST_OPERATIONS: u32 = 1024;

/// The least INT.
pub const LEAST_INT: i128 = -9_223_372_036_854_775_808;

/// The greatest INT.
pub const GREATEST_INT: i128 = 9_223_372_036_854_775_807;

/// The greatest HUGE. The least is its negation.
pub const GREATEST_HUGE: i128 = 170_141_183_460_469_231_731_687_303_715_884_105_727;

/// The most sessions. They are numbered from 1.
pub const MOST_SESSIONS: u32 = 64;

/// The places of a list that has session k's at place k.
pub const SEATS: usize = MOST_SESSIONS as usize + 1;

/// The most bytes of a stored view row: 16 for its count and for each of its sums.
pub const VIEW_ROW_BYTES: usize = 16 * (1 + MOST_SUMS as usize);

/// What is counted of statements, in the order of the numbers by which refusals name them, from 1.
#[derive(Clone, Copy, Debug, PartialEq, Eq)]
pub enum Limit {
    /// Bytes of a name.
    NameBytes,
    /// The value of a number literal.
    NumberValue,
    /// Bytes of a text literal.
    TextBytes,
    /// The nesting of an expression.
    Nesting,
    /// Rows of one INSERT.
    Rows,
    /// Columns of a table, an index or a GROUP BY.
    Columns,
    /// Relations in FROM.
    Relations,
    /// Tables.
    Tables,
    /// Indexes that CREATE INDEX made.
    Indexes,
    /// Views.
    Views,
    /// Views that read one table.
    Readers,
    /// The width of a key: INT 8, HUGE 16, TEXT 402 bytes, summed.
    KeyWidth,
    /// The width of a row: INT 8, HUGE 16, TEXT 202 bytes, summed.
    RowWidth,
    /// SUM columns of a view.
    Sums,
    /// Bytes of a definition's text.
    DefinitionBytes,
    /// Live savepoints of a transaction.
    Savepoints,
    /// Items of a SELECT.
    Items,
    /// Operations of one expression.
    Operations,
}

impl Limit {
    /// The number by which a refusal names it.
    pub fn number(self) -> u32
        ensures { result ≡ limits.limit_number self }
    {
        match self {
            Limit::NameBytes => 1,
            Limit::NumberValue => 2,
            Limit::TextBytes => 3,
            Limit::Nesting => 4,
            Limit::Rows => 5,
            Limit::Columns => 6,
            Limit::Relations => 7,
            Limit::Tables => 8,
            Limit::Indexes => 9,
            Limit::Views => 10,
            Limit::Readers => 11,
            Limit::KeyWidth => 12,
            Limit::RowWidth => 13,
            Limit::Sums => 14,
            Limit::DefinitionBytes => 15,
            Limit::Savepoints => 16,
            Limit::Items => 17,
            Limit::Operations => 18,
        }
    }

    /// The most that it allows.
    pub fn most(self) -> u128
        ensures most { result ≡ limits.most_of self }
        ensures huge { result < 2 ^ 127 }
    {
        match self {
            Limit::NameBytes => LONGEST_NAME as u128,
            Limit::NumberValue => GREATEST_NUMBER,
            Limit::TextBytes => LONGEST_TEXT as u128,
            Limit::Nesting => MOST_NESTING as u128,
            Limit::Rows => MOST_ROWS as u128,
            Limit::Columns => MOST_COLUMNS as u128,
            Limit::Relations => MOST_RELATIONS as u128,
            Limit::Tables => MOST_OBJECTS as u128,
            Limit::Indexes => MOST_OBJECTS as u128,
            Limit::Views => MOST_OBJECTS as u128,
            Limit::Readers => MOST_READERS as u128,
            Limit::KeyWidth => MOST_KEY_WIDTH as u128,
            Limit::RowWidth => MOST_ROW_WIDTH as u128,
            Limit::Sums => MOST_SUMS as u128,
            Limit::DefinitionBytes => LONGEST_DEFINITION as u128,
            Limit::Savepoints => MOST_SAVEPOINTS as u128,
            Limit::Items => MOST_ITEMS as u128,
            Limit::Operations => MOST_OPERATIONS as u128,
        }
    }

    /// That of the grammar which has this number: of any other number it is the last.
    pub fn of_grammar(number: u32) -> Limit
        ensures { result ≡ limits.limit_of number }
    {
        match number {
            1 => Limit::NameBytes,
            2 => Limit::NumberValue,
            3 => Limit::TextBytes,
            4 => Limit::Nesting,
            5 => Limit::Rows,
            7 => Limit::Relations,
            17 => Limit::Items,
            _ => Limit::Operations,
        }
    }
}

/// A rule of the shape of a statement, by what breaks it, in the order of the numbers by which refusals name them, from 1.
#[derive(Clone, Copy, Debug, PartialEq, Eq)]
pub enum ShapeRule {
    /// A primary key, an index or a GROUP BY names a column twice.
    ColumnTwice,
    /// An INSERT's tuple has not as many values as the table has columns.
    TupleLength,
    /// UPDATE sets a column of the primary key.
    KeySet,
    /// UPDATE sets a column twice.
    SetTwice,
    /// INSERT, UPDATE, DELETE or CREATE INDEX names something other than a table, or FROM names an index.
    NoTable,
    /// COUNT or SUM stands without GROUP BY.
    NoGroup,
    /// With GROUP BY, an item is neither a group column nor COUNT(*) nor SUM.
    OtherItem,
    /// With GROUP BY, FROM is neither one relation nor two tables of which the second is joined by its whole primary key.
    NotManyToOne,
    /// A view's items are not its group columns, then one COUNT(*) with a name, then SUMs with names.
    NoViewList,
    /// A view's WHERE has arithmetic.
    Arithmetic,
    /// A view's FROM names a view.
    ViewOfView,
    /// An ORDER BY names no item.
    NoItem,
}

impl ShapeRule {
    /// The number by which a refusal names it.
    pub fn number(self) -> u32
        ensures { result ≡ limits.rule_number self }
    {
        match self {
            ShapeRule::ColumnTwice => 1,
            ShapeRule::TupleLength => 2,
            ShapeRule::KeySet => 3,
            ShapeRule::SetTwice => 4,
            ShapeRule::NoTable => 5,
            ShapeRule::NoGroup => 6,
            ShapeRule::OtherItem => 7,
            ShapeRule::NotManyToOne => 8,
            ShapeRule::NoViewList => 9,
            ShapeRule::Arithmetic => 10,
            ShapeRule::ViewOfView => 11,
            ShapeRule::NoItem => 12,
        }
    }
}
