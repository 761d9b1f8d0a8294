//! Laws of one table.
ghost use Rattle.table_laws.specs.Laws.{OtherKeysLaw, RowsInOrderLaw, RowsWhereLaw, SameRowsLaw, SameTableLaw, SameTotalLaw};
ghost use Rattle.table_laws.specs.Laws.{TotalLaw, TotalWhereLaw, WriteLaw, WriteThereLaw, WriteTwiceLaw, WritesApartLaw};

/// After a write its row stands under its key.
pub fn write_law<K, X>()
    ensures { WriteLaw K X }
{}

/// After a write there stands under every other key what stood there before.
pub fn other_keys_law<K, X>()
    ensures { OtherKeysLaw K X }
{}

/// Tables with the same row under each key are one table.
pub fn same_table_law<K, X>()
    ensures { SameTableLaw K X }
{}

/// Of two writes under one key the last counts.
pub fn write_twice_law<K, X>()
    ensures { WriteTwiceLaw K X }
{}

/// Writes under two keys may change places.
pub fn writes_apart_law<K, X>()
    ensures { WritesApartLaw K X }
{}

/// To write what stands there changes nothing.
pub fn write_there_law<K, X>()
    ensures { WriteThereLaw K X }
{}

/// A row is among those that pass a test exactly where the table has it and the test is true of it.
pub fn rows_where_law<K, X>()
    ensures { RowsWhereLaw K X }
{}

/// The rows that pass stand in the order of their keys, one row a key.
pub fn rows_in_order_law<K, X>()
    ensures { RowsInOrderLaw K X }
{}

/// Tables whose rows pass alike have the same list of rows that pass.
pub fn same_rows_law<K, X>()
    ensures { SameRowsLaw K X }
{}

/// A write changes a sum over the table by what the new row has, less what the old one had.
pub fn total_law<K, X>()
    ensures { TotalLaw K X }
{}

/// Numbers that agree at each row of a table have one sum over it.
pub fn same_total_law<K, X>()
    ensures { SameTotalLaw K X }
{}

/// The sum over the rows that pass is the sum over all rows, of 0 at each that does not pass.
pub fn total_where_law<K, X>()
    ensures { TotalWhereLaw K X }
{}
