//! Laws of the rows of a table.
ghost use Rattle.query_laws.specs.Laws.{OtherRowsLaw, BetweenLaw, RowsLaw, SetRowLaw, ThereLaw};

/// To set a row of one table leaves those of another.
pub fn other_rows_law()
    ensures { OtherRowsLaw }
{}

/// Of rows in the order of their keys, those of an interval are those whose keys lie in it.
pub fn between_law()
    ensures { BetweenLaw }
{}

/// The rows of a table are in the order of their keys, and fit the table.
pub fn rows_law()
    ensures { RowsLaw }
{}

/// A row that is put in under a key of its own stands at the place of its key.
pub fn set_row_law()
    ensures { SetRowLaw }
{}

/// A row that is listed is what stands under its key.
pub fn there_law()
    ensures { ThereLaw }
{}
