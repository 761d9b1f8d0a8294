//! The order of the places of rows.
ghost use Rattle.table_laws.specs.Laws.{PlaceLaw};

/// Places are in a total order, in which only equal places tie.
pub fn place_law()
    ensures { PlaceLaw }
{}
