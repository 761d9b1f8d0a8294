//! How a change stands in the log. The function is there for its contract.
ghost use Rattle.record_reading.specs.Laws.{WriteLaw};

/// A Write of rows in bytes is the record of just those changes that have these bytes, beside the same definitions.
pub fn write_law()
    ensures { WriteLaw }
{}
