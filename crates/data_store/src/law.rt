//! Laws of a store that has the past of a state of the machine. Each function is there for its contract.
ghost use Rattle.data_store.specs.Laws.{RowsThenLaw, PeekedLaw, NoVersionLaw};

/// What `row_at` and `rows_at` read of a table at a commit number is what stood in the database at that number.
pub fn rows_then_law()
    ensures { RowsThenLaw }
{}

/// What `found_at` answers at the number of an open snapshot is what the step relation answers a Peek.
pub fn peeked_law()
    ensures { PeekedLaw }
{}

/// The versions tell which view rows have deltas that an open snapshot can need.
pub fn no_version_law()
    ensures { NoVersionLaw }
{}
