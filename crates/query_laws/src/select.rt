//! The laws by which a SELECT is read.
ghost use Rattle.query_laws.specs.Laws.{AskingLaw, ReadingLaw};

/// A SELECT that is read by its plan, interval after interval, replies what it means on all rows of its relations.
pub fn reading_law()
    ensures { ReadingLaw }
{}

/// A SELECT that is read by its plan asks only for intervals of objects that there are.
pub fn asking_law()
    ensures { AskingLaw }
{}
