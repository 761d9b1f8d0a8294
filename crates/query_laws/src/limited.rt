//! Laws of the limits of definitions.
ghost use Rattle.query_laws.specs.Limited.{LimitedLaw, NumbersLaw, WidthLaw};

/// A schema within the limits, with what a CREATE statement makes, is within them.
pub fn limited_law()
    ensures { LimitedLaw }
{}

/// A schema without objects is within the limits, and of one that is no object has a number above 192.
pub fn numbers_law()
    ensures { NumbersLaw }
{}

/// Values that fit take no more bytes than their columns are wide.
pub fn width_law()
    ensures { WidthLaw }
{}
