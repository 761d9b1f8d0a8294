//! Laws about the definitions.
ghost use Rattle.view_delta.specs.Law.{DeltaLaw};

/// The delta law: what a group of a view has in a column after a change is what it had before and what the change owes it.
pub fn delta_law()
    ensures { DeltaLaw }
{}
