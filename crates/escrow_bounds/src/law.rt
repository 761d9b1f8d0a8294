//! Laws about the definitions.
ghost use Rattle.escrow_bounds.specs.Law.{LiesBetween, EndingNarrows, StaysBetween, CallsStayBetween};

/// The escrow law (O'Neil, The escrow transactional method, ACM TODS 11(4), 1986): what undoing and committing make of a
/// column lies between its bounds, and each step only narrows them.
pub fn escrow_law()
    ensures left { LiesBetween }
    ensures step { EndingNarrows }
    ensures steps { StaysBetween }
    ensures calls { CallsStayBetween }
{}
