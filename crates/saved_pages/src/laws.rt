//! What stands of what a checkpoint saved. The function is there for its contract.
ghost use Rattle.saved_pages.specs.Laws.{BearsLaw};

/// Bytes that have what a checkpoint saved, with records behind it, bear the image of which that is a cut.
pub fn bears_law()
    ensures { BearsLaw }
{}
