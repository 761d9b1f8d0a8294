//! Laws of the past of a store. Each function is there for its contract.
ghost use Rattle.data_past.specs.Laws.{OpenedLaw, LeavesLaw, PutLaw, UndoLaw, CommitLaw, PruneLaw};

/// A store keeps the past of the machine's state over each effect, with what these calls do to pending rows and versions.
pub fn past_law()
    ensures opened { OpenedLaw }
    ensures leaves { LeavesLaw }
    ensures put { PutLaw }
    ensures undo { UndoLaw }
    ensures commit { CommitLaw }
    ensures prune { PruneLaw }
{}
