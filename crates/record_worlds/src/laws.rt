//! What stands of journals whose records are those of the machine's log. Each function is there for its contract.
ghost use Rattle.record_worlds.specs.Laws.{CutLaw, FaultLaw, OpenedLaw, StepLaw};
ghost use Rattle.record_worlds.specs.Pages.{HoldsPages};

/// Behind the checkpoint of an opening a journal has the records of the machine's log.
pub fn opened_law()
    ensures { OpenedLaw HoldsPages }
{}

/// And behind each step that no fault of the disk answers.
pub fn step_law()
    ensures { StepLaw HoldsPages }
{}

/// What was flushed recovers to what is committed.
pub fn cut_law()
    ensures { CutLaw HoldsPages }
{}

/// And what a step was to write at which the disk failed, to what the step may have left committed.
pub fn fault_law()
    ensures { FaultLaw HoldsPages }
{}
