//! Laws about the definitions.
ghost use Rattle.lock_manager.specs.Law.{StepKeepsNoCycle, StepKeepsNoConflict, CallsKeepBoth, SetsTell};

/// The lock law: where no recorded wait closes a cycle, waits never have one, since a new lock belongs to a session that
/// waits for nothing; and no two sessions hold locks that conflict.
pub fn lock_law()
    ensures cycle { StepKeepsNoCycle }
    ensures conflict { StepKeepsNoConflict }
    ensures calls { CallsKeepBoth }
    ensures sets { SetsTell }
{}
