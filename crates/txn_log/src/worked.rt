//! Worked runs of a shop, with the images that a crash may leave on the way. Each function is there for its contract.
ghost use Rattle.txn_log.specs.Day.{StopAfterDay};
ghost use Rattle.txn_log.specs.Worked.{FaultInCommit, StopAfterCheckpoint, StopInCommit};

/// A stop in a commit: without its records, which wait, the sale is not recovered, and as the commit is answered it is.
pub fn stop_in_commit()
    ensures { StopInCommit }
{}

/// Where the disk fails to open that gate, an image has the sale or has not.
pub fn fault_in_commit()
    ensures { FaultInCommit }
{}

/// A stop after a checkpoint that carried an open insert, and after another commit: the open insert leaves nothing.
pub fn stop_after_checkpoint()
    ensures { StopAfterCheckpoint }
{}

/// A shop's day of four sessions, with a transaction taken back, a changed sale and a checkpoint.
pub fn stop_after_day()
    ensures { StopAfterDay }
{}
