//! Laws of crashes. Each function is there for its contract.
ghost use Rattle.txn_log.specs.Groups.{FlushLaw};
ghost use Rattle.txn_log.specs.Within.{FaultCrashLaw, StepCrashLaw};
ghost use Rattle.txn_log.specs.Laws.{CheckpointLaw, CommittedLaw, CrashLaw, LivesLaw, MeaningLaw, ReadingLaw, RecoveredViewsLaw, RepeatLaw, StopLaw};

/// Whatever a crash may leave at any moment recovers to the database at a commit number, with every acknowledged commit.
pub fn crash_law()
    ensures { CrashLaw }
{}

/// Between two steps a crash loses nothing that is committed.
pub fn committed_law()
    ensures { CommittedLaw }
{}

/// What a checkpoint is to carry can be found at every moment.
pub fn checkpoint_law()
    ensures { CheckpointLaw }
{}

/// An image is read in one way.
pub fn reading_law()
    ensures { ReadingLaw }
{}

/// An opening may be stopped and repeated.
pub fn repeat_law()
    ensures { RepeatLaw }
{}

/// To replay the records and then take back what losers kept gives what an image means.
pub fn meaning_law()
    ensures { MeaningLaw }
{}

/// What an image that a crash may leave means of views is what they are, evaluated afresh.
pub fn recovered_views_law()
    ensures { RecoveredViewsLaw }
{}

/// Through any number of openings and crashes the database is that of a beginning of each opening's commits.
pub fn lives_law()
    ensures { LivesLaw }
{}

/// Where a fault of the disk stopped the machine, its store is the log's, or lacks the entry that the step was making.
pub fn stop_law()
    ensures { StopLaw }
{}

/// The log's blocks with the one that a flush writes and without it are both cuts. That a crash leaves one of the two is for the disk.
pub fn flush_law()
    ensures { FlushLaw }
{}

/// Within a step that no fault answers a crash leaves what was committed before it, or what it leaves committed.
pub fn step_crash_law()
    ensures { StepCrashLaw }
{}

/// Where a fault stopped the machine, a crash leaves what was committed before, or what the step would have left committed.
pub fn fault_crash_law()
    ensures { FaultCrashLaw }
{}
