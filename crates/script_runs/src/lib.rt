//! Scripts as runs over the machine, on a shop's sales and on a database that defines nothing: what they print, and what no run of
//! them prints. Each function is there for its contract.
#![tactic(auto)]

ghost use Rattle.script_runs.specs.Increments.{BothCommit, DeletedComesBack, GhostIsCleaned, OneRollsBack};
ghost use Rattle.script_runs.specs.Bounds.{FreedRoomIsSerial, RoomIsFreed, SumIsRefused, UndoIsCovered};
ghost use Rattle.script_runs.specs.Waiting.{BothAreTried, InsertWaits, ReaderWaits, RingIsRefused};
ghost use Rattle.script_runs.specs.Snapshots.{SnapshotBySteps, SnapshotIsKept};
ghost use Rattle.script_runs.specs.Inside.{InsertBySteps, RefusedInsert, SavepointReturns, StatementsAreRefused};
ghost use Rattle.script_runs.specs.Day.{DayRuns};
ghost use Rattle.script_runs.specs.Creating.{CreationsAreRefused, SalesAreShown};
ghost use Rattle.script_runs.specs.Joining.{StoresMove};
ghost use Rattle.script_runs.specs.Misses.{CleanedOfNone, CleanedTwice, DeadlockOfBegin, NotTriedAgain, RefusedByNone, StepOfNone, ToldUncommitted, TriedInFallingOrder, TwoStepsAtOnce, WaitsForNobody, WrongSessionTold};

/// Two open inserts into one group: both commit, and the view has both.
pub fn both_commit()
    ensures { BothCommit }
{}

/// One of them commits and the other is taken back: the view has what was committed.
pub fn one_rolls_back()
    ensures { OneRollsBack }
{}

/// A group that is made and taken back is cleaned once.
pub fn ghost_is_cleaned()
    ensures { GhostIsCleaned }
{}

/// The only sale of a shop is deleted and comes back: its group is not cleaned meanwhile.
pub fn deleted_comes_back()
    ensures { DeletedComesBack }
{}

/// An insert that a sum leaves no room for beside an open one is refused with the bounds of the sum.
pub fn sum_is_refused()
    ensures { SumIsRefused }
{}

/// The bounds cover what taking back passes through.
pub fn undo_is_covered()
    ensures { UndoIsCovered }
{}

/// A transaction reads one group between an insert into another and its taking back, whose room a later commit takes.
pub fn room_is_freed()
    ensures { RoomIsFreed }
{}

/// What is printed there is serial: alone, the transaction comes to the same behind that commit.
pub fn freed_room_is_serial()
    ensures { FreedRoomIsSerial }
{}

/// A reader waits for an insert into its group, and reads what was committed.
pub fn reader_waits()
    ensures { ReaderWaits }
{}

/// Two readers insert for each other: one waits, and the other is refused.
pub fn ring_is_refused()
    ensures { RingIsRefused }
{}

/// An insert waits for a reader of a range in which there was no row.
pub fn insert_waits()
    ensures { InsertWaits }
{}

/// Two sessions that wait for one go on in the order of their numbers.
pub fn both_are_tried()
    ensures { BothAreTried }
{}

/// A snapshot reads what was committed as it began, and what it needs is kept until it ends.
pub fn snapshot_is_kept()
    ensures { SnapshotIsKept }
{}

/// A snapshot that is begun step by step does not see what was committed between its steps.
pub fn snapshot_by_steps()
    ensures { SnapshotBySteps }
{}

/// An insert whose second row is refused leaves no trace in its transaction.
pub fn refused_insert()
    ensures { RefusedInsert }
{}

/// What is done behind a savepoint is taken back, and the rest is committed.
pub fn savepoint_returns()
    ensures { SavepointReturns }
{}

/// An insert goes on step by step, around that of another session.
pub fn insert_by_steps()
    ensures { InsertBySteps }
{}

/// Refusals of statements.
pub fn statements_are_refused()
    ensures { StatementsAreRefused }
{}

/// No step is told of where no statement is left.
pub fn step_of_none()
    ensures { StepOfNone }
{}

/// No deadlock meets a BEGIN.
pub fn deadlock_of_begin()
    ensures { DeadlockOfBegin }
{}

/// A log without limits refuses nothing.
pub fn refused_by_none()
    ensures { RefusedByNone }
{}

/// A step line does one step.
pub fn two_steps_at_once()
    ensures { TwoStepsAtOnce }
{}

/// No ghosts are counted where none is stored.
pub fn cleaned_of_none()
    ensures { CleanedOfNone }
{}

/// One ghost is counted once.
pub fn cleaned_twice()
    ensures { CleanedTwice }
{}

/// Nobody waits whom nobody hinders.
pub fn waits_for_nobody()
    ensures { WaitsForNobody }
{}

/// A statement outside a transaction is told nothing but a refusal without its commit.
pub fn told_uncommitted()
    ensures { ToldUncommitted }
{}

/// A deadlock is told to the session whose step met it.
pub fn wrong_session_told()
    ensures { WrongSessionTold }
{}

/// Sessions that wait are tried again in rising order.
pub fn tried_in_falling_order()
    ensures { TriedInFallingOrder }
{}

/// A session that nobody hinders any more is tried again.
pub fn not_tried_again()
    ensures { NotTriedAgain }
{}

/// A shop's day of four sessions, with a snapshot, a checkpoint and a clean.
pub fn day_runs()
    ensures { DayRuns }
{}

/// The shop's table and its view are made on a database that defines nothing, the view of sales that are there.
pub fn sales_are_shown()
    ensures { SalesAreShown }
{}

/// CREATE statements are refused for the name of a table, and while a session has a transaction; they are written as a user types them.
pub fn creations_are_refused()
    ensures { CreationsAreRefused }
{}

/// A view of two tables is made once there is the index that it needs, and shows what changes of both come to; its definitions are
/// written as a user types them.
pub fn stores_move()
    ensures { StoresMove }
{}
