//! How SELECT, INSERT, UPDATE and DELETE work in steps, and that alone on a sound database each comes to what its statement
//! means. Each function is there for its contract.
#![tactic(auto)]

ghost use Rattle.statement_law.specs.Deadlocks.{DeadlocksLaw};
ghost use Rattle.statement_law.specs.Retrying.{StepsEndLaw, RetriesEndLaw};
ghost use Rattle.statement_law.specs.Laws.{AskedLaw, EscrowLaw, FitsLaw, KeyLaw, StatementsLaw, WorksLaw};
ghost use Rattle.statement_law.specs.OneSession.{NeverBlockedLaw, OneOutputLaw, OneSerialLaw};

/// Values that fit are read from their key.
pub fn key_law()
    ensures { KeyLaw }
{}

/// A refusal of a view's escrow is told with the names of its view and column, and the values of its group.
pub fn escrow_law()
    ensures { EscrowLaw }
{}

/// Alone on a sound database the work of each statement comes to what the statement means.
pub fn works_law()
    ensures { WorksLaw }
{}

/// Told what is so on a sound database, each work asks only for steps that fit what is defined and stored.
pub fn fits_law()
    ensures { FitsLaw }
{}

/// What a work asks the machine for, where what its transaction was told led it, may be asked for.
pub fn asked_law()
    ensures { AskedLaw }
{}

/// What a script prints that is run over the machine by the programs of these works is serial.
pub fn statements_law()
    ensures { StatementsLaw }
{}

/// A statement does no more steps than the engine will count, and one that tells it that the engine is stopped.
pub fn steps_end_law()
    ensures { StepsEndLaw }
{}

/// Behind a line of a script no more passes over waiting sessions move than the engine will count steps and there are sessions.
pub fn retries_end_law()
    ensures { RetriesEndLaw }
{}

/// Once a step of a statement met a deadlock, the statement only takes back and ends.
pub fn deadlocks_law()
    ensures { DeadlocksLaw }
{}

/// No step of a session is blocked while no other session has a transaction open.
pub fn never_blocked_law()
    ensures { NeverBlockedLaw }
{}

/// There is one serial output at most for lines `N: ..` of one session and `checkpoint`, where nobody is told to wait or refused by the
/// engine.
pub fn one_serial_law()
    ensures { OneSerialLaw }
{}

/// So a script of such lines prints one such output only.
pub fn one_output_law()
    ensures { OneOutputLaw }
{}
