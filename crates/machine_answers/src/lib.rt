//! That each step of the machine of open transactions that may be asked for has an answer, and only one. Each function is there for its contract.
#![tactic(auto)]

ghost use Rattle.machine_answers.specs.Answered.{AnsweredLaw, OnlyLaw};

/// Each step that may be asked for has an answer for which neither memory was wanting nor the disk failed.
pub fn answered_law()
    ensures { AnsweredLaw }
{}

/// A step has only one such answer, but for how a set or a cycle of sessions is written down, and leaves one store; the same answer leaves
/// one state.
pub fn only_law()
    ensures { OnlyLaw }
{}
