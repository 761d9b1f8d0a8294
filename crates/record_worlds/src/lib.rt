//! The records of a journal as those of the machine's log.
//!
//! A step that the engine does is a run of the machine with its log and its disk: what it gives to its journal is what the log has then
//! (`specs/Tied`, `specs/Laws`). So what a crash leaves of the journal is what a crash of the machine leaves.
#![tactic(auto)]

pub mod laws;
