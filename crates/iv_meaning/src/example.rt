//! Transcripts of many lines that are serial, and some that are not.
ghost use Rattle.iv_meaning.specs.SerialExample.{LinesSay, NearMisses, SavepointTranscript, StepsTranscript, WaitsTranscript};

/// What is done behind a savepoint is taken back, and the rest is committed.
pub fn savepoint_transcript()
    ensures { SavepointTranscript }
{}

/// A snapshot that is begun step by step does not see what was committed between its steps.
pub fn steps_transcript()
    ensures { StepsTranscript }
{}

/// A session that waits for another reads what that one committed.
pub fn waits_transcript()
    ensures { WaitsTranscript }
{}

/// What single lines say.
pub fn lines_say()
    ensures { LinesSay }
{}

/// Transcripts that are not serial.
pub fn near_misses()
    ensures { NearMisses }
{}
