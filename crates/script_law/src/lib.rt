//! What a script of many sessions prints: runs of its lines over any engine of steps, and the law that they are serial transcripts.
#![tactic(auto)]

ghost use Rattle.std.specs.Prelude.{ℕ};
ghost use Rattle.iv_types.specs.declared.refusal.Refusal.{Refusal};
ghost use Rattle.iv_types.specs.declared.refusal.EngineRefusal.{EngineRefusal};
ghost use Rattle.script_law.specs.Laws.{EndLaw, ProgramsLaw, TranscriptLaw};
ghost use Rattle.script_law.specs.Machine.{CleanLaw, HinderedLaw, MachineLaw, MayLaw};
ghost use Rattle.script_law.specs.Programs.{Programs};

/// An engine of steps, as its states.
pub trait Engine {
    ghost use Rattle.std.specs.Prelude.{ℕ};
    ghost use Rattle.txn_machine.specs.Acts.{Act};
    ghost use Rattle.txn_machine.specs.Answers.{Answer};
    ghost use Rattle.script_law.specs.Seen.{Visible, StepLaws};

    /// What sessions see of it.
    ghost view: { Self → Visible };

    /// A step of a session is answered so, and leaves this state.
    ghost does: { Self → ℕ → Act → Answer → Self → Type 0 };

    /// The states that it can be in.
    ghost stands: { Self → Type 0 };

    /// Those in which it is stopped.
    ghost halts: { Self → Type 0 };

    /// The laws of its steps.
    ghost laws: { StepLaws view does stands halts };
}

/// What a run of lines prints is a serial transcript.
pub fn transcript_law<E: Engine>()
    ensures { (programs : Programs) (tell : EngineRefusal → Refusal) → TranscriptLaw E.view E.does E.stands E.halts programs tell }
{}

/// After the end of the input no transaction is open, unless the engine is stopped.
pub fn end_law<E: Engine>()
    ensures { (programs : Programs) (tell : EngineRefusal → Refusal) → EndLaw E.view E.does E.stands E.halts programs tell }
{}

/// What a script prints that is run over the machine of transactions is a serial transcript.
pub fn machine_law()
    ensures { MachineLaw }
{}

/// The programs of all statements are right: what they tell is what a lone transaction is told.
pub fn programs_law()
    ensures { ProgramsLaw }
{}

/// What `clean` counts is what the machine's cleaner removed, and none is left.
pub fn clean_law()
    ensures { CleanLaw }
{}

/// After each line, what a session whose line waits asks for is locked by another session.
pub fn hindered_law()
    ensures { HinderedLaw }
{}

/// What may be asked for as far as a session sees may be asked of the machine.
pub fn may_law()
    ensures { MayLaw }
{}
