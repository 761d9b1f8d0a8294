//! What sessions ask an engine for: that each step of it may be asked for, whatever other sessions do meanwhile.
#![tactic(auto)]

ghost use Rattle.session_asks.specs.Askable.{AskableLaw};

/// Wherever a session of an opened engine comes, whatever others do meanwhile, what it asks for may be asked for, and it has ended
/// once it is told that the engine is stopped.
pub fn askable_law()
    ensures { AskableLaw }
{}
