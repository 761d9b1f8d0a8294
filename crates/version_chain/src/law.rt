//! Laws about the definitions.
ghost use Rattle.version_chain.specs.Deltas.{DueLaw};
ghost use Rattle.version_chain.specs.States.{StateLaw};
ghost use Rattle.version_chain.specs.Law.{ChainLaw, EmptyLaw, AtLaw, PruneLaw};

/// The version chain law: whatever was pushed and pruned, what is left of a place is what was pushed for it above what was
/// pruned, a row at a number is the row of the state at that number, and to prune keeps every answer from there on.
pub fn version_chain_law<X>()
    ensures chains { ChainLaw X }
    ensures empty { EmptyLaw X }
    ensures at { AtLaw X }
    ensures prune { PruneLaw X }
{}

/// The same for view rows: for a number that is not below what was pruned, the deltas that are kept above it add up to those of
/// all that was pushed above it.
pub fn delta_chain_law()
    ensures { DueLaw }
{}

/// The rows at a number, by the changes that were pushed, are those of the database that a history leaves at that number.
pub fn state_law()
    ensures { StateLaw }
{}
