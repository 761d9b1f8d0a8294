//! Laws of the changes that one transaction keeps.
ghost use Rattle.table_laws.specs.Laws.{ChangedLaw, TakingBackLaw, UntouchedLaw};

/// Changes that are taken back where they were made leave the base.
pub fn taking_back_law<K, X>()
    ensures { TakingBackLaw K X }
{}

/// A key that no change names is as in the base, after the changes and after they are taken back.
pub fn untouched_law<K, X>()
    ensures { UntouchedLaw K X }
{}

/// Changes add to a sum over the table what they are worth.
pub fn changed_law<K, X>()
    ensures { ChangedLaw K X }
{}
