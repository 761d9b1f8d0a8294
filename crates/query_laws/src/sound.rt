//! Laws of sound databases: what statements leave of one is one.
ghost use Rattle.query_laws.specs.Laws.{InsertedLaw, RelationsLaw, CreatedLaw};

/// To set a row that fits its table, under its key, leaves a sound database.
pub fn inserted_law()
    ensures { InsertedLaw }
{}

/// The relations of a SELECT that is bound are tables and views.
pub fn relations_law()
    ensures { RelationsLaw }
{}

/// A sound database with what a CREATE statement makes is sound.
pub fn created_law()
    ensures { CreatedLaw }
{}
