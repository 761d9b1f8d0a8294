//! Laws about the grammar. Each function is there for its contract.
ghost use Rattle.iv_types.specs.Grammar.{OneStatement};
ghost use Rattle.iv_types.specs.Refusing.{OneRefusal};

/// No text is that of two statements.
pub fn one_statement()
    ensures { OneStatement }
{}

/// A text that is refused is that of no statement, and is refused for one cause at one place.
pub fn one_refusal()
    ensures { OneRefusal }
{}
