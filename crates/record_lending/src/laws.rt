//! Which records can be written. The function is there for its contract.
ghost use Rattle.record_lending.specs.Known.{ShortLaw};

/// A record of what definitions within their limits know can be written: its keys and rows are no wider than their columns.
pub fn short_law()
    ensures { ShortLaw }
{}
