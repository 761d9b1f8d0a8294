//! The law of what entries count. The function is there for its contract.
ghost use Rattle.data_room.specs.Used.{UsedLaw};

/// The entries of maps count what those of the rows and of the stored view rows do that a store has, and those of index 0.
pub fn used_law()
    ensures { UsedLaw }
{}
