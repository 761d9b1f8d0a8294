//! Laws of the entries of stored pages. Each function is there for its contract.
ghost use Rattle.txn_log.specs.Damaged.{OneDamageLaw};
ghost use Rattle.txn_log.specs.Room.{DataLimitLaw, DataRoomLaw, OpensWithinLaw};
ghost use Rattle.txn_log.specs.Stored.{OneStoredLaw, ProperLaw};

/// Entries, with the texts of their definitions, stand for one database and its view rows.
pub fn one_stored_law()
    ensures { OneStoredLaw }
{}

/// What a checkpoint publishes is proper, whatever its moment: rows fit their tables and totals are of groups of views.
pub fn proper_law()
    ensures { ProperLaw }
{}

/// Before its records are replayed an image is refused by one rule at most, at one place.
pub fn one_damage_law()
    ensures { OneDamageLaw }
{}

/// What all records leave takes no more bytes of data than the machine counts as used.
pub fn data_room_law()
    ensures { DataRoomLaw }
{}

/// Where an engine is opened with its data within the limit, they stay within it, with the room that open transactions keep.
pub fn data_limit_law()
    ensures { DataLimitLaw }
{}

/// What an image leaves that is refused for nothing is opened with its data within the limit.
pub fn opens_within_law()
    ensures { OpensWithinLaw }
{}
