//! Laws of what steps add, of what transactions keep and were told, and of the rows under their locks. Each function is there for
//! its contract.
ghost use Rattle.txn_machine.specs.KeptLaws.{DeltaLaw, EntryLaw, LengthLaw, NotesLaw, OwnRowsLaw, PrefixLaw, RowAtLaw, SizesLaw, StoredRowLaw, ToldLaw};
ghost use Rattle.txn_machine.specs.LogLaws.{LogRoomLaw};
ghost use Rattle.txn_machine.specs.Parts.{SeatLaw};

/// A step adds one entry at most, which names its session.
pub fn entry_law()
    ensures { EntryLaw }
{}

/// There are no more entries than steps, and no more steps than stop an engine.
pub fn length_law()
    ensures { LengthLaw }
{}

/// The sums on the way of what a transaction paid to a column stay in range.
pub fn prefix_law()
    ensures { PrefixLaw }
{}

/// Under a lock by which a session may read a key, the stored rows are those that are committed, with its own changes.
pub fn own_rows_law()
    ensures { OwnRowsLaw }
{}

/// All that an open transaction was told is so, in what is committed now or at its snapshot's number.
pub fn told_law()
    ensures { ToldLaw }
{}

/// The row under a key at a number is the committed one with later changes of that key taken back.
pub fn row_at_law()
    ensures { RowAtLaw }
{}

/// What is kept and what was entered takes as many bytes after a further definition.
pub fn sizes_law()
    ensures { SizesLaw }
{}

/// While an engine runs, its log has room for all that it reserved, and a checkpoint has room for what it carries.
pub fn log_room_law()
    ensures { LogRoomLaw }
{}

/// All that a transaction owes and paid is made of deltas of one combination each, added or taken away, in range.
pub fn delta_law()
    ensures { DeltaLaw }
{}

/// Each stored row is one of a view of the schema, under a group's key, with a count and a number for each sum.
pub fn stored_row_law()
    ensures { StoredRowLaw }
{}

/// A step leaves every other number's part as it was, as plain data: its transaction, the definitions, what is committed under
/// its locks, what it was told.
pub fn seat_law()
    ensures { SeatLaw }
{}

/// A note that stands is what its interval has in what is committed, with the changes that were kept when it was taken.
pub fn notes_law()
    ensures { NotesLaw }
{}
