//! The law of effects that leave the log's room. The function is there for its contract.
ghost use Rattle.log_room.specs.Rooms.{SameRoomLaw};

/// Locks and notes, a deadlock, a snapshot and dropped versions use and reserve nothing.
pub fn same_room_law()
    ensures { SameRoomLaw }
{}
