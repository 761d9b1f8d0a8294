//! The end of a session.
ghost use Rattle.std.specs.Prelude.{◌≡◌, ◌≢◌};
ghost use Rattle.std.specs.FinMap.{get};
ghost use Rattle.iv_meaning.specs.Escrow.{IsSession};
ghost use Rattle.table_laws.specs.Place.{Place};
ghost use Rattle.ghost_rows.specs.Rows.{row_at, AreSettled, IsSettledAt};

use crate::candidates::Candidates;
use crate::seats::{Seat, SeatList};
use crate::table::Table;

// A session's pays become committed in the row of a place. It becomes a candidate where the committed count is 0 then,
// and is none where it is another.
fn settle_seat(rows: &mut Table, candidates: &mut Candidates, seat: Seat, session: u32)
    requires { IsSession session }
    ensures here { IsSettledAt session seat rows.old rows.new candidates.old candidates.new }
    ensures others { (q : Place) → q ≢ seat → row_at rows.new q ≡ row_at rows.old q }
    ensures candidates { (q : Place) → q ≢ seat → get candidates.new q ≡ get candidates.old q }
{
    let Some(count) = rows.settle(seat.view, seat.group.as_slice(), session) else {
        return;
    };
    if count == 0 {
        candidates.add(seat);
    } else {
        candidates.forget(seat.view, seat.group.as_slice());
    }
}

/// A session's pays become committed in the rows of its places, and the rows in which no session has room are let go.
pub fn settle_each(rows: &mut Table, candidates: &mut Candidates, seats: SeatList, session: u32)
    requires { IsSession session }
    ensures { AreSettled session seats rows.old rows.new candidates.old candidates.new }
{
    let mut left = seats;
    while let Some(seat) = left.pop() {
        settle_seat(rows, candidates, seat, session);
    }
}
