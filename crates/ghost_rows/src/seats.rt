//! The places at which a session has room in rows.
ghost use Rattle.std.specs.Prelude.{◌≡◌, ◌++◌, [], ◌∷◌, length, None, IfOk, OnOk, OnErr};
ghost use Rattle.std.specs.Option.{option_to_list};
ghost use Rattle.iv_types.specs.declared.limit.TheConstants.{SEATS};

use iv_types::{Bytes, NoMemory, SEATS};
use spare_map::Spare;
use std::alloc::Global;
use std::marker::Model;

/// A place, a view's number and an encoded group, with what it takes to put it among the candidates.
#[derive(Drop)]
pub struct Seat {
    pub view: u32,
    pub group: Bytes,
    pub room: Spare<()>,
}

impl Model for Seat {
    ghost use Rattle.table_laws.specs.Place.{Place};

    ghost Value = { Place };

    ghost view = { λ s. (s.view, s.group) };
}

impl Seat {
    /// The place.
    ///
    /// # Errors
    ///
    /// Where there is no memory for it.
    pub fn new(alloc: Global, view: u32, group: &[u8]) -> Result<Seat, NoMemory>
        ensures { IfOk result (λ seat. seat ≡ (view, group.now)) }
    {
        let group = Bytes::from_vec(Vec::from_slice(alloc, group)?);
        let room = Spare::new(alloc)?;
        Ok(Seat { view, group, room })
    }
}

/// The places of a session.
#[derive(Drop)]
pub struct SeatList {
    seats: Vec<Seat>,
}

impl Model for SeatList {
    ghost use Rattle.std.specs.Prelude.{List};
    ghost use Rattle.table_laws.specs.Place.{Place};

    ghost Value = { List Place };

    ghost view = { λ l. l.seats.items };
}

impl SeatList {
    /// No places, which take no memory.
    pub fn new(alloc: Global) -> SeatList
        ensures { result ≡ [] }
    {
        SeatList {
            seats: Vec::new(alloc),
        }
    }

    /// Adds a place.
    ///
    /// # Errors
    ///
    /// Where there is no memory for it.
    pub fn push(&mut self, seat: Seat) -> Result<(), NoMemory>
        ensures ok { OnOk result (self.new ≡ self.old ++ seat ∷ []) }
        ensures err { OnErr result (self.new ≡ self.old) }
    {
        self.seats.push(seat)?;
        Ok(())
    }

    /// Takes the latest place, if there is one.
    pub fn pop(&mut self) -> Option<Seat>
        ensures rest { self.old ≡ self.new ++ option_to_list result }
        ensures none { result ≡ None → self.old ≡ [] }
    {
        self.seats.pop()
    }
}

/// No places of any session.
///
/// # Errors
///
/// Where there is no memory for it.
pub fn no_seats(alloc: Global) -> Result<Vec<SeatList>, NoMemory>
    ensures { IfOk result (λ lists. length lists.items ≡ SEATS) }
{
    let mut lists = Vec::new(alloc);
    for _index in 0..SEATS {
        lists.push(SeatList::new(alloc))?;
    }
    Ok(lists)
}
