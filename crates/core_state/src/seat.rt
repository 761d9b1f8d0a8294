//! What sessions were told so far.
ghost use Rattle.std.specs.Prelude.{◌≡◌, ◌≢◌, ◌<◌, ◌^◌, ◌-◌, ℕ, true, Some, IfOk};
ghost use Rattle.iv_types.specs.declared.refusal.EngineRefusal.TheVariants.{DiskFault};
ghost use Rattle.iv_types.specs.declared.limit.TheConstants.{SEATS};
ghost use Rattle.core_state.specs.Seats.{new_seat, seat_at, refusal_in, told};

use iv_types::{EngineRefusal, NoMemory, SEATS};
use std::alloc::Global;
use std::marker::Model;
use txn_book::{Answer, LastRefusal};

/// What a session was told so far.
#[derive(Clone, Copy)]
pub struct Seat {
    /// How many steps it did.
    pub steps: u64,
    /// The number of the last of them.
    pub last: u64,
    pub refused: Option<LastRefusal>,
    /// Whether it was told that the core is stopped.
    pub told_of_stop: bool,
}

/// What the cleaner did, which is session 0.
#[derive(Clone, Copy)]
pub struct Cleaner {
    /// The number of its last Prune.
    pub pruned: u64,
    /// Of its last Clean that found nothing to clean.
    pub found_none: u64,
    /// How many ghosts it removed.
    pub removed: u64,
    /// How many entries the history had at its last Checkpoint.
    pub saved: u64,
}

// The refusal that an answer is.
fn refusal_in(said: &Answer) -> Option<EngineRefusal>
    ensures { result ≡ refusal_in said.now }
{
    match said {
        Answer::Refused(why) => Some(*why),
        _ => None,
    }
}

// A seat after a step of this number that was refused so, if it was.
fn seat_after(seat: Seat, number: u64, why: Option<EngineRefusal>) -> Seat
    requires { seat.steps < 2 ^ 64 - 1 }
    ensures { result ≡ told seat number why }
{
    let mut after = seat;
    after.steps += 1;
    after.last = number;
    if let Some(refusal) = why {
        after.refused = Some(LastRefusal {
            step: number,
            refusal,
        });
        if refusal == EngineRefusal::DiskFault {
            after.told_of_stop = true;
        }
    }
    after
}

/// What each session was told, session 0 among them. Contracts see session k's at place k.
#[derive(Drop)]
pub struct Seats {
    seats: Vec<Seat>,
}

impl Model for Seats {
    ghost use Rattle.std.specs.Prelude.{◌≡◌, List, length};
    ghost use Rattle.iv_types.specs.declared.limit.TheConstants.{SEATS};
    ghost use Rattle.core_state.specs.declared.seat.Seat.{Seat};

    ghost Value = { List Seat };

    ghost view = { λ s. s.seats.items };

    ghost invariant = { λ s. length s.seats.items ≡ SEATS };
}

impl Seats {
    /// Nothing that a session was told.
    ///
    /// # Errors
    ///
    /// Where there is no memory for it.
    pub fn new(alloc: Global) -> Result<Seats, NoMemory>
        ensures { IfOk result (λ seats. (session : ℕ) → seat_at seats session ≡ new_seat) }
    {
        let mut seats = Vec::with_capacity(alloc, SEATS)?;
        for _ in 0..SEATS {
            seats.push(Seat {
                steps: 0,
                last: 0,
                refused: None,
                told_of_stop: false,
            })?;
        }
        Ok(Seats { seats })
    }

    /// What a session was told.
    pub fn get(&self, session: u32) -> Seat
        requires { session < SEATS }
        ensures { result ≡ seat_at self.now session }
    {
        self.seats[session as usize]
    }

    /// Counts a step of a session, with its number and its answer.
    pub fn count(&mut self, session: u32, number: u64, said: &Answer)
        requires session { session < SEATS }
        requires few { (seat_at self.old session).steps < 2 ^ 64 - 1 }
        ensures own { seat_at self.new session ≡ told (seat_at self.old session) number (refusal_in said.now) }
        ensures others { (other : ℕ) → other ≢ session → seat_at self.new other ≡ seat_at self.old other }
    {
        let at = session as usize;
        self.seats[at] = seat_after(self.seats[at], number, refusal_in(said));
    }

    /// Counts a step of a session, with its number, at which the disk failed.
    pub fn fail(&mut self, session: u32, number: u64)
        requires session { session < SEATS }
        requires few { (seat_at self.old session).steps < 2 ^ 64 - 1 }
        ensures own { seat_at self.new session ≡ told (seat_at self.old session) number (Some DiskFault) }
        ensures others { (other : ℕ) → other ≢ session → seat_at self.new other ≡ seat_at self.old other }
    {
        let at = session as usize;
        self.seats[at] = seat_after(self.seats[at], number, Some(EngineRefusal::DiskFault));
    }

    /// Keeps that a session was told of the stop.
    pub fn tell_of_stop(&mut self, session: u32)
        requires session { session < SEATS }
        ensures own { seat_at self.new session ≡ record (seat_at self.old session) { told_of_stop = true } }
        ensures others { (other : ℕ) → other ≢ session → seat_at self.new other ≡ seat_at self.old other }
    {
        self.seats[session as usize].told_of_stop = true;
    }
}
