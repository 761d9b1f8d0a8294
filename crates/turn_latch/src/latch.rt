//! The calls of the latch and of its seats.
ghost use Rattle.std.specs.Prelude.{◌≡◌, ◌≢◌, ℕ, ◌+◌, ◌*◌, ◌%◌, ◌<◌, ◌≤◌, List, [], ◌^◌, length, map, All, Contains, IfOk, IfErr, MatchResult};
ghost use Rattle.turn_latch.specs.Histories.{Begins, of};
ghost use Rattle.turn_latch.specs.Views.{first_view, seen_of, parent, child, has_met};
ghost use Rattle.turn_latch.specs.Turns.{Turned, FoundHeld, OneList};
ghost use Rattle.turn_latch.specs.Latched.{Ends, Rest};
ghost use Rattle.turn_latch.specs.Words.{latch_of, seat_latch, knows, seats_of};

use crate::seat::{Latch, Seat, SeatList};
use crate::steps::{
    Another, Compare, InTurns, Look, Meet, Note, Release, ReleaseWithEntry, Retire, Take,
};
use crate::turn::{Parted, Turn};
use atomic_table::{Refused, Table};
use std::alloc::{AllocFailed, Global};
use std::snapshot::Snapshot;

/// Another seat held the turn as this call asked for it. This is the word that was found, which is odd.
#[derive(Drop)]
pub struct Busy(pub u64);

/// There was no memory. The value comes back.
#[derive(Drop)]
pub struct LatchRefused<T> {
    pub value: T,
}

impl<T: Parted> SeatList<T> {
    /// The list of a vector's seats.
    pub fn from_vec(seats: Vec<Seat<T>>) -> SeatList<T>
        ensures { seats_of result ≡ seats.items }
    {
        SeatList { seats }
    }

    /// The vector of the list's seats.
    pub fn into_vec(self) -> Vec<Seat<T>>
        ensures { result.items ≡ seats_of self }
    {
        let SeatList { seats } = self;
        seats
    }
}

impl<T: Parted> Seat<T> {
    /// The number under which the seat takes its turns; 0 is the first seat's.
    pub fn number(&self) -> u32
        ensures { result ≡ (knows self.now).number }
    {
        self.number
    }

    /// Of the first seat: how many seats were split off.
    pub fn made(&self) -> u32
        ensures { result ≡ (knows self.now).made }
    {
        self.made
    }
}

impl<T: Parted> Latch<T> {
    /// A latch round a value with an empty history, and its first seat, which has the number 0.
    ///
    /// # Errors
    ///
    /// `LatchRefused` where memory is wanting; it hands the value back.
    pub fn new(alloc: Global, value: T) -> Result<(Latch<T>, Seat<T>), LatchRefused<T>>
        requires { T.history value ≡ [] }
        ensures ok { IfOk result (λ r. (seat_latch r.1 ≡ latch_of r.0) × (knows r.1 ≡ first_view value)) }
        ensures err { IfErr result (λ r. r.value ≡ value) }
    {
        let about = Snapshot::of(&value);
        let mut slots = Vec::new(alloc);
        if let Err(failed) = slots.push(Some(value)) {
            let AllocFailed { value } = failed;
            slots.destroy_empty();
            let Some(value) = value else { unreachable!() };
            return Err(LatchRefused { value });
        }
        match Table::new(alloc, &[0], slots, &about) {
            Ok((table, pass)) => Ok((
                Latch { table },
                Seat {
                    pass,
                    number: 0,
                    made: 0,
                },
            )),
            Err(Refused { mut slots }) => {
                let Some(Some(value)) = slots.pop() else {
                    unreachable!()
                };
                slots.destroy_empty();
                Err(LatchRefused { value })
            }
        }
    }

    /// Takes a turn, in which the work is done on the value. It waits for nobody.
    ///
    /// The turn finds the value as the last turn of any seat left it. So it finds its seat's part as the seat's own last
    /// turn left it, and a history that begins with what the seat has seen and has no other entry of the seat's number.
    /// Afterwards the seat has seen the history that the turn left.
    ///
    /// # Errors
    ///
    /// `Busy` exactly where the one exchange of this call found an odd word, which is given: another seat holds the turn.
    /// The work is dropped, and the seat has seen what it had.
    pub fn try_turn<W: Turn<T>>(&self, seat: &mut Seat<T>, work: W) -> Result<W::Out, Busy>
        requires latch { seat_latch seat.old ≡ latch_of self.now }
        requires number { W.seat work ≡ (knows seat.old).number }
        requires needs { (x : T) → Ends T.history T.by T.part x (knows seat.old) → W.needs work x }
        ensures latch { seat_latch seat.new ≡ seat_latch seat.old }
        ensures turn { MatchResult result (λ out. Turned T.history T.by T.part (λ x y. W.does work x out y) (knows seat.old) (knows seat.new)) (λ busy. FoundHeld T.history T.by T.part (knows seat.old) busy.0 (knows seat.new)) }
    {
        let table = &self.table.shared;
        let found = table.fetch_or::<Take>(&mut seat.pass, 0, 1);
        if found % 2 != 0 {
            return Err(Busy(found));
        }
        let Some(mut value) = table.exchange(&mut seat.pass, 0, None) else {
            unreachable!()
        };
        let out = work.turn(&mut value);
        let after = value.length();
        match table.exchange(&mut seat.pass, 0, Some(value)) {
            None => {}
            Some(_) => unreachable!(),
        }
        if after * 2 == found {
            table.fetch_sub::<Release>(&mut seat.pass, 0, 1);
        } else {
            table.fetch_add::<ReleaseWithEntry>(&mut seat.pass, 0, 1);
        }
        Ok(out)
    }

    /// A new seat, with the next number. Only the first seat splits, at most 64 times.
    ///
    /// The new seat has seen what the first one has, in which its number has no entry, and knows the part that the value
    /// had for its number as it was put in.
    pub fn split(&self, first: &mut Seat<T>) -> Seat<T>
        requires latch { seat_latch first.old ≡ latch_of self.now }
        requires first { (knows first.old).number ≡ 0 }
        requires made { (knows first.old).made < 64 }
        ensures latch { (seat_latch first.new ≡ seat_latch first.old) × (seat_latch result ≡ seat_latch first.old) }
        ensures first { knows first.new ≡ parent (knows first.old) }
        ensures new { knows result ≡ child (knows first.old) }
        ensures empty { of T.by ((knows first.old).made + 1) (seen_of T.history (knows first.old).seen) ≡ [] }
    {
        let table = &self.table.shared;
        table.load::<Look>(&mut first.pass, 0);
        let pass = table.split_seat::<Another>(&mut first.pass);
        first.made += 1;
        Seat {
            pass,
            number: first.made,
            made: 0,
        }
    }

    /// The seat `a` sees what the seat `b` has seen, unless it has seen more: of what the two have seen one begins the
    /// other, and the longer stays with `a`.
    pub fn meet(&self, a: &mut Seat<T>, b: &mut Seat<T>)
        requires latch { (seat_latch a.old ≡ latch_of self.now) × (seat_latch b.old ≡ latch_of self.now) }
        ensures latch { (seat_latch a.new ≡ seat_latch a.old) × (seat_latch b.new ≡ seat_latch b.old) }
        ensures longer { knows a.new ≡ has_met T.history (knows a.old) (knows b.old) }
        ensures same { knows b.new ≡ knows b.old }
        ensures one { Begins (seen_of T.history (knows a.new).seen) (seen_of T.history (knows a.old).seen) }
        ensures other { Begins (seen_of T.history (knows a.new).seen) (seen_of T.history (knows b.new).seen) }
        ensures own { of T.by (knows a.old).number (seen_of T.history (knows a.new).seen) ≡ of T.by (knows a.old).number (seen_of T.history (knows a.old).seen) }
    {
        let table = &self.table.shared;
        let note = table.split_seat::<Note>(&mut b.pass);
        table.join_seat::<Meet>(&mut a.pass, note);
        table.load::<Compare>(&mut a.pass, 0);
    }

    /// Ends the latch, and gives the value back. The seats are all that were split off.
    ///
    /// The history of the value begins with what each seat has seen, and has each seat's own entries once. Its part of
    /// each number is as the last turn of that seat left it, or as at `new` where there was none.
    pub fn close(self, first: Seat<T>, seats: SeatList<T>) -> T
        requires latch { (seat_latch first ≡ latch_of self) × All (λ s. seat_latch s ≡ latch_of self) (seats_of seats) }
        requires first { (knows first).number ≡ 0 }
        requires each { (n : ℕ) → 0 < n → n ≤ (knows first).made → Contains (map (λ s. (knows s).number) (seats_of seats)) n }
        ensures first { Ends T.history T.by T.part result (knows first) }
        ensures seats { All (λ s. Ends T.history T.by T.part result (knows s)) (seats_of seats) }
        ensures rest { Rest T.history T.by T.part result (knows first) }
        ensures exchanges { OneList T.history result (knows first) (map knows (seats_of seats)) }
        ensures short { length (T.history result) ≤ 2 ^ 62 }
    {
        let Latch { table } = self;
        let Seat {
            mut pass,
            number: _,
            made: _,
        } = first;
        let SeatList { mut seats } = seats;
        while let Some(seat) = seats.pop() {
            let Seat {
                pass: other,
                number: _,
                made: _,
            } = seat;
            table.shared.join_seat::<Retire>(&mut pass, other);
        }
        seats.destroy_empty();
        let mut closed = table.close_with(pass);
        let Some(value) = closed.take(0) else {
            unreachable!()
        };
        closed.free();
        value
    }
}
