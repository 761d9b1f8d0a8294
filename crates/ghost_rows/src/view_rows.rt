//! The stored rows of views, and what open transactions have paid to them.
ghost use Rattle.std.specs.Int.{w128};
ghost use Rattle.std.specs.Prelude.{FitsSigned, get_or, suc, ◌≡◌, ◌≢◌, ◌<◌, ◌≤◌, ◌+◌, ◌*◌, ◌↔◌, ℕ, ℤ, pos, List, [], ◌∷◌, length, Option, false, true, Some, None, Ok, Err, IsSome, IsTrue, IfOk, IfErr, IfSome, OnOk, OnErr, vec_len, vec_capacity};
ghost use Rattle.std.specs.Option.{option_copied};
ghost use Rattle.iv_types.specs.Maps.{Map};
ghost use Rattle.iv_types.specs.declared.limit.TheConstants.{VIEW_ROW_BYTES};
ghost use Rattle.iv_meaning.specs.Escrow.{IsSession};
ghost use Rattle.std.specs.FinMap as map;
ghost use Rattle.table_laws.specs.Place.{Place};
ghost use Rattle.table_store.specs.Stored.{between};
ghost use Rattle.ghost_rows.specs.Reading.{AreViewRows, Shows};
ghost use Rattle.txn_machine.specs.Deltas.{place_of};
ghost use Rattle.ghost_rows.specs.Numbers.{numbers_bytes, moved, Fits128};
ghost use Rattle.ghost_rows.specs.State.{stored_at, CanStore, Stores, StoresOnlyAt};
ghost use Rattle.ghost_rows.specs.Kept.{width, IsDelta};
ghost use Rattle.ghost_rows.specs.Candidates.{no_places};
ghost use Rattle.ghost_rows.specs.Ghosts.{IsListed, StayListed};

use crate::candidates::Candidates;
use crate::numbers::{put_moved, width};
use crate::opening::seat_in;
use crate::pool::{Pool, no_buffers};
use crate::reading::rows_between;
use crate::seats::{Seat, SeatList, no_seats};
use crate::settling::settle_each;
use crate::table::Table;
use iv_types::{Bytes, GroupDelta, Interval, NoMemory, PrefixList, SortedMaps, ViewRowList};
use std::alloc::Global;
use std::marker::Model;
use std::mem;

/// Why a pay was refused.
#[derive(Clone, Copy, Debug, PartialEq, Eq)]
pub enum PayRefusal {
    /// The row is not stored.
    Absent,
    /// The first column that refuses the delta, counted from 0 with the count first, and its bounds before the delta.
    Escrow { column: u32, inf: i128, sup: i128 },
}

// The value of a stored row with a delta added to it, or taken back, in a buffer that was made for it.
fn moved_value<M: SortedMaps>(maps: &M, buffer: Vec<u8>, delta: &GroupDelta, back: bool) -> Bytes
    requires empty { buffer.items ≡ [] }
    requires room { VIEW_ROW_BYTES ≤ vec_capacity buffer }
    requires delta { IsDelta delta.now }
    requires stored { (numbers : List ℤ) × (stored_at (M.maps maps.now) (place_of delta.now) ≡ Some (numbers_bytes numbers)) × (length numbers ≡ width delta.now) }
    ensures { (numbers : List ℤ) → stored_at (M.maps maps.now) (place_of delta.now) ≡ Some (numbers_bytes numbers)
        → Fits128 numbers → Fits128 (moved back 0 numbers delta.now) → result ≡ numbers_bytes (moved back 0 numbers delta.now) }
{
    match maps.get(delta.view, delta.group.as_slice()) {
        Some(stored) => {
            let mut value = buffer;
            put_moved(&mut value, stored, width(delta), delta, back);
            Bytes::from_vec(value)
        }
        None => unreachable!(),
    }
}

// Stores the numbers of a row with a delta added to them, or taken back.
fn store_moved<M: SortedMaps>(maps: &mut M, buffer: Vec<u8>, delta: &GroupDelta, back: bool)
    requires empty { buffer.items ≡ [] }
    requires room { VIEW_ROW_BYTES ≤ vec_capacity buffer }
    requires delta { IsDelta delta.now }
    requires stored { (numbers : List ℤ) × (stored_at (M.maps maps.old) (place_of delta.now) ≡ Some (numbers_bytes numbers)) × (length numbers ≡ width delta.now)
        × Fits128 numbers × Fits128 (moved back 0 numbers delta.now) }
    requires can { CanStore (M.maps maps.old) (M.limit maps.old) (place_of delta.now) (width delta.now) }
    ensures entry { (numbers : List ℤ) → stored_at (M.maps maps.old) (place_of delta.now) ≡ Some (numbers_bytes numbers)
        → Fits128 numbers → Fits128 (moved back 0 numbers delta.now) → stored_at (M.maps maps.new) (place_of delta.now) ≡ Some (numbers_bytes (moved back 0 numbers delta.now)) }
    ensures others { StoresOnlyAt (place_of delta.now) (M.maps maps.old) (M.maps maps.new) }
    ensures spare { (i : ℕ) → M.spare maps.old i ≤ M.spare maps.new i }
    ensures limit { M.limit maps.new ≡ M.limit maps.old }
{
    let value = moved_value(maps, buffer, delta, back);
    maps.replace(delta.view, delta.group.as_slice(), value);
}

/// What open transactions have paid to stored rows of views: for each row the escrow of its columns, and for each session
/// the buffers that its further pays and their taking back need.
#[derive(Drop)]
pub struct ViewRows {
    pub(crate) alloc: Global,
    pub(crate) rows: Table,
    pools: Vec<Pool>,
    // Where each session has room in a row.
    seats: Vec<SeatList>,
    // Where ghosts are looked for.
    pub(crate) candidates: Candidates,
}

impl Model for ViewRows {
    ghost use Rattle.std.specs.Prelude.{◌≡◌, length};
    ghost use Rattle.iv_types.specs.declared.limit.TheConstants.{SEATS};
    ghost use Rattle.ghost_rows.specs.Rows.{AreOpen, AreSeated};
    ghost use Rattle.ghost_rows.specs.State.{State, coded_state};

    ghost Value = { State };

    ghost coded = { coded_state };

    ghost view = { λ v. record { rows = v.rows; rooms = v.pools.items; candidates = v.candidates } };

    ghost invariant = { λ v. (length v.pools.items ≡ SEATS) × (length v.seats.items ≡ SEATS) × AreOpen v.rows × AreSeated v.rows v.seats.items };
}

impl ViewRows {
    ghost use Rattle.ghost_rows.specs.Rows.{no_rows, row_at, settled_at, OpenRow};
    ghost use Rattle.ghost_rows.specs.State.{State, room_of, AreKept, HasSeat, IsReady, OnlyAt, IsRefusal, MovesRoom};
    ghost use Rattle.iv_meaning.specs.Escrow.{value};
    ghost use Rattle.ghost_rows.specs.Kept.{account, Pays, with_pays, ArePrefixes, IsAllowedIn, IsPaidLast, committed_at, AllCount, IsUnpaid, StandsFor};

    /// Lets all rows in memory go, where no session has a kept pay. It takes no memory.
    pub fn forget_rows(&mut self)
        ensures { self.new ≡ record self.old { rows = no_rows } }
    {
        self.rows = Table::new(self.alloc);
    }

    /// Adds a delta to its stored row, as a kept pay of the session, and answers the session's prefixes before it. The
    /// session has room for it.
    ///
    /// # Errors
    ///
    /// `Absent` where the row is not stored, and `Escrow` where a column refuses the delta. Nothing is changed then.
    pub fn pay<M: SortedMaps>(
        &mut self,
        maps: &mut M,
        session: u32,
        delta: &GroupDelta,
    ) -> Result<PrefixList, PayRefusal>
        requires session { IsSession session }
        requires delta { IsDelta delta.now }
        requires kept { (pays : Pays) × AreKept self.old (M.maps maps.old) (place_of delta.now) (width delta.now) pays }
        requires ready { IsReady self.old (place_of delta.now) session }
        requires can { CanStore (M.maps maps.old) (M.limit maps.old) (place_of delta.now) (width delta.now) }
        ensures absent { (result ≡ Err PayRefusal.Absent) ↔ (stored_at (M.maps maps.old) (place_of delta.now) ≡ None) }
        ensures paid { OnOk result ((pays : Pays) → AreKept self.old (M.maps maps.old) (place_of delta.now) (width delta.now) pays
            → AreKept self.new (M.maps maps.new) (place_of delta.now) (width delta.now) (with_pays pays session (delta.now ∷ pays session))) }
        ensures value { OnOk result ((pays : Pays) (kept : AreKept self.old (M.maps maps.old) (place_of delta.now) (width delta.now) pays)
            → Stores (M.maps maps.new) (place_of delta.now) (moved false 0 kept.numbers delta.now)) }
        ensures before { IfOk result (λ before. (pays : Pays) → AreKept self.old (M.maps maps.old) (place_of delta.now) (width delta.now) pays
            → ArePrefixes before (width delta.now) (pays session)) }
        ensures escrow { IfErr result (IsRefusal self.old (M.maps maps.old) session delta.now) }
        ensures allowed { OnOk result ((pays : Pays) (row : OpenRow) → AreKept self.old (M.maps maps.old) (place_of delta.now) (width delta.now) pays
            → row_at self.old.rows (place_of delta.now) ≡ Some row → IsAllowedIn (committed_at row) pays session delta.now (width delta.now)) }
        ensures err { OnErr result ((q : Place) → (row_at self.new.rows q ≡ row_at self.old.rows q) × (stored_at (M.maps maps.new) q ≡ stored_at (M.maps maps.old) q)) }
        ensures same { OnErr result (maps.new ≡ maps.old) }
        ensures rooms { OnErr result (self.new.rooms ≡ self.old.rooms) }
        ensures room { OnOk result (MovesRoom session self.old self.new) }
        ensures others { OnlyAt (place_of delta.now) self.old self.new }
        ensures stores { StoresOnlyAt (place_of delta.now) (M.maps maps.old) (M.maps maps.new) }
        ensures spare { (i : ℕ) → M.spare maps.old i ≤ M.spare maps.new i }
        ensures seats { (s : ℕ) → HasSeat self.old (place_of delta.now) s → HasSeat self.new (place_of delta.now) s }
        ensures limit { M.limit maps.new ≡ M.limit maps.old }
        ensures candidates { self.new.candidates ≡ self.old.candidates }
        ensures listed { StayListed self.old (M.maps maps.old) self.new (M.maps maps.new) }
    {
        if maps.get(delta.view, delta.group.as_slice()).is_none() {
            return Err(PayRefusal::Absent);
        }
        let group = delta.group.as_slice();
        match self.rows.pay(delta.view, group, session, delta) {
            Ok(before) => {
                let buffer = self.pools[session as usize].take();
                store_moved(maps, buffer, delta, false);
                Ok(before)
            }
            Err((column, range)) => Err(PayRefusal::Escrow {
                column,
                inf: range.inf,
                sup: range.sup,
            }),
        }
    }

    /// Takes the session's latest kept pay on a row back, which was of this delta and answered `before`.
    pub fn take_back<M: SortedMaps>(
        &mut self,
        maps: &mut M,
        session: u32,
        delta: &GroupDelta,
        before: &PrefixList,
    )
        requires session { IsSession session }
        requires delta { IsDelta delta.now }
        requires kept { (pays : Pays) × AreKept self.old (M.maps maps.old) (place_of delta.now) (width delta.now) pays × IsPaidLast pays session delta.now before.now }
        requires room { 1 ≤ room_of self.old session }
        requires can { CanStore (M.maps maps.old) (M.limit maps.old) (place_of delta.now) (width delta.now) }
        ensures taken { (pays : Pays) (earlier : List GroupDelta) → AreKept self.old (M.maps maps.old) (place_of delta.now) (width delta.now) pays
            → pays session ≡ delta.now ∷ earlier → ArePrefixes before.now (width delta.now) earlier
            → AreKept self.new (M.maps maps.new) (place_of delta.now) (width delta.now) (with_pays pays session earlier) }
        ensures value { (pays : Pays) (earlier : List GroupDelta) (kept : AreKept self.old (M.maps maps.old) (place_of delta.now) (width delta.now) pays)
            → pays session ≡ delta.now ∷ earlier → ArePrefixes before.now (width delta.now) earlier
            → Stores (M.maps maps.new) (place_of delta.now) (moved true 0 kept.numbers delta.now) }
        ensures room { MovesRoom session self.old self.new }
        ensures others { OnlyAt (place_of delta.now) self.old self.new }
        ensures stores { StoresOnlyAt (place_of delta.now) (M.maps maps.old) (M.maps maps.new) }
        ensures spare { (i : ℕ) → M.spare maps.old i ≤ M.spare maps.new i }
        ensures seats { (s : ℕ) → HasSeat self.old (place_of delta.now) s → HasSeat self.new (place_of delta.now) s }
        ensures limit { M.limit maps.new ≡ M.limit maps.old }
        ensures candidates { self.new.candidates ≡ self.old.candidates }
        ensures listed { StayListed self.old (M.maps maps.old) self.new (M.maps maps.new) }
    {
        let group = delta.group.as_slice();
        self.rows
            .take_back(delta.view, group, session, delta, before);
        let buffer = self.pools[session as usize].take();
        store_moved(maps, buffer, delta, true);
    }

    /// No open transactions.
    ///
    /// # Errors
    ///
    /// Where there is no memory for it.
    pub fn new(alloc: Global) -> Result<ViewRows, NoMemory>
        ensures rows { IfOk result (λ rows. rows.rows ≡ no_rows) }
        ensures candidates { IfOk result (λ rows. rows.candidates ≡ no_places) }
    {
        let pools = no_buffers(alloc)?;
        let seats = no_seats(alloc)?;
        Ok(ViewRows {
            alloc,
            rows: Table::new(alloc),
            pools,
            seats,
            candidates: Candidates::new(alloc),
        })
    }

    /// The session's kept pays become committed, and all that was made for it goes. It need have none.
    pub fn settle(&mut self, session: u32)
        requires { IsSession session }
        ensures rows { (q : Place) → row_at self.new.rows q ≡ settled_at session (row_at self.old.rows q) }
        ensures kept { (maps : ℕ → Map) (place : Place) (many : ℕ) (pays : Pays) → AreKept self.old maps place (suc many) pays → AreKept self.new maps place (suc many) (with_pays pays session []) }
        ensures rooms { (s : ℕ) → s ≢ session → room_of self.new s ≡ room_of self.old s }
        ensures gone { room_of self.new session ≡ 0 }
        ensures listed { (maps : ℕ → Map) (place : Place) (many : ℕ) (pays : Pays) → AreKept self.old maps place (suc many) pays → IsListed self.old maps place → IsListed self.new maps place }
    {
        let seats = mem::replace(&mut self.seats[session as usize], SeatList::new(self.alloc));
        settle_each(&mut self.rows, &mut self.candidates, seats, session);
        self.pools[session as usize] = Pool::new(self.alloc);
    }

    // Gives the session room in the row of a delta, in which it has none.
    fn sit<M: SortedMaps>(
        &mut self,
        maps: &M,
        delta: &GroupDelta,
        session: u32,
    ) -> Result<(), NoMemory>
        requires session { IsSession session }
        requires delta { IsDelta delta.now }
        requires kept { (pays : Pays) × AreKept self.old (M.maps maps.now) (place_of delta.now) (width delta.now) pays }
        ensures kept { (pays : Pays) → AreKept self.old (M.maps maps.now) (place_of delta.now) (width delta.now) pays
            → AreKept self.new (M.maps maps.now) (place_of delta.now) (width delta.now) pays }
        ensures seat { OnOk result (HasSeat self.new (place_of delta.now) session) }
        ensures others { OnlyAt (place_of delta.now) self.old self.new }
        ensures seats { (s : ℕ) → HasSeat self.old (place_of delta.now) s → HasSeat self.new (place_of delta.now) s }
        ensures rooms { self.new.rooms ≡ self.old.rooms }
        ensures candidates { self.new.candidates ≡ self.old.candidates }
        ensures listed { StayListed self.old (M.maps maps.now) self.new (M.maps maps.now) }
    {
        let seat = Seat::new(self.alloc, delta.view, delta.group.as_slice())?;
        self.seats[session as usize].push(seat)?;
        seat_in(&mut self.rows, self.alloc, maps, delta, session)
    }

    /// Makes all that pays of the delta by the session and their taking back need: room in the row, and buffers, so that the
    /// session has at least `room`. A `pay` uses one, and its `take_back` another.
    ///
    /// # Errors
    ///
    /// Where there is no memory for it. No kept pay and no room is lost then.
    pub fn reserve<M: SortedMaps>(
        &mut self,
        maps: &M,
        delta: &GroupDelta,
        session: u32,
        room: usize,
    ) -> Result<(), NoMemory>
        requires session { IsSession session }
        requires delta { IsDelta delta.now }
        requires kept { (pays : Pays) × AreKept self.old (M.maps maps.now) (place_of delta.now) (width delta.now) pays }
        ensures kept { (pays : Pays) → AreKept self.old (M.maps maps.now) (place_of delta.now) (width delta.now) pays
            → AreKept self.new (M.maps maps.now) (place_of delta.now) (width delta.now) pays }
        ensures seat { OnOk result (HasSeat self.new (place_of delta.now) session) }
        ensures room { OnOk result (room ≤ room_of self.new session) }
        ensures rooms { (s : ℕ) → room_of self.old s ≤ room_of self.new s }
        ensures others { OnlyAt (place_of delta.now) self.old self.new }
        ensures seats { (s : ℕ) → HasSeat self.old (place_of delta.now) s → HasSeat self.new (place_of delta.now) s }
        ensures candidates { self.new.candidates ≡ self.old.candidates }
        ensures listed { StayListed self.old (M.maps maps.now) self.new (M.maps maps.now) }
    {
        if !self
            .rows
            .has_room(delta.view, delta.group.as_slice(), session)
        {
            self.sit(maps, delta, session)?;
        }
        self.pools[session as usize].fill(self.alloc, room)
    }

    /// The stored rows of a view whose encoded groups lie in the interval, in the order of these, ghosts included, as the
    /// maps hold them.
    ///
    /// # Errors
    ///
    /// Where there is no memory for them.
    pub fn read<M: SortedMaps>(
        &self,
        maps: &M,
        view: u32,
        interval: &Interval,
    ) -> Result<ViewRowList, NoMemory>
        requires { AreViewRows (M.maps maps.now view) }
        ensures { IfOk result (λ rows. Shows (between interval.now (map.entries (M.maps maps.now view))) rows) }
    {
        Ok(ViewRowList::from_vec(rows_between(self.alloc, maps, view, interval)?))
    }
}
