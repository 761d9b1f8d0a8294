//! Ghosts among the stored rows, and what is committed of them.
ghost use Rattle.std.specs.Int.{w128};
ghost use Rattle.std.specs.Prelude.{FitsSigned, get_or, suc, ◌≡◌, ◌≢◌, ◌<◌, ◌≤◌, ◌+◌, ◌-◌, ◌*◌, ◌^◌, map, ◌↔◌, ℕ, ℤ, pos, List, ◌∷◌, length, Option, false, true, Some, None, IsSome, IfOk, IfSome, OnOk, OnErr, if◌then◌else◌};
ghost use Rattle.std.specs.FinMap.{get, insert, remove};
ghost use Rattle.iv_types.specs.Maps.{Map};
ghost use Rattle.table_laws.specs.Place.{Place};
ghost use Rattle.txn_machine.specs.Stored.{zeros};
ghost use Rattle.spare_map.specs.Trees.{is_from};
ghost use Rattle.iv_meaning.specs.Escrow.{value};
ghost use Rattle.ghost_rows.specs.Numbers.{numbers_bytes, Fits128};
ghost use Rattle.ghost_rows.specs.Rows.{row_at, OpenRow};
ghost use Rattle.ghost_rows.specs.Candidates.{IsFirstFrom};
ghost use Rattle.ghost_rows.specs.State.{State, stored_at, AreKept, CanStore, StoresOnlyAt};
ghost use Rattle.ghost_rows.specs.Kept.{account, Pays, no_pays, AllCount, IsUnpaid, StandsFor};
ghost use Rattle.ghost_rows.specs.Ghosts.{AreCommitted, IsGhost, IsCandidate, StayListed};

use crate::numbers::{bytes_of, front, numbers_of};
use crate::opening::zeros;
use crate::seats::Seat;
use crate::view_rows::ViewRows;
use iv_types::{Bytes, NoMemory, NumberList, SortedMaps};
use std::alloc::Global;

// The value of a row of zeros.
fn zero_row(alloc: Global, many: usize) -> Result<Bytes, NoMemory>
    ensures { IfOk result (λ bytes. bytes ≡ numbers_bytes (zeros many)) }
{
    let numbers = zeros(alloc, many)?;
    let bytes = bytes_of(alloc, &numbers)?;
    Ok(bytes)
}

impl ViewRows {
    /// Stores a row of zeros, its count and so many sums, at a place where none is stored. It is a ghost, and so a candidate.
    /// Then the view's index has room for `room` entries more.
    ///
    /// # Errors
    ///
    /// Where there is no memory for it. Nothing is changed then, but that the index may have got room.
    pub fn make_ghost<M: SortedMaps>(
        &mut self,
        maps: &mut M,
        view: u32,
        group: &[u8],
        sums: u32,
        room: u32,
    ) -> Result<(), NoMemory>
        requires sums { sums ≤ 8 }
        requires room { room < 2 ^ 32 - 1 }
        requires absent { stored_at (M.maps maps.old) (view, group.now) ≡ None }
        requires can { CanStore (M.maps maps.old) (M.limit maps.old) (view, group.now) (suc sums) }
        ensures made { OnOk result (stored_at (M.maps maps.new) (view, group.now) ≡ Some (numbers_bytes (zeros (suc sums)))) }
        ensures kept { OnOk result ((pays : Pays) → AreKept self.old (M.maps maps.old) (view, group.now) (suc sums) pays
            → AreKept self.new (M.maps maps.new) (view, group.now) (suc sums) pays) }
        ensures candidate { OnOk result (self.new.candidates ≡ insert self.old.candidates (view, group.now) tt) }
        ensures err { OnErr result ((self.new ≡ self.old) × ((i : ℕ) → M.maps maps.new i ≡ M.maps maps.old i)) }
        ensures rows { self.new.rows ≡ self.old.rows }
        ensures rooms { self.new.rooms ≡ self.old.rooms }
        ensures stores { StoresOnlyAt (view, group.now) (M.maps maps.old) (M.maps maps.new) }
        ensures listed { StayListed self.old (M.maps maps.old) self.new (M.maps maps.new) }
        ensures room { OnOk result (room ≤ M.spare maps.new view) }
        ensures spare { M.spare maps.old view ≤ M.spare maps.new view + 1 }
        ensures other_spares { (i : ℕ) → i ≢ view → M.spare maps.old i ≤ M.spare maps.new i }
        ensures limit { M.limit maps.new ≡ M.limit maps.old }
    {
        let value = zero_row(self.alloc, sums as usize + 1)?;
        let seat = Seat::new(self.alloc, view, group)?;
        let key = Bytes::from_vec(Vec::from_slice(self.alloc, group)?);
        maps.reserve(view, room + 1)?;
        maps.insert(view, key, value);
        self.candidates.add(seat);
        Ok(())
    }

    /// Takes away the row of a place, which is a row of zeros on which no pay is kept. Its place is no candidate any more.
    pub fn remove_ghost<M: SortedMaps>(&mut self, maps: &mut M, view: u32, group: &[u8])
        requires { (many : ℕ) × AreKept self.old (M.maps maps.old) (view, group.now) (suc many) no_pays × (stored_at (M.maps maps.old) (view, group.now) ≡ Some (numbers_bytes (zeros (suc many)))) }
        ensures gone { stored_at (M.maps maps.new) (view, group.now) ≡ None }
        ensures kept { (many : ℕ) → AreKept self.old (M.maps maps.old) (view, group.now) (suc many) no_pays → AreKept self.new (M.maps maps.new) (view, group.now) (suc many) no_pays }
        ensures candidates { self.new.candidates ≡ remove self.old.candidates (view, group.now) }
        ensures rows { self.new.rows ≡ self.old.rows }
        ensures rooms { self.new.rooms ≡ self.old.rooms }
        ensures stores { StoresOnlyAt (view, group.now) (M.maps maps.old) (M.maps maps.new) }
        ensures listed { StayListed self.old (M.maps maps.old) self.new (M.maps maps.new) }
        ensures spare { M.spare maps.old view + 1 ≤ M.spare maps.new view }
        ensures other_spares { (i : ℕ) → i ≢ view → M.spare maps.old i ≤ M.spare maps.new i }
        ensures limit { M.limit maps.new ≡ M.limit maps.old }
    {
        maps.remove(view, group);
        self.candidates.forget(view, group);
    }

    // The committed count of a row that is stored.
    fn count_of(&self, view: u32, group: &[u8], stored: &[u8]) -> i128
        requires { 16 ≤ length stored.now }
        ensures here { (row : OpenRow) → row_at self.now.rows (view, group.now) ≡ Some row → result ≡ row.committed }
        ensures closed { row_at self.now.rows (view, group.now) ≡ None → (n : ℤ) (ns : List ℤ) → FitsSigned w128 n → stored.now ≡ numbers_bytes (n ∷ ns) → result ≡ n }
    {
        match self.rows.get(view, group) {
            Some(row) => row.committed(),
            None => front(stored).0,
        }
    }

    /// Whether a row is stored whose committed count is 0.
    pub fn is_ghost<M: SortedMaps>(&self, maps: &M, view: u32, group: &[u8]) -> bool
        requires { (many : ℕ) × (pays : Pays) × AreKept self.now (M.maps maps.now) (view, group.now) (suc many) pays }
        ensures absent { stored_at (M.maps maps.now) (view, group.now) ≡ None → result ≡ false }
        ensures count { (many : ℕ) (pays : Pays) (kept : AreKept self.now (M.maps maps.now) (view, group.now) (suc many) pays) (count : ℤ)
            → value (account count 0 pays) ≡ get_or kept.numbers 0 (pos 0) → IsSome (stored_at (M.maps maps.now) (view, group.now)) → (result ≡ true) ↔ (count ≡ pos 0) }
        ensures answer { (result ≡ true) ↔ IsGhost self.now (M.maps maps.now) (view, group.now) }
    {
        match self.committed_count(maps, view, group) {
            Some(count) => count == 0,
            None => false,
        }
    }

    // Whether no session has a kept pay on the row of a place. The count tells, where each kept pay adds to it or takes
    // from it.
    fn is_unpaid(&self, view: u32, group: &[u8]) -> bool
        ensures { (stored : Option (List ℕ)) (many : ℕ) (pays : Pays) → StandsFor (row_at self.now.rows (view, group.now)) stored (suc many) pays
            → AllCount pays → (result ≡ true) ↔ IsUnpaid pays }
    {
        match self.rows.get(view, group) {
            Some(row) => row.is_unpaid(),
            None => true,
        }
    }

    /// Whether a row is stored whose committed count is 0, on which no session has a kept pay, which is not locked and has
    /// no versions. Each kept pay adds 1 to the count or takes 1 from it.
    pub fn cleanable<M: SortedMaps>(
        &self,
        maps: &M,
        view: u32,
        group: &[u8],
        locked: bool,
        versions: bool,
    ) -> bool
        requires { (many : ℕ) × (pays : Pays) × AreKept self.now (M.maps maps.now) (view, group.now) (suc many) pays }
        ensures absent { stored_at (M.maps maps.now) (view, group.now) ≡ None → result ≡ false }
        ensures only { result ≡ true → (locked ≡ false) × (versions ≡ false) }
        ensures exact { locked ≡ false → versions ≡ false
            → (many : ℕ) (pays : Pays) (kept : AreKept self.now (M.maps maps.now) (view, group.now) (suc many) pays) (count : ℤ)
            → value (account count 0 pays) ≡ get_or kept.numbers 0 (pos 0) → IsSome (stored_at (M.maps maps.now) (view, group.now)) → AllCount pays
            → (result ≡ true) ↔ ((count ≡ pos 0) × IsUnpaid pays) }
    {
        if locked {
            return false;
        }
        if versions {
            return false;
        }
        if !self.is_unpaid(view, group) {
            return false;
        }
        self.is_ghost(maps, view, group)
    }

    /// The committed numbers of the row of a place, its count and its sums: what is stored without all kept pays. There are none where no row is stored.
    ///
    /// # Errors
    ///
    /// Where there is no memory for them.
    pub fn committed<M: SortedMaps>(
        &self,
        maps: &M,
        view: u32,
        group: &[u8],
    ) -> Result<Option<NumberList>, NoMemory>
        requires { (many : ℕ) × (pays : Pays) × AreKept self.now (M.maps maps.now) (view, group.now) (suc many) pays }
        ensures none { IfOk result (λ found. (found ≡ None) ↔ (stored_at (M.maps maps.now) (view, group.now) ≡ None)) }
        ensures numbers { IfOk result (λ found. IfSome found (AreCommitted self.now (M.maps maps.now) (view, group.now))) }
    {
        let Some(stored) = maps.get(view, group) else {
            return Ok(None);
        };
        let numbers = self.numbers_less(view, group, stored)?;
        Ok(Some(NumberList::from_vec(numbers)))
    }

    /// The committed count of the row of a place, if it is stored. It takes no memory.
    pub fn committed_count<M: SortedMaps>(&self, maps: &M, view: u32, group: &[u8]) -> Option<i128>
        requires { (many : ℕ) × (pays : Pays) × AreKept self.now (M.maps maps.now) (view, group.now) (suc many) pays }
        ensures none { (result ≡ None) ↔ (stored_at (M.maps maps.now) (view, group.now) ≡ None) }
        ensures count { IfSome result (λ count. (many : ℕ) (pays : Pays) (kept : AreKept self.now (M.maps maps.now) (view, group.now) (suc many) pays)
            → value (account count 0 pays) ≡ get_or kept.numbers 0 (pos 0)) }
    {
        match maps.get(view, group) {
            Some(stored) => Some(self.count_of(view, group, stored)),
            None => None,
        }
    }

    // The committed numbers of a row that is stored.
    fn numbers_less(&self, view: u32, group: &[u8], stored: &[u8]) -> Result<Vec<i128>, NoMemory>
        requires { (many : ℕ) × (length stored.now ≡ 16 * many) }
        ensures here { IfOk result (λ found. (row : OpenRow) → row_at self.now.rows (view, group.now) ≡ Some row → found.items ≡ map (λ c. c.committed) row.columns) }
        ensures closed { IfOk result (λ found. row_at self.now.rows (view, group.now) ≡ None → (numbers : List ℤ) → Fits128 numbers → stored.now ≡ numbers_bytes numbers → found.items ≡ numbers) }
    {
        match self.rows.get(view, group) {
            Some(row) => row.committed_numbers(self.alloc),
            None => numbers_of(self.alloc, stored, stored.len() / 16),
        }
    }

    /// Adds a place to the candidates.
    ///
    /// # Errors
    ///
    /// Where there is no memory for it. Nothing is changed then.
    pub fn add_candidate(&mut self, view: u32, group: &[u8]) -> Result<(), NoMemory>
        ensures ok { OnOk result (self.new.candidates ≡ insert self.old.candidates (view, group.now) tt) }
        ensures err { OnErr result (self.new ≡ self.old) }
        ensures rows { self.new.rows ≡ self.old.rows }
        ensures rooms { self.new.rooms ≡ self.old.rooms }
        ensures listed { (maps : ℕ → Map) → StayListed self.old maps self.new maps }
    {
        let seat = Seat::new(self.alloc, view, group)?;
        self.candidates.add(seat);
        Ok(())
    }

    /// Whether the row of a place is a ghost. Where it is none, the place is no candidate any more.
    pub fn drop_unless_ghost<M: SortedMaps>(&mut self, maps: &M, view: u32, group: &[u8]) -> bool
        requires { (many : ℕ) × (pays : Pays) × AreKept self.old (M.maps maps.now) (view, group.now) (suc many) pays }
        ensures answer { (result ≡ true) ↔ IsGhost self.old (M.maps maps.now) (view, group.now) }
        ensures candidates { self.new.candidates ≡ (if result then self.old.candidates else remove self.old.candidates (view, group.now)) }
        ensures rows { self.new.rows ≡ self.old.rows }
        ensures rooms { self.new.rooms ≡ self.old.rooms }
        ensures listed { StayListed self.old (M.maps maps.now) self.new (M.maps maps.now) }
    {
        if self.is_ghost(maps, view, group) {
            return true;
        }
        self.candidates.forget(view, group);
        false
    }

    /// The first candidate at a place or behind it, if there is one.
    pub fn first_candidate(&self, view: u32, group: &[u8]) -> Option<(u32, &[u8])>
        ensures some { IfSome result (λ place. IsFirstFrom false (view, group.now) self.now.candidates (place.0, place.1.now)) }
        ensures none { result ≡ None → (q : Place) → is_from false (view, group.now) q ≡ true → get self.now.candidates q ≡ None }
    {
        self.candidates.first_at(view, group)
    }

    /// The first candidate behind a place, if there is one.
    pub fn next_candidate(&self, view: u32, group: &[u8]) -> Option<(u32, &[u8])>
        ensures some { IfSome result (λ place. IsFirstFrom true (view, group.now) self.now.candidates (place.0, place.1.now)) }
        ensures none { result ≡ None → (q : Place) → is_from true (view, group.now) q ≡ true → get self.now.candidates q ≡ None }
    {
        self.candidates.first_after(view, group)
    }
}
