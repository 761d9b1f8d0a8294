//! The rows that open transactions pay to, by their places.
ghost use Rattle.std.specs.Prelude.{◌≡◌, ◌≢◌, ◌↔◌, ℕ, true, Some, None, IsSome, IfSome, IfOk, IfErr, OnOk, OnErr};
ghost use Rattle.std.specs.Option.{option_copied};
ghost use Rattle.std.specs.FinMap.{insert};
ghost use Rattle.table_laws.specs.Place.{Place};
ghost use Rattle.iv_meaning.specs.Escrow.{IsSession};
ghost use Rattle.ghost_rows.specs.Rows.{OpenRow, no_rows, row_at, HasRoom, IsSeated, ChangesRow, settled_row, settled_at};
ghost use Rattle.ghost_rows.specs.Kept.{IsDelta, CanPay, IsPaid, Refuses, CanTakeBack, IsTaken, Keeps};

use crate::row::Row;
use escrow_bounds::Range;
use iv_types::{Bytes, GroupDelta, NoMemory, PrefixList};
use spare_map::{Blank, Spare, SpareMap};
use std::alloc::Global;
use std::marker::Model;

/// The rows that open transactions pay to, in the order of their places: a view's number and an encoded group.
#[derive(Drop)]
pub struct Table {
    alloc: Global,
    rows: SpareMap<Row>,
}

impl Model for Table {
    ghost use Rattle.ghost_rows.specs.Rows.{OpenRows, coded_rows};

    ghost Value = { OpenRows };

    ghost coded = { coded_rows };

    ghost view = { λ t. t.rows.entries };
}

impl Table {
    /// No rows, which take no memory.
    pub fn new(alloc: Global) -> Table
        ensures { result ≡ no_rows }
    {
        Table {
            alloc,
            rows: SpareMap::new(),
        }
    }

    /// The row of a place, if it is there.
    pub fn get(&self, view: u32, group: &[u8]) -> Option<&Row>
        ensures { option_copied result ≡ row_at self.now (view, group.now) }
    {
        self.rows.get(view, group)
    }

    /// Whether a session has room in the row of a place.
    pub fn has_room(&self, view: u32, group: &[u8], session: u32) -> bool
        ensures { result ≡ true → IsSeated self.now (view, group.now) session }
    {
        match self.rows.get(view, group) {
            Some(row) => row.has_room(session),
            None => false,
        }
    }

    /// Adds a row at a place where none is.
    ///
    /// # Errors
    ///
    /// Where there is no memory for it.
    pub fn insert(&mut self, view: u32, group: Bytes, row: Row) -> Result<(), NoMemory>
        requires { row_at self.old (view, group) ≡ None }
        ensures ok { OnOk result (ChangesRow (view, group) row self.old self.new) }
        ensures err { OnErr result (self.new ≡ self.old) }
    {
        let spare = Spare::new(self.alloc)?;
        self.rows.insert_into(spare, view, group, row);
        Ok(())
    }

    // Takes the row of a place, which is there, in whose stead one without columns stands.
    fn lift(&mut self, view: u32, group: &[u8]) -> Row
        requires { IsSome (row_at self.old (view, group.now)) }
        ensures row { row_at self.old (view, group.now) ≡ Some result }
        ensures there { IsSome (row_at self.new (view, group.now)) }
        ensures others { (q : Place) → q ≢ (view, group.now) → row_at self.new q ≡ row_at self.old q }
    {
        let blank = Row::blank(self.alloc);
        self.rows.replace(view, group, blank)
    }

    // Puts a row in the stead of the one of a place.
    fn lay(&mut self, view: u32, group: &[u8], row: Row)
        requires { IsSome (row_at self.old (view, group.now)) }
        ensures { self.new ≡ insert self.old (view, group.now) row }
    {
        self.rows.replace(view, group, row);
    }

    /// Makes a session's room in the row of a place, which is there.
    ///
    /// # Errors
    ///
    /// Where there is no memory for it.
    pub fn reserve(&mut self, view: u32, group: &[u8], session: u32) -> Result<(), NoMemory>
        requires session { IsSession session }
        requires there { IsSome (row_at self.old (view, group.now)) }
        ensures keeps { (row : OpenRow) → row_at self.old (view, group.now) ≡ Some row
            → (after : OpenRow) × ChangesRow (view, group.now) after self.old self.new × Keeps session row after }
        ensures room { OnOk result (IfSome (row_at self.new (view, group.now)) (HasRoom session)) }
    {
        let mut row = self.lift(view, group);
        let made = row.reserve(session);
        self.lay(view, group, row);
        made
    }

    /// Adds a delta to the row of a place, which is there.
    ///
    /// # Errors
    ///
    /// The first column that refuses the delta, and its bounds. The rows are as before.
    pub fn pay(
        &mut self,
        view: u32,
        group: &[u8],
        session: u32,
        delta: &GroupDelta,
    ) -> Result<PrefixList, (u32, Range)>
        requires session { IsSession session }
        requires delta { IsDelta delta.now }
        requires row { (row : OpenRow) × (row_at self.old (view, group.now) ≡ Some row) × CanPay session delta.now row }
        ensures paid { IfOk result (λ before. (row : OpenRow) → row_at self.old (view, group.now) ≡ Some row
            → (after : OpenRow) × ChangesRow (view, group.now) after self.old self.new × IsPaid session delta.now before row after) }
        ensures refused { IfErr result (λ e. (row : OpenRow) → row_at self.old (view, group.now) ≡ Some row → Refuses session delta.now row e.0 e.1.inf e.1.sup) }
        ensures err { OnErr result ((q : Place) → row_at self.new q ≡ row_at self.old q) }
    {
        let mut row = self.lift(view, group);
        let paid = row.pay(session, delta);
        self.lay(view, group, row);
        paid
    }

    /// Takes a session's latest delta back from the row of a place.
    pub fn take_back(
        &mut self,
        view: u32,
        group: &[u8],
        session: u32,
        delta: &GroupDelta,
        before: &PrefixList,
    )
        requires session { IsSession session }
        requires delta { IsDelta delta.now }
        requires row { (row : OpenRow) × (row_at self.old (view, group.now) ≡ Some row) × CanTakeBack session delta.now before.now row }
        ensures { (row : OpenRow) → row_at self.old (view, group.now) ≡ Some row
            → (after : OpenRow) × ChangesRow (view, group.now) after self.old self.new × IsTaken session delta.now before.now row after }
    {
        let mut row = self.lift(view, group);
        row.take_back(session, delta, before);
        self.lay(view, group, row);
    }

    /// A session's pays become committed in the row of a place, if it is there, and the row is let go if no session has
    /// room in it then. Answers the committed count of the row.
    pub fn settle(&mut self, view: u32, group: &[u8], session: u32) -> Option<i128>
        requires { IsSession session }
        ensures here { row_at self.new (view, group.now) ≡ settled_at session (row_at self.old (view, group.now)) }
        ensures others { (q : Place) → q ≢ (view, group.now) → row_at self.new q ≡ row_at self.old q }
        ensures count { IfSome result (λ count. (row : OpenRow) → row_at self.old (view, group.now) ≡ Some row → count ≡ (settled_row session row).committed) }
        ensures none { (result ≡ None) ↔ (row_at self.old (view, group.now) ≡ None) }
    {
        self.rows.get(view, group)?;
        let mut row = self.lift(view, group);
        row.settle(session);
        let count = row.committed();
        if row.is_open() {
            self.lay(view, group, row);
        } else {
            self.rows.take(self.alloc, view, group);
        }
        Some(count)
    }
}
