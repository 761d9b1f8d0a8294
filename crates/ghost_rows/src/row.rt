//! A row that open transactions pay to.
ghost use Rattle.std.specs.Prelude.{FitsSigned, ◌+ℤ◌, [], ◌∷◌, false, None, IfErr, ◌≡◌, ◌≢◌, ℕ, ◌<◌, ◌≤◌, ◌==◌, ℤ, pos, true, List, length, map, get_or, slice_get, Some, IsTrue, IsSome, IfSome, IfNone, IfOk, OnOk, OnErr, ◌↔◌, filter, not};
ghost use Rattle.std.specs.Option.{option_map};
ghost use Rattle.std.specs.List.{list_any, AllByRecursion};
ghost use Rattle.std.specs.Int.{w128, int_wrapping_add};
ghost use Rattle.iv_types.specs.Encoding.{IsHuge};
ghost use Rattle.iv_meaning.specs.Escrow.{IsSession};
ghost use Rattle.txn_machine.specs.Deltas.{worth};
ghost use Rattle.escrow_bounds.specs.Column as column;
ghost use Rattle.escrow_bounds.specs.Column.{Column, IsReserved, IsBeforeLatest, none, part, with_part, added, settled, untouched, least, greatest};
ghost use Rattle.ghost_rows.specs.Rows.{EachMoved, EachColumn, AreReserved, AreAllowed, IsFirstRefused, Widens};

use crate::numbers::{total, worth};
use crate::shares::{Share, remove, set, sum_at};
use escrow_bounds::{Escrow, Range};
use iv_types::{GroupDelta, NoMemory, Prefix, PrefixList};
use spare_map::Blank;
use std::alloc::Global;
use std::marker::Model;

/// A transaction without pays.
pub const NONE: Prefix = Prefix {
    sum: 0,
    lo: 0,
    hi: 0,
};

// The bounds of a column, if it refuses its increment of a delta.
fn refused(escrow: &mut Escrow, session: u32, delta: &GroupDelta, at: usize) -> Option<Range>
    requires session { IsSession session }
    requires reserved { IsReserved escrow.old session }
    requires delta { AllByRecursion IsHuge delta.now.sums }
    ensures same { escrow.new ≡ escrow.old }
    ensures allowed { IfNone result (column.IsAllowed escrow.old session (worth at delta.now)) }
    ensures refused { IfSome result (λ r. (column.IsAllowed escrow.old session (worth at delta.now) → ⊥) × (r ≡ record { inf = least escrow.old; sup = greatest escrow.old })) }
{
    match escrow.add(session, worth(delta, at)) {
        Ok(before) => {
            escrow.take_back(session, before);
            None
        }
        Err(range) => Some(range),
    }
}

// The first column that refuses a delta, and its bounds.
fn first_refused(columns: &mut [Escrow], session: u32, delta: &GroupDelta) -> Option<(u32, Range)>
    requires session { IsSession session }
    requires reserved { AreReserved session columns.old }
    requires delta { AllByRecursion IsHuge delta.now.sums }
    requires few { length columns.old ≤ 9 }
    ensures same { columns.new ≡ columns.old }
    ensures allowed { IfNone result (AreAllowed session delta.now columns.old) }
    ensures refused { IfSome result (λ r. IsFirstRefused session delta.now columns.old r.0 r.1) }
{
    for index in 0..columns.len() {
        if let Some(range) = refused(&mut columns[index], session, delta, index) {
            return Some((index as u32, range));
        }
    }
    None
}

// Adds a delta's increment of a column, which is allowed.
fn add(escrow: &mut Escrow, session: u32, delta: &GroupDelta, at: usize) -> Prefix
    requires session { IsSession session }
    requires reserved { IsReserved escrow.old session }
    requires delta { AllByRecursion IsHuge delta.now.sums }
    requires allowed { column.IsAllowed escrow.old session (worth at delta.now) }
    ensures value { escrow.new ≡ added escrow.old session (worth at delta.now) }
    ensures before { result ≡ part escrow.old session }
{
    match escrow.add(session, worth(delta, at)) {
        Ok(before) => before,
        Err(_) => unreachable!(),
    }
}

// Adds a delta that is allowed, and answers the session's prefixes before it.
fn add_all(columns: &mut [Escrow], session: u32, delta: &GroupDelta) -> PrefixList
    requires session { IsSession session }
    requires reserved { AreReserved session columns.old }
    requires delta { AllByRecursion IsHuge delta.now.sums }
    requires few { length columns.old ≤ 9 }
    requires allowed { AreAllowed session delta.now columns.old }
    ensures moves { EachMoved (λ i c. added c session (worth i delta.now)) columns.old columns.new }
    ensures before { EachColumn (λ i c. slice_get result i ≡ Some (part c session)) columns.old }
{
    let mut before = [NONE; 9];
    for index in 0..columns.len() {
        before[index] = add(&mut columns[index], session, delta, index);
    }
    before
}

// The prefix of a column.
fn prefix_at(before: &PrefixList, at: usize) -> Prefix
    requires { at < 9 }
    ensures { result ≡ get_or before.now at none }
{
    before[at]
}

// A session's share after a delta.
fn share_after(session: u32, before: &PrefixList, delta: &GroupDelta) -> Share
    ensures session { result.session ≡ session }
    ensures fits { FitsSigned w128 result.sum }
    ensures sum { FitsSigned w128 ((get_or before.now 0 none).sum +ℤ worth 0 delta.now) → result.sum ≡ (get_or before.now 0 none).sum +ℤ worth 0 delta.now }
{
    let sum = prefix_at(before, 0).sum.wrapping_add(worth(delta, 0));
    Share { session, sum }
}

// A session's share where its prefixes are these.
fn share_before(session: u32, before: &PrefixList) -> Share
    ensures session { result.session ≡ session }
    ensures fits { FitsSigned w128 result.sum }
    ensures sum { result.sum ≡ (get_or before.now 0 none).sum }
{
    let sum = prefix_at(before, 0).sum;
    Share { session, sum }
}

// Takes a session's latest delta back.
fn take_back_all(columns: &mut [Escrow], session: u32, before: &PrefixList)
    requires session { IsSession session }
    requires reserved { AreReserved session columns.old }
    requires few { length columns.old ≤ 9 }
    requires latest { EachColumn (λ i c. IsBeforeLatest (get_or before.now i none) (part c session)) columns.old }
    ensures moves { EachMoved (λ i c. with_part c session (get_or before.now i none)) columns.old columns.new }
{
    for index in 0..columns.len() {
        columns[index].take_back(session, prefix_at(before, index));
    }
}

// A session's increments become committed.
fn settle_all(columns: &mut [Escrow], session: u32)
    requires { IsSession session }
    ensures { EachMoved (λ i c. settled c session) columns.old columns.new }
{
    for index in 0..columns.len() {
        columns[index].settle(session);
    }
}

// Makes a session's room in each column. An `Err` leaves some room made.
fn reserve_all(columns: &mut [Escrow], session: u32) -> Result<(), NoMemory>
    requires { IsSession session }
    ensures widens { EachColumn (λ i c. IfSome (slice_get columns.new i) (Widens c)) columns.old }
    ensures ok { OnOk result (AreReserved session columns.new) }
{
    for index in 0..columns.len() {
        columns[index].reserve(session)?;
    }
    Ok(())
}

// Columns with these committed values.
fn columns_of(alloc: Global, numbers: &[i128]) -> Result<Vec<Escrow>, NoMemory>
    requires { AllByRecursion IsHuge numbers.now }
    ensures { IfOk result (λ columns. columns.items ≡ map untouched numbers.now) }
{
    let mut columns = Vec::new(alloc);
    for index in 0..numbers.len() {
        columns.push(Escrow::new(alloc, numbers[index])?)?;
    }
    Ok(columns)
}

// Whether a column can have one value alone, whatever becomes of the open transactions.
fn is_sure(column: &Escrow) -> bool
    ensures { (result ≡ true) ↔ (least column.now ≡ greatest column.now) }
{
    column.inf() == column.sup()
}

// The first number, if there is one.
fn first_number(numbers: &[i128]) -> i128
    ensures { (n : ℤ) → slice_get numbers.now 0 ≡ Some n → result ≡ n }
{
    match numbers.first() {
        Some(number) => *number,
        None => 0,
    }
}

/// A row that open transactions pay to, or may: the escrow of its columns, its committed count, and what each session's
/// transaction has added to its count. A session with a share has room in the row.
#[derive(Drop)]
pub struct Row {
    columns: Vec<Escrow>,
    committed: i128,
    shares: Vec<Share>,
}

impl Model for Row {
    ghost use Rattle.ghost_rows.specs.Rows.{OpenRow, coded_row};

    ghost Value = { OpenRow };

    ghost coded = { coded_row };

    ghost view = { λ r. record { columns = r.columns.items; committed = r.committed; shares = r.shares.items } };
}

impl Blank for Row {
    fn blank(alloc: Global) -> Self {
        Row {
            columns: Vec::new(alloc),
            committed: 0,
            shares: Vec::new(alloc),
        }
    }
}

impl Row {
    ghost use Rattle.ghost_rows.specs.Rows.{HasRoom, settled_row, is_open};
    ghost use Rattle.ghost_rows.specs.Shares.{sum_at};
    ghost use Rattle.ghost_rows.specs.Numbers.{moved};
    ghost use Rattle.ghost_rows.specs.Kept.{Pays, no_pays, with_pays, increments, width, IsDelta, RowStands, IsRefusedAt, IsPaidLast, ArePrefixes, committed_at, IsAllowedIn, AllCount, IsUnpaid, IsAsBefore, Keeps};

    /// A row without open transactions, whose numbers are these.
    ///
    /// # Errors
    ///
    /// Where there is no memory for it.
    pub fn new(alloc: Global, numbers: &[i128]) -> Result<Row, NoMemory>
        requires { AllByRecursion IsHuge numbers.now }
        ensures stands { IfOk result (λ row. RowStands row numbers.now no_pays) }
        ensures shares { IfOk result (λ row. row.shares ≡ []) }
    {
        let columns = columns_of(alloc, numbers)?;
        let committed = first_number(numbers);
        Ok(Row {
            columns,
            committed,
            shares: Vec::new(alloc),
        })
    }

    /// Makes a session's room in the row, if it has none yet.
    ///
    /// # Errors
    ///
    /// Where there is no memory for it. The row stands for what it stood for.
    pub fn reserve(&mut self, session: u32) -> Result<(), NoMemory>
        requires { IsSession session }
        ensures room { OnOk result (HasRoom session self.new) }
        ensures keeps { Keeps session self.old self.new }
    {
        reserve_all(&mut self.columns, session)?;
        if sum_at(&self.shares, session).is_none() {
            self.shares.push(Share { session, sum: 0 })?;
        }
        Ok(())
    }

    /// Adds a delta of a session that has room, and answers its prefixes before it.
    ///
    /// # Errors
    ///
    /// The first column that refuses the delta, and its bounds. The row is as before.
    pub fn pay(&mut self, session: u32, delta: &GroupDelta) -> Result<PrefixList, (u32, Range)>
        requires session { IsSession session }
        requires delta { IsDelta delta.now }
        requires room { HasRoom session self.old }
        requires stands { (numbers : List ℤ) × (pays : Pays) × (length numbers ≡ width delta.now) × RowStands self.old numbers pays }
        ensures paid { IfOk result (λ before. (numbers : List ℤ) (pays : Pays) → RowStands self.old numbers pays
            → RowStands self.new (moved false 0 numbers delta.now) (with_pays pays session (delta.now ∷ pays session))) }
        ensures before { IfOk result (λ before. (numbers : List ℤ) (pays : Pays) → RowStands self.old numbers pays → ArePrefixes before (length numbers) (pays session)) }
        ensures allowed { OnOk result ((numbers : List ℤ) (pays : Pays) → RowStands self.old numbers pays → IsAllowedIn (committed_at self.old) pays session delta.now (length numbers)) }
        ensures refused { IfErr result (λ e. (numbers : List ℤ) (pays : Pays) → length numbers ≡ width delta.now → RowStands self.old numbers pays
            → IsRefusedAt (committed_at self.old) pays session delta.now e.0 e.1.inf e.1.sup) }
        ensures err { OnErr result (self.new ≡ self.old) }
        ensures same { IsAsBefore self.old self.new }
    {
        if let Some(found) = first_refused(&mut self.columns, session, delta) {
            return Err(found);
        }
        let before = add_all(&mut self.columns, session, delta);
        set(&mut self.shares, share_after(session, &before, delta));
        Ok(before)
    }

    /// Takes a session's latest delta back, before which its prefixes were these.
    pub fn take_back(&mut self, session: u32, delta: &GroupDelta, before: &PrefixList)
        requires session { IsSession session }
        requires delta { IsDelta delta.now }
        requires latest { (numbers : List ℤ) × (pays : Pays) × (length numbers ≡ width delta.now) × RowStands self.old numbers pays × IsPaidLast pays session delta.now before.now }
        ensures taken { (numbers : List ℤ) (pays : Pays) (earlier : List GroupDelta) → RowStands self.old numbers pays → pays session ≡ delta.now ∷ earlier
            → ArePrefixes before.now (length numbers) earlier → RowStands self.new (moved true 0 numbers delta.now) (with_pays pays session earlier) }
        ensures same { IsAsBefore self.old self.new }
    {
        take_back_all(&mut self.columns, session, before);
        set(&mut self.shares, share_before(session, before));
    }

    /// A session's pays become committed, and its room goes.
    pub fn settle(&mut self, session: u32)
        requires { IsSession session }
        ensures stands { (numbers : List ℤ) (pays : Pays) → RowStands self.old numbers pays → RowStands self.new numbers (with_pays pays session []) }
        ensures value { self.new ≡ settled_row session self.old }
    {
        if let Some(sum) = sum_at(&self.shares, session) {
            settle_all(&mut self.columns, session);
            self.committed = total(self.committed, sum);
            remove(&mut self.shares, session);
        }
    }

    /// Whether a session has room in the row.
    pub fn has_room(&self, session: u32) -> bool
        ensures { result ≡ true → HasRoom session self.now }
    {
        sum_at(&self.shares, session).is_some()
    }

    /// Whether any session has room in the row.
    pub fn is_open(&self) -> bool
        ensures { result ≡ is_open self.now }
    {
        !self.shares.is_empty()
    }

    /// Whether no session has a kept pay on the row. The count tells, where each kept pay adds to it or takes from it.
    pub fn is_unpaid(&self) -> bool
        ensures { (numbers : List ℤ) (pays : Pays) → 1 ≤ length numbers → RowStands self.now numbers pays → AllCount pays → (result ≡ true) ↔ IsUnpaid pays }
    {
        match self.columns.first() {
            Some(count) => is_sure(count),
            None => true,
        }
    }

    /// The committed numbers: the count and the sums.
    ///
    /// # Errors
    ///
    /// Where there is no memory for them.
    pub fn committed_numbers(&self, alloc: Global) -> Result<Vec<i128>, NoMemory>
        ensures { IfOk result (λ found. found.items ≡ map (λ c. c.committed) self.now.columns) }
    {
        let mut found = Vec::new(alloc);
        for index in 0..self.columns.len() {
            found.push(self.columns[index].committed())?;
        }
        Ok(found)
    }

    /// The committed count.
    pub fn committed(&self) -> i128
        ensures { result ≡ self.now.committed }
    {
        self.committed
    }
}
