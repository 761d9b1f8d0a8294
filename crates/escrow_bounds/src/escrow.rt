//! The bounds of a column.
ghost use Rattle.std.specs.Prelude.{◌≡◌, ℕ, ◌≤◌, ℤ, ◌+ℤ◌, ◌-ℤ◌, ◌≤ℤ◌, ◌↔◌, List, [], ◌∷◌, IsOk, OnOk, OnErr, IfOk, IfErr, IfSome, IsSome};
ghost use Rattle.iv_types.specs.Encoding.{IsHuge};
ghost use Rattle.iv_meaning.specs.Escrow.{Account, IsSession, IsAllowed, IsLeftOf, inf, sup, value, with_kept, with_increment, settled, prefix_of, untouched};
ghost use Rattle.escrow_bounds.specs.Column as column;
ghost use Rattle.escrow_bounds.specs.Column.{IsReserved, IsBeforeLatest, Stands, Follows, Narrows, KeepsRoom, KeepsOtherRoom, part, with_part, without, least, greatest, added, after};
ghost use Rattle.escrow_bounds.specs.Parts.{IsWithin, AreHuge, moved_by};

use crate::bounds;
use crate::part::{Part, place, remove};
use iv_types::{NoMemory, Prefix};
use std::alloc::Global;
use std::marker::Model;

/// The least and the greatest value that a column can have, whatever becomes of the open transactions.
#[derive(Clone, Copy, Debug, PartialEq, Eq)]
pub struct Range {
    pub inf: i128,
    pub sup: i128,
}

// A transaction without increments.
const NONE: Prefix = Prefix {
    sum: 0,
    lo: 0,
    hi: 0,
};

// The bounds where one session's prefix becomes another.
fn moved(bounds: Range, from: Prefix, to: Prefix) -> Range
    requires rest { IsWithin (bounds.inf -ℤ from.lo) (bounds.sup -ℤ from.hi) }
    requires fits { IsWithin (moved_by bounds from to).inf (moved_by bounds from to).sup }
    ensures { result ≡ moved_by bounds from to }
{
    Range {
        inf: bounds.inf - from.lo + to.lo,
        sup: bounds.sup - from.hi + to.hi,
    }
}

// The same where the bounds may leave the column's range.
fn moved_in_range(bounds: Range, from: Prefix, to: Prefix) -> Option<Range>
    requires { IsWithin (bounds.inf -ℤ from.lo) (bounds.sup -ℤ from.hi) }
    ensures value { IfSome result (λ r. r ≡ moved_by bounds from to) }
    ensures huge { IsSome result ↔ AreHuge (moved_by bounds from to) }
{
    let inf = bounds::exchanged(bounds.inf, from.lo, to.lo)?;
    let sup = bounds::exchanged(bounds.sup, from.hi, to.hi)?;
    Some(Range { inf, sup })
}

// A transaction's prefix after one more increment, if its sum lies in the column's range.
fn grown(before: Prefix, delta: i128) -> Option<Prefix>
    ensures value { IfSome result (λ p. p ≡ after before delta) }
    ensures huge { IsSome result ↔ IsHuge (after before delta).sum }
{
    let sum = bounds::sum(before.sum, delta)?;
    Some(Prefix {
        sum,
        lo: before.lo.min(sum),
        hi: before.hi.max(sum),
    })
}

/// A column's committed value, its bounds, and what each session's open transaction has added to it. The bounds are
/// kept up, so that a call touches its own session's part alone; memory grows with the sessions that have room.
#[derive(Drop)]
pub struct Escrow {
    committed: i128,
    bounds: Range,
    parts: Vec<Part>,
}

impl Model for Escrow {
    ghost use Rattle.std.specs.Prelude.{refl};
    ghost use Rattle.std.specs.Coded.{coded_ℤ, coded_ℕ, coded×, code_by};
    ghost use Rattle.std.specs.FinMap.{code};
    ghost use Rattle.iv_types.specs.contracts.lock.Prefix as prefix;
    ghost use Rattle.escrow_bounds.specs.Column.{Column};
    ghost use Rattle.escrow_bounds.specs.Parts.{parts_of, Keeps};

    ghost Value = { Column };

    ghost coded = { code_by _ (coded× coded_ℤ (code coded_ℕ prefix.the_row.coded)) (λ c. (c.committed, c.parts)) (λ p. record { committed = p.0; parts = p.1 }) (λ _. refl) };

    ghost view = { λ e. record { committed = e.committed; parts = parts_of e.parts.items } };

    ghost invariant = { λ e. Keeps (record { committed = e.committed; parts = parts_of e.parts.items }) e.bounds.inf e.bounds.sup };
}

impl Escrow {
    /// A column without open transactions. Its committed value lies in the HUGE range, from -(2^127 - 1) to 2^127 - 1.
    pub fn new(alloc: Global, committed: i128) -> Result<Escrow, NoMemory>
        requires { IsHuge committed }
        ensures value { IfOk result (λ e. e ≡ column.untouched committed) }
        ensures account { IfOk result (λ e. Stands e (untouched committed)) }
    {
        Ok(Escrow {
            committed,
            bounds: Range {
                inf: committed,
                sup: committed,
            },
            parts: Vec::new(alloc),
        })
    }

    /// Makes the room that a session's transaction takes, if it has none yet. The session is 1 to 64.
    ///
    /// # Errors
    ///
    /// Where there is no memory. No other call takes any.
    pub fn reserve(&mut self, session: u32) -> Result<(), NoMemory>
        requires { IsSession session }
        ensures ok { OnOk result (self.new ≡ with_part self.old session (part self.old session)) }
        ensures err { OnErr result (self.new ≡ self.old) }
        ensures reserved { OnOk result (IsReserved self.new session) }
        ensures room { KeepsRoom self.old self.new }
        ensures account { Follows self.old self.new (λ a. a) }
    {
        if place(&self.parts, session).is_none() {
            self.parts.push(Part {
                session,
                prefix: NONE,
            })?;
        }
        Ok(())
    }

    /// Adds an increment of a session's transaction, and answers the transaction's prefix before it. The session has
    /// room, and the increment lies in the HUGE range.
    ///
    /// # Errors
    ///
    /// The bounds before the increment, exactly where one of the bounds after it or the transaction's sum after it
    /// leaves the HUGE range. Nothing is changed then.
    pub fn add(&mut self, session: u32, delta: i128) -> Result<Prefix, Range>
        requires session { IsSession session }
        requires reserved { IsReserved self.old session }
        requires delta { IsHuge delta }
        ensures before { IfOk result (λ p. p ≡ part self.old session) }
        ensures ok { OnOk result (self.new ≡ added self.old session delta) }
        ensures allowed { IsOk result ↔ column.IsAllowed self.old session delta }
        ensures range { IfErr result (λ r. r ≡ record { inf = least self.old; sup = greatest self.old }) }
        ensures err { OnErr result (self.new ≡ self.old) }
        ensures room { KeepsRoom self.old self.new }
        // It can be taken back.
        ensures latest { IfOk result (λ p. IsBeforeLatest p (part self.new session)) }
        // By the meaning: the increment is the transaction's latest.
        ensures account { OnOk result (Follows self.old self.new (λ a. with_increment a session delta)) }
        ensures account_allowed { (a : Account) → Stands self.old a → (IsOk result ↔ IsAllowed a session delta) }
        ensures account_range { (a : Account) → Stands self.old a → IfErr result (λ r. (r.inf ≡ inf a) × (r.sup ≡ sup a)) }
    {
        let place = place(&self.parts, session).unwrap();
        let before = self.parts[place].prefix;
        let Some(prefix) = grown(before, delta) else {
            return Err(self.bounds);
        };
        let Some(bounds) = moved_in_range(self.bounds, before, prefix) else {
            return Err(self.bounds);
        };
        self.bounds = bounds;
        self.parts[place] = Part { session, prefix };
        Ok(before)
    }

    /// Takes a session's latest increment back. `before` is what the `add` of that increment answered. It takes no
    /// memory and is never refused.
    pub fn take_back(&mut self, session: u32, before: Prefix)
        requires session { IsSession session }
        requires reserved { IsReserved self.old session }
        requires latest { IsBeforeLatest before (part self.old session) }
        ensures value { self.new ≡ with_part self.old session before }
        ensures room { KeepsRoom self.old self.new }
        ensures narrows { Narrows self.old self.new }
        ensures account { (ds : List ℤ) → before ≡ prefix_of ds → Follows self.old self.new (λ a. with_kept a session ds) }
    {
        let place = place(&self.parts, session).unwrap();
        let now = self.parts[place].prefix;
        self.bounds = moved(self.bounds, now, before);
        self.parts[place] = Part {
            session,
            prefix: before,
        };
    }

    /// A session's transaction commits: its sum goes into the committed value. Its room goes too. The session, 1 to 64,
    /// need have none.
    pub fn settle(&mut self, session: u32)
        requires { IsSession session }
        ensures value { self.new ≡ column.settled self.old session }
        ensures room { KeepsOtherRoom session self.old self.new }
        ensures narrows { Narrows self.old self.new }
        ensures account { Follows self.old self.new (λ a. settled a session) }
    {
        if let Some(place) = place(&self.parts, session) {
            let prefix = self.parts[place].prefix;
            let sum = prefix.sum;
            self.bounds = moved(
                self.bounds,
                prefix,
                Prefix {
                    sum,
                    lo: sum,
                    hi: sum,
                },
            );
            self.committed += sum;
            remove(&mut self.parts, session);
        }
    }

    /// Forgets a session's transaction, with the increments that it still has. Its room goes too. The session, 1 to 64,
    /// need have none.
    pub fn drop_txn(&mut self, session: u32)
        requires { IsSession session }
        ensures value { self.new ≡ without self.old session }
        ensures room { KeepsOtherRoom session self.old self.new }
        ensures narrows { Narrows self.old self.new }
        ensures account { Follows self.old self.new (λ a. with_kept a session []) }
    {
        if let Some(place) = place(&self.parts, session) {
            let now = self.parts[place].prefix;
            self.bounds = moved(self.bounds, now, NONE);
            remove(&mut self.parts, session);
        }
    }

    /// The committed value.
    pub fn committed(&self) -> i128
        ensures { result ≡ self.now.committed }
    {
        self.committed
    }

    /// The least value that the column can have, whatever becomes of the open transactions. It lies in the HUGE range.
    pub fn inf(&self) -> i128
        ensures value { result ≡ least self.now }
        ensures huge { IsHuge result }
        ensures account { (a : Account) → Stands self.now a → result ≡ inf a }
        // Whatever of the open transactions is taken back, the value that is left is not below.
        ensures law { (a left : Account) → Stands self.now a → IsLeftOf a left → result ≤ℤ value left }
    {
        self.bounds.inf
    }

    /// The greatest value that the column can have, whatever becomes of the open transactions. It lies in the HUGE range.
    pub fn sup(&self) -> i128
        ensures value { result ≡ greatest self.now }
        ensures huge { IsHuge result }
        ensures account { (a : Account) → Stands self.now a → result ≡ sup a }
        // Whatever of the open transactions is taken back, the value that is left is not above.
        ensures law { (a left : Account) → Stands self.now a → IsLeftOf a left → value left ≤ℤ result }
    {
        self.bounds.sup
    }
}
