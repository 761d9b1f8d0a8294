//! The locks that pays will ask for, made ahead.
ghost use Rattle.std.specs.Prelude.{◌≡◌, ◌≢◌, ◌<◌, ℕ, List, [], ◌∷◌, slice_set, Some, None, IfOk};
ghost use Rattle.std.specs.Option.{option_copied};
ghost use Rattle.iv_types.specs.declared.limit.TheConstants.{SEATS};
ghost use Rattle.iv_types.specs.declared.lock.Want.{Want as AnyWant};
ghost use Rattle.lock_desk.specs.PayWants.{wants_at, first_of};

use iv_types::{NoMemory, SEATS, WantList};
use std::alloc::Global;
use std::marker::Model;
use std::mem;

/// The wants of each delta that a session still owes. Contracts see those of the next one to be paid first.
#[derive(Drop)]
pub struct OwedWants {
    lists: Vec<WantList>,
    // How many of them are paid.
    paid: usize,
}

impl Model for OwedWants {
    ghost use Rattle.std.specs.Prelude.{◌≤◌, List, drop, length};
    ghost use Rattle.iv_types.specs.declared.lock.Want.{Want as AnyWant};

    ghost Value = { List (List AnyWant) };

    ghost view = { λ o. drop o.paid o.lists.items };

    ghost invariant = { λ o. o.paid ≤ length o.lists.items };
}

impl OwedWants {
    /// The wants of no delta, which take no memory.
    pub fn new(alloc: Global) -> OwedWants
        ensures { result ≡ [] }
    {
        OwedWants {
            lists: Vec::new(alloc),
            paid: 0,
        }
    }

    /// Those of some deltas, in the order in which they are paid.
    pub fn of(lists: Vec<WantList>) -> OwedWants
        ensures { result ≡ lists.items }
    {
        OwedWants { lists, paid: 0 }
    }

    /// Those of the next delta to be paid, if there is one.
    pub fn next(&self) -> Option<&WantList>
        ensures { option_copied result ≡ first_of self.now }
    {
        self.lists.get(self.paid)
    }

    /// Takes those of the next delta out, of which no wants are left here.
    pub fn take(&mut self, alloc: Global) -> WantList
        requires { self.old ≢ [] }
        ensures { (wants : List AnyWant) (more : List (List AnyWant)) → self.old ≡ wants ∷ more → (result ≡ wants) × (self.new ≡ [] ∷ more) }
    {
        mem::replace(&mut self.lists[self.paid], WantList::new(alloc))
    }

    /// Puts wants back that were taken out. Where no delta is owed, or its wants are here, they go.
    pub fn put_back(&mut self, wants: WantList)
        ensures none { self.old ≡ [] → self.new ≡ [] }
        ensures back { (more : List (List AnyWant)) → self.old ≡ [] ∷ more → self.new ≡ wants ∷ more }
        ensures there { (want : AnyWant) (others : List AnyWant) (more : List (List AnyWant)) → self.old ≡ (want ∷ others) ∷ more → self.new ≡ self.old }
    {
        if self.paid < self.lists.len() && self.lists[self.paid].as_slice().is_empty() {
            self.lists[self.paid] = wants;
        }
    }

    /// The next delta is paid.
    pub fn pay(&mut self)
        ensures { (wants : List AnyWant) (more : List (List AnyWant)) → self.old ≡ wants ∷ more → self.new ≡ more }
    {
        if self.paid < self.lists.len() {
            self.paid += 1;
        }
    }
}

/// The wants of the deltas that sessions owe. Contracts see session k's at place k.
#[derive(Drop)]
pub struct PayWants {
    alloc: Global,
    sessions: Vec<OwedWants>,
}

impl Model for PayWants {
    ghost use Rattle.std.specs.Prelude.{◌≡◌, List, length};
    ghost use Rattle.iv_types.specs.declared.limit.TheConstants.{SEATS};
    ghost use Rattle.iv_types.specs.declared.lock.Want.{Want as AnyWant};

    ghost Value = { List (List (List AnyWant)) };

    ghost view = { λ p. p.sessions.items };

    ghost invariant = { λ p. length p.sessions.items ≡ SEATS };
}

impl PayWants {
    /// Nobody owes a delta.
    ///
    /// # Errors
    ///
    /// Where there is no memory for the sessions' places.
    pub fn new(alloc: Global) -> Result<PayWants, NoMemory>
        ensures { IfOk result (λ all. (session : ℕ) → wants_at all session ≡ []) }
    {
        let mut sessions = Vec::with_capacity(alloc, SEATS)?;
        for _ in 0..SEATS {
            sessions.push(OwedWants::new(alloc))?;
        }
        Ok(PayWants { alloc, sessions })
    }

    /// Those of the next delta that a session has to pay, if there is one.
    pub fn next(&self, session: u32) -> Option<&WantList>
        requires { session < SEATS }
        ensures { option_copied result ≡ first_of (wants_at self.now session) }
    {
        self.sessions[session as usize].next()
    }

    /// A session owes deltas with these wants, and no others.
    pub fn set(&mut self, session: u32, wants: Vec<WantList>)
        requires { session < SEATS }
        ensures own { wants_at self.new session ≡ wants.items }
        ensures others { (other : ℕ) → other ≢ session → wants_at self.new other ≡ wants_at self.old other }
    {
        self.sessions[session as usize] = OwedWants::of(wants);
    }

    /// Takes the wants of a session's next delta out, of which no wants are left here.
    pub fn take(&mut self, session: u32) -> WantList
        requires session { session < SEATS }
        requires some { wants_at self.old session ≢ [] }
        ensures own { (wants : List AnyWant) (more : List (List AnyWant)) → wants_at self.old session ≡ wants ∷ more → (result ≡ wants) × (wants_at self.new session ≡ [] ∷ more) }
        ensures others { (other : ℕ) → other ≢ session → wants_at self.new other ≡ wants_at self.old other }
    {
        let alloc = self.alloc;
        self.sessions[session as usize].take(alloc)
    }

    /// Puts wants back that were taken out for a session. Where it owes no delta, or the wants are here, they go.
    pub fn put_back(&mut self, session: u32, wants: WantList)
        requires { session < SEATS }
        ensures none { wants_at self.old session ≡ [] → wants_at self.new session ≡ [] }
        ensures back { (more : List (List AnyWant)) → wants_at self.old session ≡ [] ∷ more → wants_at self.new session ≡ wants ∷ more }
        ensures there { (want : AnyWant) (others : List AnyWant) (more : List (List AnyWant)) → wants_at self.old session ≡ (want ∷ others) ∷ more → wants_at self.new session ≡ wants_at self.old session }
        ensures others { (other : ℕ) → other ≢ session → wants_at self.new other ≡ wants_at self.old other }
    {
        self.sessions[session as usize].put_back(wants);
    }

    /// A session's next delta is paid.
    pub fn pay(&mut self, session: u32)
        requires { session < SEATS }
        ensures own { (wants : List AnyWant) (more : List (List AnyWant)) → wants_at self.old session ≡ wants ∷ more → wants_at self.new session ≡ more }
        ensures others { (other : ℕ) → other ≢ session → wants_at self.new other ≡ wants_at self.old other }
    {
        self.sessions[session as usize].pay();
    }
}
