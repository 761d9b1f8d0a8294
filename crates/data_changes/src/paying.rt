//! Pays to stored view rows.
ghost use Rattle.std.specs.Prelude.{◌≡◌, ◌≤◌, ◌↔◌, ℕ, ℤ, List, ◌∷◌, None, Err, IfOk, IfErr, OnOk, OnErr};
ghost use Rattle.std.specs.FinMap.{get};
ghost use Rattle.table_laws.specs.Place.{Place};
ghost use Rattle.iv_meaning.specs.Escrow.{IsSession};
ghost use Rattle.txn_machine.specs.Deltas.{place_of};
ghost use Rattle.txn_machine.specs.Keeping.{KeptStep, Pay};
ghost use Rattle.ghost_rows.specs.Kept.{width, IsDelta, ArePrefixes, IsAllowedIn, IsPaidLast};
ghost use Rattle.ghost_rows.specs.State.{room_of, HasSeat, IsReady, MovesRoom, CanStore};
ghost use Rattle.data_store.specs.Contents.{Contents, pays_on};
ghost use Rattle.data_store.specs.Held.{IsHeld};
ghost use Rattle.data_changes.specs.Effects.{with_pay, without_pay};
ghost use Rattle.data_changes.specs.Paying.{HasFor, AreCommittedAt, IsRefusedWith};

use data_store::DataStore;
use ghost_rows::PayRefusal;
use iv_types::{GroupDelta, NoMemory, PrefixList, SortedMaps};

/// Makes all that pays of a delta by a session and their taking back need: its seat in the row, and buffers, so that it has that
/// many at least.
///
/// # Errors
///
/// Where there is no memory for it. No kept pay and no room is lost then.
pub fn reserve_pay<M: SortedMaps>(
    store: &mut DataStore<M>,
    session: u32,
    delta: &GroupDelta,
    room: usize,
) -> Result<(), NoMemory>
    requires session { IsSession session }
    requires delta { IsDelta delta.now }
    requires held { (c : Contents) × HasFor store.old.catalog (M.maps store.old.tables) store.old.views delta.now c }
    ensures held { (c : Contents) → HasFor store.old.catalog (M.maps store.old.tables) store.old.views delta.now c → IsHeld store.new.catalog (M.maps store.new.tables) store.new.views c }
    ensures seat { OnOk result (HasSeat store.new.views (place_of delta.now) session) }
    ensures room { OnOk result (room ≤ room_of store.new.views session) }
    ensures rooms { (s : ℕ) → room_of store.old.views s ≤ room_of store.new.views s }
    ensures seats { (s : ℕ) (place : Place) → HasSeat store.old.views place s → HasSeat store.new.views place s }
    ensures rest { store.new ≡ record store.old { views = store.new.views } }
{
    store
        .views
        .reserve(store.tables.maps(), delta, session, room)
}

/// Adds a delta to its stored row, as a kept pay of the session, and answers the session's prefixes on the row before it. The
/// session has room for it. Takes no memory.
///
/// # Errors
///
/// `Absent` where the row is not stored, and `Escrow` with the first column that refuses the delta and its bounds before it.
/// Nothing is changed then.
pub fn pay<M: SortedMaps>(
    store: &mut DataStore<M>,
    session: u32,
    delta: &GroupDelta,
) -> Result<PrefixList, PayRefusal>
    requires session { IsSession session }
    requires delta { IsDelta delta.now }
    requires held { (c : Contents) × HasFor store.old.catalog (M.maps store.old.tables) store.old.views delta.now c }
    requires ready { IsReady store.old.views (place_of delta.now) session }
    requires can { CanStore (M.maps store.old.tables) (M.limit store.old.tables) (place_of delta.now) (width delta.now) }
    ensures absent { (c : Contents) → HasFor store.old.catalog (M.maps store.old.tables) store.old.views delta.now c → (result ≡ Err PayRefusal.Absent) ↔ (get c.view (place_of delta.now) ≡ None) }
    ensures paid { OnOk result ((c : Contents) → HasFor store.old.catalog (M.maps store.old.tables) store.old.views delta.now c
        → IsHeld store.new.catalog (M.maps store.new.tables) store.new.views (with_pay c session delta.now)) }
    ensures before { IfOk result (λ before. (c : Contents) → HasFor store.old.catalog (M.maps store.old.tables) store.old.views delta.now c
        → ArePrefixes before (width delta.now) (pays_on (place_of delta.now) (c.kept session))) }
    ensures allowed { OnOk result ((c : Contents) (committed : ℕ → ℤ) → HasFor store.old.catalog (M.maps store.old.tables) store.old.views delta.now c → AreCommittedAt c delta.now committed
        → IsAllowedIn committed (λ s. pays_on (place_of delta.now) (c.kept s)) session delta.now (width delta.now)) }
    ensures escrow { IfErr result (λ why. (c : Contents) (committed : ℕ → ℤ) → HasFor store.old.catalog (M.maps store.old.tables) store.old.views delta.now c → AreCommittedAt c delta.now committed
        → IsRefusedWith c session delta.now committed why) }
    ensures kept { OnErr result ((c : Contents) → HasFor store.old.catalog (M.maps store.old.tables) store.old.views delta.now c → IsHeld store.new.catalog (M.maps store.new.tables) store.new.views c) }
    ensures tables { OnErr result (store.new.tables ≡ store.old.tables) }
    ensures rooms { OnErr result (store.new.views.rooms ≡ store.old.views.rooms) }
    ensures room { OnOk result (MovesRoom session store.old.views store.new.views) }
    ensures seats { (s : ℕ) (place : Place) → HasSeat store.old.views place s → HasSeat store.new.views place s }
    ensures spare { (i : ℕ) → M.spare store.old.tables i ≤ M.spare store.new.tables i }
    ensures limit { M.limit store.new.tables ≡ M.limit store.old.tables }
    ensures rest { store.new ≡ record store.old { tables = store.new.tables; views = store.new.views } }
{
    store.views.pay(store.tables.maps_mut(), session, delta)
}

/// Takes the session's latest kept step back, a pay of this delta that answered `before`. Takes no memory.
pub fn take_back_pay<M: SortedMaps>(
    store: &mut DataStore<M>,
    session: u32,
    delta: &GroupDelta,
    before: &PrefixList,
)
    requires session { IsSession session }
    requires delta { IsDelta delta.now }
    requires held { (c : Contents) × HasFor store.old.catalog (M.maps store.old.tables) store.old.views delta.now c × IsPaidLast (λ s. pays_on (place_of delta.now) (c.kept s)) session delta.now before.now }
    requires room { 1 ≤ room_of store.old.views session }
    requires can { CanStore (M.maps store.old.tables) (M.limit store.old.tables) (place_of delta.now) (width delta.now) }
    ensures taken { (c : Contents) (ks : List KeptStep) → HasFor store.old.catalog (M.maps store.old.tables) store.old.views delta.now c → c.kept session ≡ Pay delta.now ∷ ks
        → ArePrefixes before.now (width delta.now) (pays_on (place_of delta.now) ks) → IsHeld store.new.catalog (M.maps store.new.tables) store.new.views (without_pay c session delta.now ks) }
    ensures room { MovesRoom session store.old.views store.new.views }
    ensures seats { (s : ℕ) (place : Place) → HasSeat store.old.views place s → HasSeat store.new.views place s }
    ensures spare { (i : ℕ) → M.spare store.old.tables i ≤ M.spare store.new.tables i }
    ensures limit { M.limit store.new.tables ≡ M.limit store.old.tables }
    ensures rest { store.new ≡ record store.old { tables = store.new.tables; views = store.new.views } }
{
    store
        .views
        .take_back(store.tables.maps_mut(), session, delta, before);
}
