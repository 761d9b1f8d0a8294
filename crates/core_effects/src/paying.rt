//! A session pays the first delta that it owes.
ghost use Rattle.std.specs.Prelude.{◌≡◌, ◌≢◌, ◌≤◌, ◌^◌, ◌∷◌, [], ℕ, List, reverse, None, IfOk, IfErr, OnOk, OnErr};
ghost use Rattle.std.specs.FinMap.{get};
ghost use Rattle.table_laws.specs.Place.{Place};
ghost use Rattle.iv_types.specs.declared.lock.GroupDelta.{GroupDelta as Delta};
ghost use Rattle.iv_meaning.specs.Escrow.{IsSession};
ghost use Rattle.ghost_rows.specs.Kept.{width, ArePrefixes};
ghost use Rattle.ghost_rows.specs.State.{CanStore, HasSeat, MovesRoom};
ghost use Rattle.txn_machine.specs.Acts.{Act};
ghost use Rattle.txn_machine.specs.Deltas.{place_of};
ghost use Rattle.txn_machine.specs.Ghosts.{the_views};
ghost use Rattle.txn_machine.specs.Log.{Log, logs};
ghost use Rattle.txn_machine.specs.Store.{Store, Pays, does};
ghost use Rattle.data_store.specs.Contents.{contents_of, pays_on};
ghost use Rattle.data_store.specs.Held.{IsHeld};
ghost use Rattle.data_changes.specs.Effects.{with_pay};
ghost use Rattle.core_state.specs.Stands.{Holds, told, Texts};
ghost use Rattle.core_effects.specs.Owing.{OwesFirst, Allows, IsUnpaid};

use core_state::CoreState;
use data_changes::pay;
use ghost_rows::PayRefusal;
use iv_types::{GroupDelta, PrefixList, SortedMaps};
use txn_book::Open;

/// The first delta that a transaction owes.
pub fn first_owed(txn: &Open) -> &GroupDelta
    requires { txn.now.owed.items ≢ [] }
    ensures { (d : Delta) (ds : List Delta) → reverse txn.now.owed.items ≡ d ∷ ds → result.now ≡ d }
{
    match txn.owed.last() {
        Some(delta) => delta,
        None => unreachable!(),
    }
}

// Adds the first owed delta to its row, and answers the session's prefixes on the row before it.
fn add_first<M: SortedMaps>(core: &mut CoreState<M>, session: u32) -> Result<PrefixList, PayRefusal>
    requires session { IsSession session }
    requires owes { (s : Store) × (l : Log) × (texts : Texts) × Holds M.maps M.spare M.limit core.old s l texts × (o : OwesFirst s session)
        × CanStore (M.maps core.old.store.tables) (M.limit core.old.store.tables) (place_of o.first) (width o.first) }
    ensures paid { OnOk result ((s : Store) (l : Log) (texts : Texts) (o : OwesFirst s session) → Holds M.maps M.spare M.limit core.old s l texts → IsHeld core.new.store.catalog (M.maps core.new.store.tables) core.new.store.views (with_pay (told s texts) session o.first)) }
    ensures before { IfOk result (λ before. (s : Store) (l : Log) (texts : Texts) (o : OwesFirst s session) → Holds M.maps M.spare M.limit core.old s l texts → ArePrefixes before (width o.first) (pays_on (place_of o.first) ((contents_of s).kept session))) }
    ensures allowed { OnOk result ((s : Store) (l : Log) (texts : Texts) (o : OwesFirst s session) → Holds M.maps M.spare M.limit core.old s l texts → Allows s session o × (get s.view (place_of o.first) ≡ None → ⊥)) }
    ensures unpaid { IfErr result (λ why. (s : Store) (l : Log) (texts : Texts) (o : OwesFirst s session) → Holds M.maps M.spare M.limit core.old s l texts → IsUnpaid s session o why) }
    ensures kept { OnErr result ((s : Store) (l : Log) (texts : Texts) → OwesFirst s session → Holds M.maps M.spare M.limit core.old s l texts → Holds M.maps M.spare M.limit core.new s l texts) }
    ensures room { OnOk result (MovesRoom session core.old.store.views core.new.store.views) }
    ensures seats { (other : ℕ) (place : Place) → HasSeat core.old.store.views place other → HasSeat core.new.store.views place other }
    ensures spare { (index : ℕ) → M.spare core.old.store.tables index ≤ M.spare core.new.store.tables index }
    ensures limit { M.limit core.new.store.tables ≡ M.limit core.old.store.tables }
    ensures rest { core.new ≡ record core.old { store = record core.old.store { tables = core.new.store.tables; views = core.new.store.views } } }
{
    let delta = match core.book.get(session) {
        Some(txn) => first_owed(txn),
        None => unreachable!(),
    };
    pay(&mut core.store, session, delta)
}

/// Adds the first delta that a session owes to its view row, where the row is there and allows it. Takes no memory.
///
/// # Errors
///
/// `Absent` where the row is not stored, and `Escrow` with the first column that refuses the delta and its bounds. Nothing is
/// changed then.
pub fn pay_first<M: SortedMaps>(core: &mut CoreState<M>, session: u32) -> Result<(), PayRefusal>
    requires session { IsSession session }
    requires next { core.old.next ≤ 2 ^ 63 }
    requires owes { (s : Store) × (l : Log) × (texts : Texts) × Holds M.maps M.spare M.limit core.old s l texts × (o : OwesFirst s session)
        × CanStore (M.maps core.old.store.tables) (M.limit core.old.store.tables) (place_of o.first) (width o.first) }
    ensures paid { OnOk result ((s : Store) (l : Log) (texts : Texts) (a : Act) → Holds M.maps M.spare M.limit core.old s l texts → OwesFirst s session
        → Holds M.maps M.spare M.limit core.new (does the_views s session Pays) (logs s session a Pays l) texts) }
    ensures allowed { OnOk result ((s : Store) (l : Log) (texts : Texts) (o : OwesFirst s session) → Holds M.maps M.spare M.limit core.old s l texts → Allows s session o × (get s.view (place_of o.first) ≡ None → ⊥)) }
    ensures unpaid { IfErr result (λ why. (s : Store) (l : Log) (texts : Texts) (o : OwesFirst s session) → Holds M.maps M.spare M.limit core.old s l texts → IsUnpaid s session o why) }
    ensures kept { OnErr result ((s : Store) (l : Log) (texts : Texts) → OwesFirst s session → Holds M.maps M.spare M.limit core.old s l texts → Holds M.maps M.spare M.limit core.new s l texts) }
    ensures rest { core.new ≡ record core.old { store = core.new.store; book = core.new.book; wants = core.new.wants; next = core.new.next } }
{
    core.book.book_law();
    let before = add_first(core, session)?;
    let number = core.next;
    core.book.paid(session, before, number);
    core.wants.pay(session);
    core.next = number + 1;
    Ok(())
}
