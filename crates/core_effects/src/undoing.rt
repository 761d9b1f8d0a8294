//! A session's latest kept step is taken back.
ghost use Rattle.std.specs.Prelude.{◌≡◌, ◌≤◌, ◌^◌, ◌∷◌, ◌↔◌, ℕ, List, reverse, IsTrue};
ghost use Rattle.iv_types.specs.declared.lock.GroupDelta.{GroupDelta as Delta};
ghost use Rattle.iv_types.specs.declared.lock.KeptStep.{KeptStep as Step};
ghost use Rattle.iv_types.specs.declared.lock.KeptStep.TheVariants as step;
ghost use Rattle.iv_types.specs.declared.lock.Prefix.{Prefix as AnyPrefix};
ghost use Rattle.iv_meaning.specs.Escrow.{IsSession};
ghost use Rattle.ghost_rows.specs.Kept.{width};
ghost use Rattle.ghost_rows.specs.State.{CanStore};
ghost use Rattle.txn_machine.specs.Acts.{Act};
ghost use Rattle.txn_machine.specs.Deltas.{place_of};
ghost use Rattle.txn_machine.specs.Ghosts.{the_views};
ghost use Rattle.txn_machine.specs.Log.{Log, logs};
ghost use Rattle.txn_machine.specs.Store.{Store, Undoes, does, schema_of};
ghost use Rattle.core_state.specs.Stands.{Holds, Texts};
ghost use Rattle.core_effects.specs.Undoing.{KeepsPay, KeepsPut, KeepsOne, FitsBack, CanGoBack, IsPay};

use core_state::CoreState;
use data_changes::{take_back_pay, take_back_put};
use data_past::forget_change;
use iv_types::{GroupDelta, Kept, KeptStep, PrefixList, SortedMaps};
use txn_book::Open;

// The latest kept step of a transaction, a pay: its delta, and the prefixes before it.
fn latest_pay(txn: &Open) -> (&GroupDelta, &PrefixList)
    requires { (d : Delta) × (before : List AnyPrefix) × (number : ℕ) × (ks : List Step) × (reverse txn.now.kept.items ≡ step.Pay d before number ∷ ks) }
    ensures { (d : Delta) (before : List AnyPrefix) (number : ℕ) (ks : List Step) → reverse txn.now.kept.items ≡ step.Pay d before number ∷ ks → (result.0.now ≡ d) × (result.1.now ≡ before) }
{
    match txn.kept.last() {
        Some(KeptStep::Pay { delta, before, .. }) => (delta, before),
        _ => unreachable!(),
    }
}

// Lets go what was kept of a change.
fn let_go(kept: Option<Kept>) {
    let _ = kept;
}

// Takes a session's latest kept step back, a pay, whose delta is owed again and is coming back.
fn undo_pay<M: SortedMaps>(core: &mut CoreState<M>, session: u32)
    requires session { IsSession session }
    requires next { core.old.next ≤ 2 ^ 63 }
    requires keeps { (s : Store) × (l : Log) × (texts : Texts) × Holds M.maps M.spare M.limit core.old s l texts × (o : KeepsPay s session)
        × CanStore (M.maps core.old.store.tables) (M.limit core.old.store.tables) (place_of o.latest) (width o.latest) }
    ensures holds { (s : Store) (l : Log) (texts : Texts) (a : Act) → Holds M.maps M.spare M.limit core.old s l texts → KeepsPay s session
        → Holds M.maps M.spare M.limit core.new (does the_views s session Undoes) (logs s session a Undoes l) texts }
    ensures rest { core.new ≡ record core.old { store = core.new.store; book = core.new.book; next = core.new.next } }
{
    core.book.book_law();
    let (delta, before) = match core.book.get(session) {
        Some(txn) => latest_pay(txn),
        None => unreachable!(),
    };
    take_back_pay(&mut core.store, session, delta, before);
    let_go(core.book.undo(session));
    core.next += 1;
}

// Takes a session's latest kept step back, a change, with its entries in all indexes.
fn undo_put<M: SortedMaps>(core: &mut CoreState<M>, session: u32)
    requires session { IsSession session }
    requires next { core.old.next ≤ 2 ^ 63 }
    requires keeps { (s : Store) × (l : Log) × (texts : Texts) × Holds M.maps M.spare M.limit core.old s l texts × (o : KeepsPut s session)
        × FitsBack (M.maps core.old.store.tables) (M.limit core.old.store.tables) (schema_of s) o.change }
    ensures holds { (s : Store) (l : Log) (texts : Texts) (a : Act) → Holds M.maps M.spare M.limit core.old s l texts → KeepsPut s session
        → Holds M.maps M.spare M.limit core.new (does the_views s session Undoes) (logs s session a Undoes l) texts }
    ensures rest { core.new ≡ record core.old { store = core.new.store; book = core.new.book; ahead = core.new.ahead; next = core.new.next } }
{
    core.book.book_law();
    core.store.catalog.number_law();
    let owed = core.open_of(session).owed.len();
    core.ahead.remove_last(session, owed);
    match core.book.undo(session) {
        Some(kept) => {
            let change = &kept.change;
            forget_change(&mut core.store, change.table, change.key.as_slice());
            take_back_put(&mut core.store, kept);
        }
        None => unreachable!(),
    }
    core.next += 1;
}

// Whether a transaction's latest kept step is a pay.
fn is_pay(txn: &Open) -> bool
    requires { (k : Step) × (ks : List Step) × (reverse txn.now.kept.items ≡ k ∷ ks) }
    ensures { (k : Step) (ks : List Step) → reverse txn.now.kept.items ≡ k ∷ ks → IsTrue result ↔ IsPay k }
{
    match txn.kept.last() {
        Some(KeptStep::Pay { .. }) => true,
        Some(KeptStep::Put { .. }) => false,
        None => unreachable!(),
    }
}

/// Takes a session's latest kept step back: a pay, whose delta is owed again and is coming back, or a change, with its entries in
/// all indexes. Takes no memory.
pub fn undo<M: SortedMaps>(core: &mut CoreState<M>, session: u32)
    requires session { IsSession session }
    requires next { core.old.next ≤ 2 ^ 63 }
    requires keeps { (s : Store) × (l : Log) × (texts : Texts) × Holds M.maps M.spare M.limit core.old s l texts × (o : KeepsOne s session)
        × CanGoBack (M.maps core.old.store.tables) (M.limit core.old.store.tables) s session o }
    ensures holds { (s : Store) (l : Log) (texts : Texts) (a : Act) → Holds M.maps M.spare M.limit core.old s l texts → KeepsOne s session
        → Holds M.maps M.spare M.limit core.new (does the_views s session Undoes) (logs s session a Undoes l) texts }
    ensures rest { core.new ≡ record core.old { store = core.new.store; book = core.new.book; ahead = core.new.ahead; next = core.new.next } }
{
    if is_pay(core.open_of(session)) {
        undo_pay(core, session);
    } else {
        undo_put(core, session);
    }
}
