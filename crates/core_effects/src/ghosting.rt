//! The row of a session's first owed delta is made.
ghost use Rattle.std.specs.Prelude.{◌≡◌, ◌≤◌, ◌^◌, ℕ, List, length, is_some, None, OnOk, OnErr};
ghost use Rattle.std.specs.FinMap.{get};
ghost use Rattle.iv_meaning.specs.Escrow.{IsSession};
ghost use Rattle.ghost_rows.specs.Kept.{width};
ghost use Rattle.ghost_rows.specs.State.{CanStore};
ghost use Rattle.txn_machine.specs.Acts.{Act};
ghost use Rattle.txn_machine.specs.Deltas.{place_of, columns_of};
ghost use Rattle.txn_machine.specs.Ghosts.{the_views};
ghost use Rattle.txn_machine.specs.Log.{Log, logs};
ghost use Rattle.txn_machine.specs.May.{IsOpen};
ghost use Rattle.txn_machine.specs.Steps.{with_ghost};
ghost use Rattle.txn_machine.specs.Store.{Store, Ghosts, does};
ghost use Rattle.core_state.specs.Stands.{Holds, Texts};
ghost use Rattle.core_effects.specs.Owing.{OwesFirst};

use crate::paying::first_owed;
use core_state::CoreState;
use data_changes::make_ghost;
use iv_types::{NoMemory, SortedMaps};

/// Whether the row of the first delta that a session owes is stored.
pub fn has_row<M: SortedMaps>(core: &CoreState<M>, session: u32) -> bool
    requires { (s : Store) × (l : Log) × (texts : Texts) × Holds M.maps M.spare M.limit core.now s l texts × OwesFirst s session }
    ensures { (s : Store) (l : Log) (texts : Texts) (o : OwesFirst s session) → Holds M.maps M.spare M.limit core.now s l texts → result ≡ is_some (get s.view (place_of o.first)) }
{
    let delta = first_owed(core.open_of(session));
    core.store
        .tables
        .maps()
        .get(delta.view, delta.group.as_slice())
        .is_some()
}

/// Stores a row of zeros for the first delta that a session owes, where none is stored.
///
/// # Errors
///
/// Where there is no memory for it. Nothing is changed then but room.
pub fn make_row<M: SortedMaps>(core: &mut CoreState<M>, session: u32) -> Result<(), NoMemory>
    requires next { core.old.next ≤ 2 ^ 63 }
    requires absent { (s : Store) × (l : Log) × (texts : Texts) × Holds M.maps M.spare M.limit core.old s l texts × (o : OwesFirst s session) × (get s.view (place_of o.first) ≡ None)
        × CanStore (M.maps core.old.store.tables) (M.limit core.old.store.tables) (place_of o.first) (width o.first) }
    ensures made { OnOk result ((s : Store) (l : Log) (texts : Texts) (o : OwesFirst s session) (a : Act) → Holds M.maps M.spare M.limit core.old s l texts → get s.view (place_of o.first) ≡ None
        → Holds M.maps M.spare M.limit core.new (does the_views s session (Ghosts (place_of o.first) (length (columns_of o.first)))) (logs s session a (Ghosts (place_of o.first) (length (columns_of o.first))) l) texts) }
    ensures err { OnErr result ((s : Store) (l : Log) (texts : Texts) → OwesFirst s session → Holds M.maps M.spare M.limit core.old s l texts → Holds M.maps M.spare M.limit core.new s l texts) }
    ensures rest { core.new ≡ record core.old { store = core.new.store; next = core.new.next } }
{
    core.book.book_law();
    core.store.catalog.number_law();
    let delta = match core.book.get(session) {
        Some(txn) => first_owed(txn),
        None => unreachable!(),
    };
    let sums = delta.sums.as_slice().len() as u32;
    make_ghost(&mut core.store, delta.view, delta.group.as_slice(), sums, 0)?;
    core.next += 1;
    Ok(())
}

/// The first delta that a session owes has had its Ghost. Takes no memory.
pub fn mark_ghosted<M: SortedMaps>(core: &mut CoreState<M>, session: u32)
    requires { (s : Store) × (l : Log) × (texts : Texts) × Holds M.maps M.spare M.limit core.old s l texts × IsOpen s session }
    ensures holds { (s : Store) (l : Log) (texts : Texts) → Holds M.maps M.spare M.limit core.old s l texts → IsOpen s session → Holds M.maps M.spare M.limit core.new s (with_ghost l session) texts }
    ensures rest { core.new ≡ record core.old { book = core.new.book } }
{
    core.book.book_law();
    core.book.ghosted(session);
}
