//! Changes are entered, with the versions that they leave.
ghost use Rattle.std.specs.Prelude.{◌≡◌, ◌≢◌, ◌+◌, []};
ghost use Rattle.std.specs.FinMap.{get};
ghost use Rattle.table_laws.specs.Place.{Place};
ghost use Rattle.iv_types.specs.declared.statement.Mode.TheVariants.{Serial};
ghost use Rattle.txn_machine.specs.May.{IsReady};
ghost use Rattle.txn_machine.specs.State.{State};
ghost use Rattle.txn_machine.specs.Store.{changes_by, committed, Commits};
ghost use Rattle.txn_book.specs.Books.{IsOpenAnd, OfOpen};
ghost use Rattle.data_store.specs.Machine.{changes_on};
ghost use Rattle.data_past.specs.Moves.{fewer, CanForget, puts_in};
ghost use Rattle.core_state.specs.Stands.{Began};
ghost use Rattle.core_ends.specs.Ends.{Left};

use crate::ending::let_go;
use core_state::CoreState;
use data_past::{forget_changes, push_versions};
use iv_types::SortedMaps;

// The changes that a session's transaction keeps are counted no more.
fn forget<M: SortedMaps>(core: &mut CoreState<M>, session: u32)
    requires { IsOpenAnd core.old.book session (λ o. CanForget core.old.store.pending.entries (puts_in o.kept.items)) }
    ensures pending { OfOpen core.old.book session (λ o. (place : Place) → get core.new.store.pending.entries place ≡ fewer (changes_on place (puts_in o.kept.items)) (get core.old.store.pending.entries place)) }
    ensures rest { core.new ≡ record core.old { store = record core.old.store { pending = core.new.store.pending } } }
{
    match core.book.get(session) {
        Some(txn) => forget_changes(&mut core.store, txn.kept.as_slice()),
        None => unreachable!(),
    }
}

/// Enters the changes that a transaction keeps, which leave the versions that were made ahead, and gives the entry's number.
pub(crate) fn enter_it<M: SortedMaps>(core: &mut CoreState<M>, session: u32) -> u64
    requires { (s : State) × Began M.maps M.spare M.limit core.old s session × IsReady s.store session Serial × (changes_by s.store session ≢ []) }
    ensures number { (s : State) → Began M.maps M.spare M.limit core.old s session → result ≡ (committed s.store).number + 1 }
    ensures left { (s : State) → Began M.maps M.spare M.limit core.old s session → IsReady s.store session Serial → changes_by s.store session ≢ [] → Left M.maps M.spare M.limit s session Commits core.old core.new }
{
    core.book.book_law();
    forget(core, session);
    let versions = core.ahead.take(session);
    let number = core.book.commit(session);
    let_go(core, session);
    push_versions(&mut core.store, number, versions);
    core.next += 1;
    number
}
