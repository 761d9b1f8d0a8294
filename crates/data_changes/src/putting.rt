//! Changes of rows made and taken back.
ghost use Rattle.std.specs.Prelude.{◌≡◌, ℕ, List, ◌∷◌};
ghost use Rattle.iv_types.specs.declared.lock.GroupDelta.{GroupDelta};
ghost use Rattle.table_store.specs.Stored.{IsTableAnd};
ghost use Rattle.table_store.specs.Changes.{CanTakeBack, TakesRoom};
ghost use Rattle.table_store.specs.Readying.{IsReady};
ghost use Rattle.txn_machine.specs.Keeping.{KeptStep, Put};
ghost use Rattle.txn_machine.specs.RowChanges.{row_change};
ghost use Rattle.data_store.specs.Contents.{Contents};
ghost use Rattle.data_store.specs.Held.{IsHeld};
ghost use Rattle.data_changes.specs.Effects.{with_put, without_put};

use data_store::DataStore;
use iv_types::{Kept, SortedMaps};
use table_store::Ready;

/// Makes a change that is ready, and gives what is kept of it. Takes no memory.
pub fn put<M: SortedMaps>(store: &mut DataStore<M>, ready: Ready) -> Kept
    requires { IsTableAnd store.old.catalog ready.kept.change.table (IsReady store.old.catalog ready (M.maps store.old.tables) (M.spare store.old.tables) (M.limit store.old.tables)) }
    ensures kept { result ≡ ready.kept }
    ensures held { (c : Contents) (session : ℕ) (owed : List GroupDelta) → IsHeld store.old.catalog (M.maps store.old.tables) store.old.views c
        → IsHeld store.new.catalog (M.maps store.new.tables) store.new.views (with_put c session (row_change ready.kept.change) owed) }
    ensures spare { TakesRoom (M.spare store.old.tables) (M.spare store.new.tables) ready.kept.gone ready.kept.made }
    ensures limit { M.limit store.new.tables ≡ M.limit store.old.tables }
    ensures rest { store.new ≡ record store.old { tables = store.new.tables } }
{
    store.catalog.number_law();
    store.tables.apply(&store.catalog, ready)
}

/// Takes a session's latest kept step back, a change of which this was kept. Takes no memory.
pub fn take_back_put<M: SortedMaps>(store: &mut DataStore<M>, kept: Kept)
    requires { IsTableAnd store.old.catalog kept.change.table (CanTakeBack store.old.catalog kept (M.maps store.old.tables) (M.spare store.old.tables) (M.limit store.old.tables)) }
    ensures held { (c : Contents) (session : ℕ) (owed : List GroupDelta) (ks : List KeptStep) → IsHeld store.old.catalog (M.maps store.old.tables) store.old.views c → c.kept session ≡ Put (row_change kept.change) owed ∷ ks
        → IsHeld store.new.catalog (M.maps store.new.tables) store.new.views (without_put c session (row_change kept.change) ks) }
    ensures spare { TakesRoom (M.spare store.old.tables) (M.spare store.new.tables) kept.made kept.gone }
    ensures limit { M.limit store.new.tables ≡ M.limit store.old.tables }
    ensures rest { store.new ≡ record store.old { tables = store.new.tables } }
{
    store.catalog.number_law();
    store.tables.take_back(&store.catalog, kept);
}
