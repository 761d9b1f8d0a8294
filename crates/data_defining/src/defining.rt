//! An object begins.
ghost use Rattle.std.specs.Prelude.{◌≡◌, ◌≢◌, ◌+◌, ◌≤◌, ◌<◌, ◌^◌, ℕ, length, OnOk};
ghost use Rattle.iv_types.specs.Maps.{IsWithin, used};
ghost use Rattle.iv_types.specs.Definitions.{Definitions};
ghost use Rattle.iv_types.specs.declared.catalog.Definition.{Definition as AnyDefinition};
ghost use Rattle.iv_meaning.specs.Objects.{object_of};
ghost use Rattle.table_store.specs.Changes.{sizes};
ghost use Rattle.table_store.specs.Filling.{filled};
ghost use Rattle.data_store.specs.Contents.{Contents};
ghost use Rattle.data_store.specs.Held.{IsHeld};
ghost use Rattle.data_defining.specs.Defining.{CanDefine, IsLast, with_object};

use data_store::DataStore;
use iv_types::{IndexEntry, IndexEntryList, NoMemory, SortedMaps};
use row_codec::{key_law, row_law};
use table_store::put_all;

/// Makes room for the entries that an object of this number begins with.
///
/// # Errors
///
/// Where there is no memory for them.
pub fn reserve_first<M: SortedMaps>(
    store: &mut DataStore<M>,
    number: u32,
    first: &[IndexEntry],
) -> Result<(), NoMemory>
    requires { length first.now < 2 ^ 32 }
    ensures room { OnOk result (length first.now ≤ M.spare store.new.tables number) }
    ensures maps { (i : ℕ) → M.maps store.new.tables i ≡ M.maps store.old.tables i }
    ensures spare { (i : ℕ) → M.spare store.old.tables i ≤ M.spare store.new.tables i }
    ensures limit { M.limit store.new.tables ≡ M.limit store.old.tables }
    ensures rest { store.new ≡ record store.old { tables = store.new.tables } }
{
    store.tables.maps_mut().reserve(number, first.len() as u32)
}

/// Has the object hold that the catalog defines last, with the entries that it begins with, for which there is room. No session
/// keeps a step. Takes no memory.
pub fn enter_first<M: SortedMaps>(store: &mut DataStore<M>, number: u32, first: IndexEntryList)
    requires last { (before : Definitions) × (definition : AnyDefinition) × (c : Contents) × IsLast store.old.catalog before definition number × CanDefine before (M.maps store.old.tables) store.old.views definition first c }
    requires room { length first ≤ M.spare store.old.tables number }
    requires within { IsWithin (M.limit store.old.tables) (used (M.maps store.old.tables) + sizes first) }
    ensures held { (before : Definitions) (definition : AnyDefinition) (c : Contents) → IsLast store.old.catalog before definition number → CanDefine before (M.maps store.old.tables) store.old.views definition first c
        → IsHeld store.new.catalog (M.maps store.new.tables) store.new.views (with_object c (object_of definition)) }
    ensures entries { M.maps store.new.tables number ≡ filled (M.maps store.old.tables number) first }
    ensures others { (i : ℕ) → i ≢ number → M.maps store.new.tables i ≡ M.maps store.old.tables i }
    ensures other_rooms { (i : ℕ) → i ≢ number → M.spare store.old.tables i ≤ M.spare store.new.tables i }
    ensures limit { M.limit store.new.tables ≡ M.limit store.old.tables }
    ensures rest { store.new ≡ record store.old { tables = store.new.tables; views = store.new.views } }
{
    row_law();
    key_law();
    store.views.forget_rows();
    put_all(store.tables.maps_mut(), number, first);
}
