//! What records say of rows of tables and of views, done and taken back.
ghost use Rattle.std.specs.Prelude.{◌≡◌, IfOk, OnOk};
ghost use Rattle.iv_meaning.specs.Objects.{schema_of};
ghost use Rattle.txn_machine.specs.RowChanges.{row_change};
ghost use Rattle.txn_log.specs.Replay.{Wrote, Added, Pages, Stored};
ghost use Rattle.txn_log.specs.Fitting.{IsKnown};
ghost use Rattle.live_records.specs.Live.{what_of};
ghost use Rattle.record_replay.specs.Past.{pages_in, with_rows_of};
ghost use Rattle.record_replay.specs.Standing.{Has};
ghost use Rattle.record_replay.specs.Telling.{Does, TakesBack};

use crate::answer::Tried;
use data_store::DataStore;
use group_replay::{AddedDelta, add_delta};
use iv_types::{Change, GroupDelta, NoMemory, SortedMaps};
use live_records::LiveChange;
use row_replay::{put_row, set_row, set_row_back};

// Sets the row behind a change, where the one before it stands.
fn set<M: SortedMaps>(store: &mut DataStore<M>, change: &Change) -> Result<Tried, NoMemory>
    requires has { (s : Stored) × Has M.maps M.limit store.old (pages_in s) }
    requires known { IsKnown (schema_of store.old.catalog) (Wrote (row_change change.now)) }
    ensures told { IfOk result (λ tried. (s : Stored) → Has M.maps M.limit store.old (pages_in s) → Does M.maps M.limit store.new s (Wrote (row_change change.now)) tried) }
    ensures texts { OnOk result (M.maps store.new.tables 0 ≡ M.maps store.old.tables 0) }
    ensures rest { store.new ≡ record store.old { tables = store.new.tables; views = store.new.views } }
{
    if set_row(store, change)? {
        Ok(Tried::Done)
    } else {
        Ok(Tried::Misfit)
    }
}

// Sets the row before a change, where the one behind it stands.
fn set_back<M: SortedMaps>(store: &mut DataStore<M>, change: &Change) -> Result<Tried, NoMemory>
    requires has { (s : Stored) × Has M.maps M.limit store.old (pages_in s) }
    requires known { IsKnown (schema_of store.old.catalog) (Wrote (row_change change.now)) }
    ensures told { IfOk result (λ tried. (s : Stored) → Has M.maps M.limit store.old (pages_in s) → TakesBack M.maps M.limit store.new s (Wrote (row_change change.now)) tried) }
    ensures texts { OnOk result (M.maps store.new.tables 0 ≡ M.maps store.old.tables 0) }
    ensures rest { store.new ≡ record store.old { tables = store.new.tables; views = store.new.views } }
{
    if set_row_back(store, change)? {
        Ok(Tried::Done)
    } else {
        Ok(Tried::Misfit)
    }
}

// Adds a delta to the row of its group.
fn add<M: SortedMaps>(store: &mut DataStore<M>, delta: &GroupDelta) -> Result<Tried, NoMemory>
    requires has { (s : Stored) × Has M.maps M.limit store.old (pages_in s) }
    requires known { IsKnown (schema_of store.old.catalog) (Added delta.now) }
    ensures told { IfOk result (λ tried. (s : Stored) → Has M.maps M.limit store.old (pages_in s) → Does M.maps M.limit store.new s (Added delta.now) tried) }
    ensures texts { OnOk result (M.maps store.new.tables 0 ≡ M.maps store.old.tables 0) }
    ensures rest { store.new ≡ record store.old { tables = store.new.tables; views = store.new.views } }
{
    match add_delta(store, delta, false)? {
        AddedDelta::Added => Ok(Tried::Done),
        AddedDelta::NoRow => Ok(Tried::Misfit),
        AddedDelta::OutOfRange => Ok(Tried::OutOfRange),
    }
}

// Takes a delta from the row of its group.
fn add_back<M: SortedMaps>(store: &mut DataStore<M>, delta: &GroupDelta) -> Result<Tried, NoMemory>
    requires has { (s : Stored) × Has M.maps M.limit store.old (pages_in s) }
    requires known { IsKnown (schema_of store.old.catalog) (Added delta.now) }
    ensures told { IfOk result (λ tried. (s : Stored) → Has M.maps M.limit store.old (pages_in s) → TakesBack M.maps M.limit store.new s (Added delta.now) tried) }
    ensures texts { OnOk result (M.maps store.new.tables 0 ≡ M.maps store.old.tables 0) }
    ensures rest { store.new ≡ record store.old { tables = store.new.tables; views = store.new.views } }
{
    match add_delta(store, delta, true)? {
        AddedDelta::Added => Ok(Tried::Done),
        AddedDelta::NoRow => Ok(Tried::Misfit),
        AddedDelta::OutOfRange => Ok(Tried::OutOfRange),
    }
}

/// Does what a record says, if it fits what stands there.
///
/// # Errors
///
/// Where there is no memory for it. What the store has is not told then.
pub(crate) fn do_change<M: SortedMaps>(
    store: &mut DataStore<M>,
    change: &LiveChange,
) -> Result<Tried, NoMemory>
    requires has { (s : Stored) × Has M.maps M.limit store.old (pages_in s) }
    requires known { IsKnown (schema_of store.old.catalog) (what_of change.now) }
    ensures told { IfOk result (λ tried. (s : Stored) → Has M.maps M.limit store.old (pages_in s) → Does M.maps M.limit store.new s (what_of change.now) tried) }
    ensures texts { OnOk result (M.maps store.new.tables 0 ≡ M.maps store.old.tables 0) }
    ensures rest { store.new ≡ record store.old { tables = store.new.tables; views = store.new.views } }
{
    match change {
        LiveChange::Wrote(change) => set(store, change),
        LiveChange::Added(delta) => add(store, delta),
    }
}

/// Takes back what a record says, if that fits what stands there.
///
/// # Errors
///
/// Where there is no memory for it. What the store has is not told then.
pub(crate) fn take_back<M: SortedMaps>(
    store: &mut DataStore<M>,
    change: &LiveChange,
) -> Result<Tried, NoMemory>
    requires has { (s : Stored) × Has M.maps M.limit store.old (pages_in s) }
    requires known { IsKnown (schema_of store.old.catalog) (what_of change.now) }
    ensures told { IfOk result (λ tried. (s : Stored) → Has M.maps M.limit store.old (pages_in s) → TakesBack M.maps M.limit store.new s (what_of change.now) tried) }
    ensures texts { OnOk result (M.maps store.new.tables 0 ≡ M.maps store.old.tables 0) }
    ensures rest { store.new ≡ record store.old { tables = store.new.tables; views = store.new.views } }
{
    match change {
        LiveChange::Wrote(change) => set_back(store, change),
        LiveChange::Added(delta) => add_back(store, delta),
    }
}

/// Sets the row behind the change of a carried Write, whatever stands there. What a carried Delta says stands there already.
///
/// # Errors
///
/// Where there is no memory for it. What the store has is not told then.
pub(crate) fn set_carried<M: SortedMaps>(
    store: &mut DataStore<M>,
    change: &LiveChange,
) -> Result<(), NoMemory>
    requires has { (p : Pages) × Has M.maps M.limit store.old p }
    requires known { IsKnown (schema_of store.old.catalog) (what_of change.now) }
    ensures told { OnOk result ((p : Pages) → Has M.maps M.limit store.old p → Has M.maps M.limit store.new (with_rows_of (what_of change.now) p)) }
    ensures texts { OnOk result (M.maps store.new.tables 0 ≡ M.maps store.old.tables 0) }
    ensures rest { store.new ≡ record store.old { tables = store.new.tables; views = store.new.views } }
{
    match change {
        LiveChange::Wrote(change) => put_row(store, change),
        LiveChange::Added(_) => Ok(()),
    }
}
