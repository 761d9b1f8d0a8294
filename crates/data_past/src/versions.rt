//! The versions that a commit leaves.
ghost use Rattle.std.specs.Prelude.{◌≡◌, ◌≤◌, ◌+◌, ◌++◌, length, reverse, IfOk, OnOk};
ghost use Rattle.std.specs.Option.{option_to_list};
ghost use Rattle.data_past.specs.Moves.{pushed_all, version_at, delta_at, HasFitting, IsFitting, AreFitting, version_of, version_in, versions_in, delta_in, deltas_in};

use data_store::DataStore;
use iv_types::{Catalog, Change, GroupDelta, KeptStep, NoMemory, SortedMaps};
use row_codec::encode_row;
use std::alloc::Global;
use table_store::table_of;
use version_chain::{DeltaChains, RowChains, Version};

/// The versions that a commit leaves: of each change the row before it, and each delta that was paid, both in their order.
#[derive(Drop)]
pub struct Versions {
    pub rows: Vec<Version>,
    pub deltas: Vec<GroupDelta>,
}

/// The version that a change leaves, whose row before it fits its table.
///
/// # Errors
///
/// Where there is no memory for it.
pub fn version_of(alloc: Global, catalog: &Catalog, change: &Change) -> Result<Version, NoMemory>
    requires { HasFitting catalog.now change.now }
    ensures { IfOk result (λ version. version ≡ version_of catalog.now change.now) }
{
    let table = table_of(catalog, change.table);
    let before = match &change.before {
        Some(row) => Some(encode_row(alloc, table, row)?),
        None => None,
    };
    Ok(Version {
        index: change.table,
        key: change.key.copied(alloc)?,
        before,
    })
}

// Adds the version that a kept step leaves, if it is a change.
fn add_version(
    alloc: Global,
    catalog: &Catalog,
    versions: &mut Vec<Version>,
    step: &KeptStep,
) -> Result<(), NoMemory>
    requires { IsFitting catalog.now step.now }
    ensures { OnOk result (versions.new.items ≡ versions.old.items ++ option_to_list (version_in catalog.now step.now)) }
{
    match step {
        KeptStep::Put { kept, .. } => {
            versions.push(version_of(alloc, catalog, &kept.change)?)?;
        }
        KeptStep::Pay { .. } => {}
    }
    Ok(())
}

// The versions of the changes among kept steps, in their order.
fn row_versions(
    alloc: Global,
    catalog: &Catalog,
    kept: &[KeptStep],
) -> Result<Vec<Version>, NoMemory>
    requires { AreFitting catalog.now kept.now }
    ensures { IfOk result (λ versions. versions.items ≡ versions_in catalog.now kept.now) }
{
    let mut versions = Vec::new(alloc);
    for step in kept {
        add_version(alloc, catalog, &mut versions, step)?;
    }
    Ok(versions)
}

// Adds the delta that a kept step paid, if it is a pay.
fn add_delta(alloc: Global, deltas: &mut Vec<GroupDelta>, step: &KeptStep) -> Result<(), NoMemory>
    ensures { OnOk result (deltas.new.items ≡ deltas.old.items ++ option_to_list (delta_in step.now)) }
{
    match step {
        KeptStep::Put { .. } => {}
        KeptStep::Pay { delta, .. } => {
            deltas.push(delta.copied(alloc)?)?;
        }
    }
    Ok(())
}

// The deltas of the pays among kept steps, in their order.
fn paid_deltas(alloc: Global, kept: &[KeptStep]) -> Result<Vec<GroupDelta>, NoMemory>
    ensures { IfOk result (λ deltas. deltas.items ≡ deltas_in kept.now) }
{
    let mut deltas = Vec::new(alloc);
    for step in kept {
        add_delta(alloc, &mut deltas, step)?;
    }
    Ok(deltas)
}

/// Makes the versions that the commit of a transaction leaves, of its kept steps in their order.
///
/// # Errors
///
/// Where there is no memory for them.
pub fn ready_versions<M: SortedMaps>(
    store: &DataStore<M>,
    kept: &[KeptStep],
) -> Result<Versions, NoMemory>
    requires { AreFitting store.now.catalog kept.now }
    ensures rows { IfOk result (λ versions. versions.rows.items ≡ versions_in store.now.catalog kept.now) }
    ensures deltas { IfOk result (λ versions. versions.deltas.items ≡ deltas_in kept.now) }
{
    let rows = row_versions(store.alloc, &store.catalog, kept)?;
    let deltas = paid_deltas(store.alloc, kept)?;
    Ok(Versions { rows, deltas })
}

/// Makes room for so many versions of rows and of view rows.
///
/// # Errors
///
/// Where there is no memory for it. Nothing is changed then but room.
pub fn reserve_versions<M: SortedMaps>(
    store: &mut DataStore<M>,
    rows: u32,
    deltas: u32,
) -> Result<(), NoMemory>
    ensures rows { store.new.row_versions ≡ record store.old.row_versions { room = store.new.row_versions.room } }
    ensures deltas { store.new.delta_versions ≡ record store.old.delta_versions { room = store.new.delta_versions.room } }
    ensures more { (store.old.row_versions.room ≤ store.new.row_versions.room) × (store.old.delta_versions.room ≤ store.new.delta_versions.room) }
    ensures room { OnOk result (rows ≤ store.new.row_versions.room) }
    ensures deltas_room { OnOk result (deltas ≤ store.new.delta_versions.room) }
    ensures rest { store.new ≡ record store.old { row_versions = store.new.row_versions; delta_versions = store.new.delta_versions } }
{
    store.row_versions.reserve(store.alloc, rows)?;
    store.delta_versions.reserve(store.alloc, deltas)
}

// Pushes versions of rows with a number, from the last to the first.
fn push_rows(chains: &mut RowChains, number: u64, mut versions: Vec<Version>)
    requires room { length versions.items ≤ chains.old.room }
    ensures versions { chains.new.versions ≡ pushed_all (version_at number) (reverse versions.items) chains.old.pruned chains.old.versions }
    ensures pruned { chains.new.pruned ≡ chains.old.pruned }
    ensures left { chains.old.room ≤ chains.new.room + length versions.items }
{
    while let Some(version) = versions.pop() {
        chains.push(number, version);
    }
}

// The same of view rows.
fn push_deltas(chains: &mut DeltaChains, number: u64, mut deltas: Vec<GroupDelta>)
    requires room { length deltas.items ≤ chains.old.room }
    ensures versions { chains.new.versions ≡ pushed_all (delta_at number) (reverse deltas.items) chains.old.pruned chains.old.versions }
    ensures pruned { chains.new.pruned ≡ chains.old.pruned }
    ensures left { chains.old.room ≤ chains.new.room + length deltas.items }
{
    while let Some(delta) = deltas.pop() {
        chains.push(number, delta);
    }
}

/// Pushes the versions of a commit with its number, into room that was made. Takes no memory.
pub fn push_versions<M: SortedMaps>(store: &mut DataStore<M>, number: u64, versions: Versions)
    requires room { length versions.rows.items ≤ store.old.row_versions.room }
    requires deltas_room { length versions.deltas.items ≤ store.old.delta_versions.room }
    ensures rows { store.new.row_versions.versions ≡ pushed_all (version_at number) versions.rows.items store.old.row_versions.pruned store.old.row_versions.versions }
    ensures deltas { store.new.delta_versions.versions ≡ pushed_all (delta_at number) versions.deltas.items store.old.delta_versions.pruned store.old.delta_versions.versions }
    ensures pruned { store.new.row_versions.pruned ≡ store.old.row_versions.pruned }
    ensures deltas_pruned { store.new.delta_versions.pruned ≡ store.old.delta_versions.pruned }
    ensures left { store.old.row_versions.room ≤ store.new.row_versions.room + length versions.rows.items }
    ensures deltas_left { store.old.delta_versions.room ≤ store.new.delta_versions.room + length versions.deltas.items }
    ensures rest { store.new ≡ record store.old { row_versions = store.new.row_versions; delta_versions = store.new.delta_versions } }
{
    let Versions {
        mut rows,
        mut deltas,
    } = versions;
    rows.reverse();
    deltas.reverse();
    push_rows(&mut store.row_versions, number, rows);
    push_deltas(&mut store.delta_versions, number, deltas);
}
