//! Groups of views.
ghost use Rattle.std.specs.Prelude.{◌≡◌, length, IfOk, IfSome, IfNone};
ghost use Rattle.iv_meaning.specs.Schema.{group_kinds};
ghost use Rattle.iv_meaning.specs.Objects.{schema_of, view_tree};
ghost use Rattle.txn_log.specs.Fitting.{IsGroup};
ghost use Rattle.record_reading.specs.Groups.{IsKeyIn, IsGroupOf};

use iv_types::{Catalog, Definition, NoMemory, ViewDef};
use object_kinds::{group_kinds, numbered};
use row_codec::{RowFault, decode_key};
use std::alloc::Global;

/// How many sums the view has, if this is the key of a group of it.
fn sums_of_group(
    alloc: Global,
    catalog: &Catalog,
    view: &ViewDef,
    group: &[u8],
) -> Result<Option<usize>, NoMemory>
    ensures some { IfOk result (λ found. IfSome found (λ sums. IsKeyIn (group_kinds (schema_of catalog.now) (view_tree view.now)) group.now × (sums ≡ length view.now.sums))) }
    ensures none { IfOk result (λ found. IfNone found (IsKeyIn (group_kinds (schema_of catalog.now) (view_tree view.now)) group.now → ⊥)) }
{
    let kinds = group_kinds(alloc, catalog, view)?;
    match decode_key(alloc, kinds.as_slice(), group) {
        Ok(_) => Ok(Some(view.sums.as_slice().len())),
        Err(RowFault::NoMemory) => Err(NoMemory),
        Err(RowFault::BadRow { .. }) => Ok(None),
    }
}

/// How many sums the rows of a view have, if this is the key of a group of a view.
///
/// # Errors
///
/// Where there is no memory for the group's values.
pub fn read_group(
    alloc: Global,
    catalog: &Catalog,
    view: u32,
    group: &[u8],
) -> Result<Option<usize>, NoMemory>
    ensures some { IfOk result (λ found. IfSome found (λ sums. IsGroupOf (schema_of catalog.now) (view, group.now) sums)) }
    ensures none { IfOk result (λ found. IfNone found (IsGroup (schema_of catalog.now) (view, group.now) → ⊥)) }
{
    match numbered(catalog, view) {
        Some(Definition::View(of)) => sums_of_group(alloc, catalog, of, group),
        Some(Definition::Table(_)) => Ok(None),
        Some(Definition::Index(_)) => Ok(None),
        None => Ok(None),
    }
}
