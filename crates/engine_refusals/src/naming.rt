//! A refusal of the escrow's with names.
ghost use Rattle.std.specs.Prelude.{◌≡◌, [], Some, IfOk};
ghost use Rattle.iv_types.specs.declared.refusal.Refusal.TheVariants as refusal;
ghost use Rattle.iv_meaning.specs.Objects.{schema_of, view_tree};
ghost use Rattle.iv_meaning.specs.Schema as schema;
ghost use Rattle.iv_meaning.specs.Schema.{numbered};
ghost use Rattle.statement_law.specs.Telling.{column_name, escrow_told};

use crate::values::values_in;
use iv_types::{Bytes, Catalog, Definition, GroupDelta, NoMemory, Refusal, Row, ViewDef};
use object_kinds::{group_kinds, numbered};
use std::alloc::Global;

/// The name of a view's count, which is its column 0, or of a sum.
fn column_name(alloc: Global, view: &ViewDef, column: u32) -> Result<Bytes, NoMemory>
    ensures { IfOk result (λ name. name ≡ column_name (view_tree view.now) column) }
{
    let place = view.group.as_slice().len() + column as usize;
    match view.names.as_slice().get(place) {
        Some(name) => name.copied(alloc),
        None => Ok(Bytes::new(alloc)),
    }
}

/// A refusal that has no names, for which no memory is taken.
pub fn nameless(alloc: Global, inf: i128, sup: i128) -> Refusal
    ensures { result ≡ refusal.EscrowRange [] [] [] inf sup }
{
    Refusal::EscrowRange {
        view: Bytes::new(alloc),
        group: Row::new(alloc),
        column: Bytes::new(alloc),
        inf,
        sup,
    }
}

// Of a view's row.
fn of_view(
    alloc: Global,
    catalog: &Catalog,
    view: &ViewDef,
    group: &Bytes,
    column: u32,
    inf: i128,
    sup: i128,
) -> Result<Refusal, NoMemory>
    ensures { IfOk result (λ r. r ≡ escrow_told (schema_of catalog.now) (Some (schema.view (view_tree view.now))) group.now column inf sup) }
{
    let kinds = group_kinds(alloc, catalog, view)?;
    Ok(Refusal::EscrowRange {
        view: view.name.copied(alloc)?,
        group: values_in(alloc, kinds.as_slice(), group.as_slice())?,
        column: column_name(alloc, view, column)?,
        inf,
        sup,
    })
}

/// Of the row to which a delta was to be paid.
///
/// # Errors
///
/// Where there is no memory for the names.
pub fn escrow_told(
    alloc: Global,
    catalog: &Catalog,
    delta: &GroupDelta,
    column: u32,
    inf: i128,
    sup: i128,
) -> Result<Refusal, NoMemory>
    ensures { IfOk result (λ r. r ≡ escrow_told (schema_of catalog.now) (numbered (schema_of catalog.now) delta.now.view) delta.now.group column inf sup) }
{
    match numbered(catalog, delta.view) {
        Some(Definition::View(view)) => {
            of_view(alloc, catalog, view, &delta.group, column, inf, sup)
        }
        _ => Ok(nameless(alloc, inf, sup)),
    }
}
