//! Statements bound to what a database defines.
ghost use Rattle.std.specs.Prelude.{◌≡◌, IfOk};
ghost use Rattle.iv_types.specs.Printing.{statement_size};
ghost use Rattle.iv_types.specs.Trees.{statement_tree};
ghost use Rattle.iv_meaning.specs.Bound.{bound_tree};
ghost use Rattle.iv_meaning.specs.Objects.{schema_of};
ghost use Rattle.iv_meaning.specs.Binding as meant;
ghost use Rattle.bind_resolve.specs.Meant.{IsMeant};
ghost use Rattle.bind_resolve.specs.Seen.{resolved_seen};

use crate::creating::{index, selection, table, view};
use bind_check::number_of;
use bind_resolve::Resolved;
use bind_statements::{check, resolve};
use iv_types::{
    Bound, BoundDelete, BoundInsert, BoundUpdate, Catalog, NoMemory, Refusal, Statement,
};
use std::alloc::Global;

// What a resolved statement is bound to.
fn bound_of(alloc: Global, catalog: &Catalog, statement: Resolved<'_>) -> Result<Bound, NoMemory>
    ensures { IfOk result (λ b. bound_tree b ≡ meant.bound_of (schema_of catalog.now) (resolved_seen statement.entry)) }
{
    match statement {
        Resolved::Table {
            name,
            columns,
            primary,
        } => table(alloc, catalog, name, columns, primary),
        Resolved::Index {
            name,
            target,
            columns,
        } => index(alloc, catalog, name, target, columns),
        Resolved::View { name, query } => view(alloc, catalog, name, &query),
        Resolved::Insert { target, tuples } => {
            let table = number_of(target);
            Ok(Bound::Insert(BoundInsert { table, tuples }))
        }
        Resolved::Update {
            target,
            sets,
            condition,
        } => {
            let table = number_of(target);
            Ok(Bound::Update(BoundUpdate {
                table,
                sets,
                condition,
            }))
        }
        Resolved::Delete { target, condition } => {
            let table = number_of(target);
            Ok(Bound::Delete(BoundDelete { table, condition }))
        }
        Resolved::Select { query, order } => selection(alloc, query, order),
        Resolved::Control => Ok(Bound::Control),
    }
}

/// A statement with numbers for the names of objects and places for the names of columns.
///
/// # Errors
///
/// The first fault of the first pass that finds one: `UnknownName` or `NameTaken` at the first place in the text; `WrongType`;
/// `WrongShape` of the least rule that fails; `Limit` of the least number; `NeedsIndex`. `NoMemory` where there is none.
#[tactic(auto, using(bind_resolve::proofs::Steps::stops, bind_resolve::proofs::Steps::goes_on, crate::proofs::Checked::passes))]
pub fn bind(alloc: Global, catalog: &Catalog, statement: &Statement) -> Result<Bound, Refusal>
    ensures { IsMeant bound_tree result (meant.bind (schema_of catalog.now) (statement_tree statement.now)) }
{
    let resolved = resolve(alloc, catalog, statement)?;
    match check(alloc, catalog, statement, &resolved) {
        Ok(()) => Ok(bound_of(alloc, catalog, resolved)?),
        Err(refusal) => {
            resolved.let_go();
            Err(refusal)
        }
    }
}
