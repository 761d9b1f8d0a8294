//! The rows of a view, evaluated afresh on the rows of its tables.
ghost use Rattle.std.specs.Prelude.{IfOk};
ghost use Rattle.iv_meaning.specs.Objects.{view_tree};
ghost use Rattle.data_store.specs.Contents.{Contents};
ghost use Rattle.image_views.specs.Compared.{IsEvaluated, CanEvaluate};

use data_defining::rows_of_view;
use data_store::DataStore;
use iv_types::{NoMemory, Refusal, SortedMaps, ViewDef, ViewRowList};

/// The rows of a view in the order of their groups, or none where a sum leaves the HUGE range.
pub(crate) fn fresh_rows<M: SortedMaps>(
    store: &DataStore<M>,
    view: &ViewDef,
) -> Result<Option<ViewRowList>, NoMemory>
    requires { (c : Contents) × CanEvaluate store.now.catalog (M.maps store.now.tables) store.now.views (view_tree view.now) c }
    ensures { IfOk result (λ found. (c : Contents) → CanEvaluate store.now.catalog (M.maps store.now.tables) store.now.views (view_tree view.now) c
        → IsEvaluated c (view_tree view.now) found) }
{
    match rows_of_view(store, view) {
        Ok(rows) => Ok(Some(rows)),
        Err(Refusal::NumberRange) => Ok(None),
        Err(Refusal::NoMemory) => Err(NoMemory),
        Err(_) => unreachable!(),
    }
}
