//! All views.
ghost use Rattle.std.specs.Prelude.{◌≡◌, suc, Some, IfSome, IfNone, IfOk};
ghost use Rattle.iv_meaning.specs.Objects.{schema_of, view_tree};
ghost use Rattle.iv_meaning.specs.Schema.{numbered, view};
ghost use Rattle.data_store.specs.Contents.{Contents};
ghost use Rattle.image_views.specs.Compared.{CanCompare, CanEvaluate, AreFreshRows, IsNoView, IsFound, IsFoundBelow};
ghost use Rattle.image_views.specs.declared.wrong.ViewsFound.TheVariants.{Same};

use crate::compare::first_wrong;
use crate::fresh::fresh_rows;
use crate::wrong::ViewsFound;
use data_store::DataStore;
use iv_types::{Catalog, Definition, NoMemory, SortedMaps, ViewDef, ViewRowList};
use object_kinds::numbered;

// What is found up to a view that has these rows, where each row of those before it is what its view has.
fn compared<M: SortedMaps>(
    store: &DataStore<M>,
    view: &ViewDef,
    rows: &ViewRowList,
) -> Result<ViewsFound, NoMemory>
    requires { (c : Contents) × CanEvaluate store.now.catalog (M.maps store.now.tables) store.now.views (view_tree view.now) c × AreFreshRows c (view_tree view.now) rows.now }
    ensures { IfOk result (λ after. (c : Contents) → CanEvaluate store.now.catalog (M.maps store.now.tables) store.now.views (view_tree view.now) c
        → AreFreshRows c (view_tree view.now) rows.now → IsFoundBelow c view.now.number Same → IsFoundBelow c (suc view.now.number) after) }
{
    match first_wrong(store.alloc, store.tables.maps(), view.number, rows)? {
        None => Ok(ViewsFound::Same),
        Some(wrong) => Ok(ViewsFound::Differs(wrong)),
    }
}

// What is found up to a view that has these rows.
fn with_rows<M: SortedMaps>(
    store: &DataStore<M>,
    view: &ViewDef,
    rows: &ViewRowList,
    found: ViewsFound,
) -> Result<ViewsFound, NoMemory>
    requires { (c : Contents) × CanEvaluate store.now.catalog (M.maps store.now.tables) store.now.views (view_tree view.now) c × AreFreshRows c (view_tree view.now) rows.now }
    ensures { IfOk result (λ after. (c : Contents) → CanEvaluate store.now.catalog (M.maps store.now.tables) store.now.views (view_tree view.now) c
        → AreFreshRows c (view_tree view.now) rows.now → IsFoundBelow c view.now.number found → IsFoundBelow c (suc view.now.number) after) }
{
    match found {
        ViewsFound::OutOfRange => Ok(ViewsFound::OutOfRange),
        ViewsFound::Differs(wrong) => Ok(ViewsFound::Differs(wrong)),
        ViewsFound::Same => compared(store, view, rows),
    }
}

// What is found up to a view.
fn with_view<M: SortedMaps>(
    store: &DataStore<M>,
    view: &ViewDef,
    found: ViewsFound,
) -> Result<ViewsFound, NoMemory>
    requires { (c : Contents) × CanEvaluate store.now.catalog (M.maps store.now.tables) store.now.views (view_tree view.now) c }
    ensures { IfOk result (λ after. (c : Contents) → CanEvaluate store.now.catalog (M.maps store.now.tables) store.now.views (view_tree view.now) c
        → IsFoundBelow c view.now.number found → IsFoundBelow c (suc view.now.number) after) }
{
    match fresh_rows(store, view)? {
        None => Ok(ViewsFound::OutOfRange),
        Some(rows) => with_rows(store, view, &rows, found),
    }
}

// The view of an object number, if it is one.
fn view_at(catalog: &Catalog, number: u32) -> Option<&ViewDef>
    ensures some { IfSome result (λ v. numbered (schema_of catalog.now) number ≡ Some (view (view_tree v.now))) }
    ensures none { IfNone result (IsNoView (schema_of catalog.now) number) }
{
    match numbered(catalog, number) {
        Some(Definition::View(view)) => Some(view),
        Some(Definition::Table(_)) => None,
        Some(Definition::Index(_)) => None,
        None => None,
    }
}

// What is found up to an object.
fn with_object<M: SortedMaps>(
    store: &DataStore<M>,
    number: u32,
    found: ViewsFound,
) -> Result<ViewsFound, NoMemory>
    requires { (c : Contents) × CanCompare store.now.catalog (M.maps store.now.tables) store.now.views c }
    ensures { IfOk result (λ after. (c : Contents) → CanCompare store.now.catalog (M.maps store.now.tables) store.now.views c
        → IsFoundBelow c number found → IsFoundBelow c (suc number) after) }
{
    match view_at(&store.catalog, number) {
        Some(view) => with_view(store, view, found),
        None => Ok(found),
    }
}

/// Compares the stored rows of each view with the view, evaluated afresh on the rows of its tables. All views are evaluated before a
/// row is told; then views go by number and groups in the order of their keys. A row with a count of 0 and sums of 0 equals
/// none.
///
/// # Errors
///
/// Where there is no memory for the rows of a view.
pub fn check_views<M: SortedMaps>(store: &DataStore<M>) -> Result<ViewsFound, NoMemory>
    requires { (c : Contents) × CanCompare store.now.catalog (M.maps store.now.tables) store.now.views c }
    ensures { IfOk result (λ found. (c : Contents) → CanCompare store.now.catalog (M.maps store.now.tables) store.now.views c → IsFound c found) }
{
    let mut found = ViewsFound::Same;
    for number in 1..store.catalog.next_number() {
        found = with_object(store, number, found)?;
    }
    Ok(found)
}
