//! The views of what is recovered, and how many bytes it has.
ghost use Rattle.std.specs.Prelude.{◌≡◌, ◌≤◌, ◌<◌, OnOk, IfErr};
ghost use Rattle.table_store.specs.Lists.{map_at};
ghost use Rattle.data_store.specs.Contents.{Contents};
ghost use Rattle.image_views.specs.Compared.{CanCompare};
ghost use Rattle.image_opening.specs.declared.views.ViewsFault.TheVariants as why;
ghost use Rattle.image_opening.specs.Telling.{IsFineSo, Tells};

use data_store::DataStore;
use image_finding::BadImage;
use image_views::{ViewsFound, WrongRow, check_views};
use iv_types::NoMemory;
use tree_maps::TreeMaps;

/// Why what was recovered is no database.
#[derive(Drop)]
pub(crate) enum ViewsFault {
    /// A rule fails.
    Rule(BadImage),
    /// A stored row of a view is not what the view has.
    Row(WrongRow),
    /// There was no memory for a view.
    NoMemory,
}

// The rules that are tried here, by their numbers. They have no place.
const IN_RANGE: u8 = 14;

const WITHIN_LIMIT: u8 = 15;

// The rule fails.
fn fails(rule: u8) -> ViewsFault
    ensures { result ≡ why.Rule (record { rule = rule; place = 0 }) }
{
    ViewsFault::Rule(BadImage { rule, place: 0 })
}

// Whether so many bytes are within the limit.
fn within(bytes: u64, most: u64) -> Result<(), ViewsFault>
    ensures fits { OnOk result (bytes ≤ most) }
    ensures passes { IfErr result (λ fault. (most < bytes) × (fault ≡ why.Rule (record { rule = 15; place = 0 }))) }
{
    if bytes > most {
        return Err(fails(WITHIN_LIMIT));
    }
    Ok(())
}

// A row differs, where the bytes are within the limit.
fn differs(wrong: WrongRow, bytes: u64, most: u64) -> ViewsFault
    ensures within { bytes ≤ most → result ≡ why.Row wrong }
    ensures beyond { most < bytes → result ≡ why.Rule (record { rule = 15; place = 0 }) }
{
    if bytes > most {
        return fails(WITHIN_LIMIT);
    }
    ViewsFault::Row(wrong)
}

/// Compares each view of a store with what it is, evaluated afresh, and its bytes with their limit: first the sums of all views (rule 14),
/// then the bytes (rule 15), and then each stored row.
///
/// # Errors
///
/// `Rule` with rule 14 or 15, and `Row` with the first row that differs. `NoMemory` where there was none for a view.
pub(crate) fn checked(store: &DataStore<TreeMaps>, bytes: u64, most: u64) -> Result<(), ViewsFault>
    requires { (c : Contents) × CanCompare store.now.catalog (map_at store.now.tables) store.now.views c }
    ensures fine { OnOk result ((c : Contents) → CanCompare store.now.catalog (map_at store.now.tables) store.now.views c → IsFineSo bytes most c) }
    ensures refused { IfErr result (λ fault. (c : Contents) → CanCompare store.now.catalog (map_at store.now.tables) store.now.views c → Tells bytes most c fault) }
{
    match check_views(store) {
        Ok(ViewsFound::OutOfRange) => Err(fails(IN_RANGE)),
        Ok(ViewsFound::Same) => within(bytes, most),
        Ok(ViewsFound::Differs(wrong)) => Err(differs(wrong, bytes, most)),
        Err(NoMemory) => Err(ViewsFault::NoMemory),
    }
}
