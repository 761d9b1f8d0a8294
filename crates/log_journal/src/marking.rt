//! Which indexes are saved.
ghost use Rattle.std.specs.Prelude.{◌≡◌};
ghost use Rattle.log_journal.specs.Saved.{is_saved, MarksSaved};

use iv_types::{Catalog, Definition};
use ordered_index::PageMaps;

// The indexes 0 to 192.
const INDEXES: u32 = 193;

// Whether the entries of an index are saved: those of 0, of tables and of views are.
fn is_saved(catalog: &Catalog, index: u32) -> bool
    ensures { result ≡ is_saved catalog.now index }
{
    if index == 0 {
        return true;
    }
    match catalog.get(index) {
        Some(Definition::Table(_)) => true,
        Some(Definition::View(_)) => true,
        _ => false,
    }
}

/// Marks the indexes whose entries are saved.
pub fn mark_saved(maps: &mut PageMaps, catalog: &Catalog)
    ensures marks { MarksSaved catalog.now maps.new.kept }
    ensures same { maps.new ≡ record maps.old { kept = maps.new.kept } }
{
    for index in 0..INDEXES {
        maps.set_stored(index, is_saved(catalog, index));
    }
}
