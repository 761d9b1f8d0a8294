//! Which pages of a store are stored.
ghost use Rattle.std.specs.Prelude.{◌≡◌, ◌≢◌, ℕ, ◌+◌, ◌<◌, ◌≤◌, length, get_or, false, true, [], List};
ghost use Rattle.page_store.specs.Store.{page_bytes, stored_flags, change_marks, pages_in};
ghost use Rattle.slot_page.specs.Page.{IsPage, index_of};
ghost use Rattle.ordered_index.specs.Row.{pages_of};
ghost use Rattle.ordered_index.specs.Drawn.{Flagged, Marked};

use page_store::PageStore;
use slot_page::index;

// Says that no page is stored, and marks each as changed.
fn clear_all(store: &mut PageStore)
    ensures bytes { page_bytes store.new ≡ page_bytes store.old }
    ensures count { pages_in store.new ≡ pages_in store.old }
    ensures flags { (p : ℕ) → get_or (stored_flags store.new) p false ≡ false }
    ensures marks { Marked (change_marks store.new) (pages_in store.old) }
{
    for n in 0..store.pages() {
        store.set_stored(n, false);
    }
}

// Whether an index is stored.
fn is_kept(kept: &[bool], of: u32) -> bool
    ensures { result ≡ get_or kept.now of false }
{
    match kept.get(of as usize) {
        Some(stored) => *stored,
        None => false,
    }
}

// Says of a page in order whether it is stored.
fn mark_one(store: &mut PageStore, p: u32, kept: &[bool])
    requires inside { p < pages_in store.old }
    requires held { IsPage (get_or (pages_of store.old) p []) }
    ensures bytes { page_bytes store.new ≡ page_bytes store.old }
    ensures count { pages_in store.new ≡ pages_in store.old }
    ensures here { get_or (stored_flags store.new) p false ≡ get_or kept.now (index_of (get_or (pages_of store.old) p [])) false }
    ensures others { (q : ℕ) → q ≢ p → get_or (stored_flags store.new) q false ≡ get_or (stored_flags store.old) q false }
    ensures marks { (n : ℕ) → Marked (change_marks store.old) n → n ≤ pages_in store.old → Marked (change_marks store.new) n }
{
    let of = index(store.page(p));
    store.set_stored(p, is_kept(kept, of));
}

// Says of each page in order whether it is stored, where before no page is.
fn mark_leaves(store: &mut PageStore, order: &[u32], kept: &[bool])
    requires inside { (k : ℕ) → k < length order.now → get_or order.now k 0 < pages_in store.old }
    requires held { (k : ℕ) → k < length order.now → IsPage (get_or (pages_of store.old) (get_or order.now k 0) []) }
    requires clear { (p : ℕ) → get_or (stored_flags store.old) p false ≡ false }
    requires marked { Marked (change_marks store.old) (pages_in store.old) }
    ensures bytes { page_bytes store.new ≡ page_bytes store.old }
    ensures count { pages_in store.new ≡ pages_in store.old }
    ensures flags { Flagged (pages_of store.old) order.now kept.now (length order.now) (stored_flags store.new) }
    ensures marks { Marked (change_marks store.new) (pages_in store.old) }
{
    for k in 0..order.len() {
        mark_one(store, order[k], kept);
    }
}

/// Says of each page whether it is stored: those in order are of which the index is, and no others. Marks each page as
/// changed.
pub fn mark_stored(store: &mut PageStore, order: &[u32], kept: &[bool])
    requires inside { (k : ℕ) → k < length order.now → get_or order.now k 0 < pages_in store.old }
    requires held { (k : ℕ) → k < length order.now → IsPage (get_or (pages_of store.old) (get_or order.now k 0) []) }
    ensures bytes { page_bytes store.new ≡ page_bytes store.old }
    ensures count { pages_in store.new ≡ pages_in store.old }
    ensures flags { Flagged (pages_of store.old) order.now kept.now (length order.now) (stored_flags store.new) }
    ensures marks { Marked (change_marks store.new) (pages_in store.old) }
{
    clear_all(store);
    mark_leaves(store, order, kept);
}
