//! Searches over leaves.
#![tactic(auto, using(slot_page::proofs::Pages::page_size, slot_page::proofs::Pages::packed_lies))]

ghost use Rattle.std.specs.Prelude.{◌≡◌, ℕ, ◌+◌, ◌-◌, ◌<◌, ◌≤◌, List, [], ◌∷◌, ◌++◌, length, drop, get_or, slice_get};
ghost use Rattle.std.specs.Prelude.{Some, None};
ghost use Rattle.std.specs.Option.{option_copied, option_map};
ghost use Rattle.iv_types.specs.Maps.{first_where};
ghost use Rattle.slot_page.specs.Page.{Entry, no_entry, entries, index_of, IsPage};
ghost use Rattle.slot_page.specs.Order.{IsRising};
ghost use Rattle.ordered_index.specs.Row.{Row, Leaf, no_leaf};
ghost use Rattle.ordered_index.specs.Flat.{place_cmp, Sought, IsForest, value_at, of_index, items, passes, Starts};

use crate::leaves::Leaves;
use slot_page::{count, entry, find, index};
use std::cmp::Ordering;

// How the first entry of a page stands to a place.
fn begins(page: &[u8], of: u32, key: &[u8]) -> Ordering
    requires page { IsPage page.now }
    requires some { 0 < length (entries page.now) }
    ensures { result ≡ place_cmp (index_of page.now, (get_or (entries page.now) 0 no_entry).0) (of, key.now) }
{
    match index(page).cmp(&of) {
        Ordering::Equal => entry(page, 0).0.cmp(key),
        other => other,
    }
}

/// How many leaves begin at or below a place.
pub fn seek(leaves: &Leaves, of: u32, key: &[u8]) -> usize
    requires { IsForest leaves.now.leaves }
    ensures { Sought (of, key.now) leaves.now.leaves result }
{
    let mut low = 0;
    let mut high = leaves.len();
    while low < high {
        let middle = low + (high - low) / 2;
        match begins(leaves.page(middle), of, key) {
            Ordering::Less => low = middle + 1,
            Ordering::Equal => low = middle + 1,
            Ordering::Greater => high = middle,
        }
    }
    low
}

/// The value at a place.
pub fn value_of<'a>(leaves: &'a Leaves, of: u32, key: &[u8]) -> Option<&'a [u8]>
    requires { IsForest leaves.now.leaves }
    ensures { option_copied result ≡ value_at (of, key.now) (items leaves.now.leaves) }
{
    let k = seek(leaves, of, key);
    if k == 0 {
        return None;
    }
    let page = leaves.page(k - 1);
    if index(page) != of {
        return None;
    }
    match find(page, key) {
        Ok(i) => Some(entry(page, i).1),
        Err(_) => None,
    }
}

// The first entry of an index from leaf `k` on, where no leaf from there on has a lower index.
fn front<'a>(leaves: &'a Leaves, k: usize, of: u32) -> Option<(&'a [u8], &'a [u8])>
    requires forest { IsForest leaves.now.leaves }
    requires place { k ≤ length leaves.now.leaves }
    requires above { k < length leaves.now.leaves → of ≤ (get_or leaves.now.leaves k no_leaf).0 }
    ensures { option_map (λ e. (e.0.now, e.1.now)) result ≡ slice_get (of_index of (items (drop k leaves.now.leaves))) 0 }
{
    if k == leaves.len() {
        return None;
    }
    let page = leaves.page(k);
    if index(page) != of {
        return None;
    }
    Some(entry(page, 0))
}

// The place in a page of the first entry at the key or after it, or of the first one after it.
fn start(page: &[u8], key: &[u8], after: bool) -> usize
    requires page { IsPage page.now }
    requires rising { IsRising (entries page.now) }
    ensures { Starts (passes after key.now) (entries page.now) result }
{
    match find(page, key) {
        Ok(i) => { if after { i + 1 } else { i } }
        Err(i) => i,
    }
}

/// The first entry of an index at the key or after it, or the first one after it.
pub fn first_from<'a>(
    leaves: &'a Leaves,
    of: u32,
    key: &[u8],
    after: bool,
) -> Option<(&'a [u8], &'a [u8])>
    requires { IsForest leaves.now.leaves }
    ensures { option_map (λ e. (e.0.now, e.1.now)) result ≡ first_where (passes after key.now) (of_index of (items leaves.now.leaves)) }
{
    let k = seek(leaves, of, key);
    if k == 0 {
        return front(leaves, k, of);
    }
    let page = leaves.page(k - 1);
    if index(page) != of {
        return front(leaves, k, of);
    }
    let i = start(page, key, after);
    if i < count(page) {
        return Some(entry(page, i));
    }
    front(leaves, k, of)
}
