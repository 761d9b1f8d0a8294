//! Changes of one entry, after which no two neighbours fit together.
ghost use Rattle.std.specs.Prelude.{◌≡◌, ℕ, ◌+◌, ◌-◌, ◌<◌, ◌≤◌, List, [], ◌∷◌, ◌++◌, length, take, drop, get_or, set, Option, Some, None, IsSome, true, false};
ghost use Rattle.slot_page.specs.Page.{Entry, no_entry, entries, index_of, IsPage, whole_page, page_body, entry_head};
ghost use Rattle.ordered_index.specs.Flat.{IsForest, value_at, items, IsPut, IsSwapped, TightOutside, AreTightBut};
ghost use Rattle.slot_page.specs.Order.{IsRising, StandsAt, Missing};
ghost use Rattle.ordered_index.specs.Row.{Row, Leaf, no_leaf};

use crate::edits::{cut, insert_at, join, new_leaf, remove_at};
use crate::finding::seek;
use crate::leaves::Leaves;
use slot_page::{BODY, count, entry, find, index, room};

// Where an absent key would stand.
fn gap(page: &[u8], key: &[u8]) -> usize
    requires page { IsPage page.now }
    requires rising { IsRising (entries page.now) }
    requires absent { (i : ℕ) → StandsAt key.now (entries page.now) i → ⊥ }
    ensures { Missing key.now (entries page.now) result }
{
    match find(page, key) {
        Ok(i) => i,
        Err(i) => i,
    }
}

// Where a key stands that is there.
fn spot(page: &[u8], key: &[u8]) -> usize
    requires page { IsPage page.now }
    requires rising { IsRising (entries page.now) }
    requires present { (i : ℕ) × StandsAt key.now (entries page.now) i }
    ensures { StandsAt key.now (entries page.now) result }
{
    match find(page, key) {
        Ok(i) => i,
        Err(i) => i,
    }
}

// Puts an entry into its place. The result says about which leaf neighbours may fit together, if any may.
fn insert_item(
    leaves: &mut Leaves,
    buffer: &mut [u8],
    of: u32,
    key: &[u8],
    value: &[u8],
) -> Option<usize>
    requires forest { IsForest leaves.old.leaves }
    requires absent { value_at (of, key.now) (items leaves.old.leaves) ≡ None }
    requires buffer { length buffer.old ≡ whole_page }
    requires pages { length leaves.old.leaves + 1 < leaves.old.pages }
    requires size { entry_head + length key.now + length value.now ≤ page_body }
    ensures forest { IsForest leaves.new.leaves }
    ensures items { IsPut (of, key.now) value.now (items leaves.old.leaves) (items leaves.new.leaves) }
    ensures pages { leaves.new.pages ≡ leaves.old.pages }
    ensures loose { TightOutside 0 0 leaves.old.leaves → AreTightBut result leaves.new.leaves }
{
    let k = seek(leaves, of, key);
    if k == 0 {
        new_leaf(leaves, k, of, key, value);
        return Some(k);
    }
    let page = leaves.page(k - 1);
    if index(page) != of {
        new_leaf(leaves, k, of, key, value);
        return Some(k);
    }
    let i = gap(page, key);
    let n = count(page);
    if 6 + key.len() + value.len() <= room(page) {
        insert_at(leaves, buffer, k - 1, i, key, value);
        return None;
    }
    if i == n {
        new_leaf(leaves, k, of, key, value);
        return Some(k);
    }
    cut(leaves, buffer, k - 1, i);
    new_leaf(leaves, k, of, key, value);
    Some(k)
}

#[tactic(auto, using(slot_page::proofs::Pages::page_size, slot_page::proofs::Pages::packed_lies))]
// Removes the entry at a place. The results are the leaf about which neighbours may fit together, and the bytes of the
// entry's value.
fn remove_item(leaves: &mut Leaves, buffer: &mut [u8], of: u32, key: &[u8]) -> (usize, usize)
    requires forest { IsForest leaves.old.leaves }
    requires present { IsSome (value_at (of, key.now) (items leaves.old.leaves)) }
    requires buffer { length buffer.old ≡ whole_page }
    ensures forest { IsForest leaves.new.leaves }
    ensures items { (value : List ℕ) × (length value ≡ result.1) × IsPut (of, key.now) value (items leaves.new.leaves) (items leaves.old.leaves) }
    ensures pages { leaves.new.pages ≡ leaves.old.pages }
    ensures loose { TightOutside 0 0 leaves.old.leaves → TightOutside (result.0 - 1) (result.0 + 1) leaves.new.leaves }
{
    let k = seek(leaves, of, key) - 1;
    let page = leaves.page(k);
    let i = spot(page, key);
    let bytes = entry(page, i).1.len();
    if count(page) == 1 {
        leaves.close(k);
        return (k, bytes);
    }
    remove_at(leaves, buffer, k, i);
    (k, bytes)
}

// Joins leaf `k` with the next one where both are of one index and fit into one page.
fn settle(leaves: &mut Leaves, buffer: &mut [u8], k: usize)
    requires forest { IsForest leaves.old.leaves }
    requires buffer { length buffer.old ≡ whole_page }
    ensures forest { IsForest leaves.new.leaves }
    ensures items { items leaves.new.leaves ≡ items leaves.old.leaves }
    ensures pages { leaves.new.pages ≡ leaves.old.pages }
    ensures tight { (a : ℕ) → a ≤ k → TightOutside a (k + 1) leaves.old.leaves → TightOutside a k leaves.new.leaves }
{
    let n = leaves.len();
    if n < 2 || k > n - 2 {
        return;
    }
    let page = leaves.page(k);
    let of = index(page);
    let left = room(page);
    let next = leaves.page(k + 1);
    if index(next) != of {
        return;
    }
    if left + room(next) < BODY {
        return;
    }
    join(leaves, buffer, k);
}

// Joins leaves from the one before `b` down to leaf `a` with their next ones where both fit.
fn settle_from(leaves: &mut Leaves, buffer: &mut [u8], a: usize, b: usize)
    requires forest { IsForest leaves.old.leaves }
    requires buffer { length buffer.old ≡ whole_page }
    requires order { a ≤ b }
    requires loose { TightOutside a b leaves.old.leaves }
    ensures forest { IsForest leaves.new.leaves }
    ensures items { items leaves.new.leaves ≡ items leaves.old.leaves }
    ensures pages { leaves.new.pages ≡ leaves.old.pages }
    ensures tight { TightOutside a a leaves.new.leaves }
{
    let mut j = b;
    while j > a {
        j -= 1;
        settle(leaves, buffer, j);
    }
}

// Joins neighbours that fit together, of which the first is one of four leaves from the one two before leaf `k`.
fn settle_about(leaves: &mut Leaves, buffer: &mut [u8], k: usize)
    requires forest { IsForest leaves.old.leaves }
    requires buffer { length buffer.old ≡ whole_page }
    requires loose { TightOutside (k - 2) (k + 2) leaves.old.leaves }
    ensures forest { IsForest leaves.new.leaves }
    ensures items { items leaves.new.leaves ≡ items leaves.old.leaves }
    ensures pages { leaves.new.pages ≡ leaves.old.pages }
    ensures tight { TightOutside 0 0 leaves.new.leaves }
{
    let low = if k < 2 { 0 } else { k - 2 };
    let n = leaves.len();
    if n <= low {
        return;
    }
    let high = if n - low < 4 { n } else { low + 4 };
    settle_from(leaves, buffer, low, high);
}

/// Puts an entry into its place, and joins neighbours that fit together.
pub fn insert_and_settle(leaves: &mut Leaves, buffer: &mut [u8], of: u32, key: &[u8], value: &[u8])
    requires forest { IsForest leaves.old.leaves }
    requires tight { TightOutside 0 0 leaves.old.leaves }
    requires absent { value_at (of, key.now) (items leaves.old.leaves) ≡ None }
    requires buffer { length buffer.old ≡ whole_page }
    requires pages { length leaves.old.leaves + 1 < leaves.old.pages }
    requires size { entry_head + length key.now + length value.now ≤ page_body }
    ensures forest { IsForest leaves.new.leaves }
    ensures items { IsPut (of, key.now) value.now (items leaves.old.leaves) (items leaves.new.leaves) }
    ensures pages { leaves.new.pages ≡ leaves.old.pages }
    ensures tight { TightOutside 0 0 leaves.new.leaves }
{
    if let Some(k) = insert_item(leaves, buffer, of, key, value) {
        settle_about(leaves, buffer, k);
    }
}

#[tactic(auto, using(slot_page::proofs::Pages::page_size, slot_page::proofs::Pages::packed_lies))]
/// Sets the value under a key that is there, in its place, where the old one has as many bytes. Else the result is false, and
/// nothing is changed.
pub fn replace_value(leaves: &mut Leaves, of: u32, key: &[u8], value: &[u8]) -> bool
    requires forest { IsForest leaves.old.leaves }
    requires present { IsSome (value_at (of, key.now) (items leaves.old.leaves)) }
    ensures forest { IsForest leaves.new.leaves }
    ensures items { result ≡ true → IsSwapped (of, key.now) value.now (items leaves.old.leaves) (items leaves.new.leaves) }
    ensures same { result ≡ false → leaves.new ≡ leaves.old }
    ensures pages { leaves.new.pages ≡ leaves.old.pages }
    ensures tight { TightOutside 0 0 leaves.old.leaves → TightOutside 0 0 leaves.new.leaves }
{
    let k = seek(leaves, of, key) - 1;
    let page = leaves.page(k);
    let i = spot(page, key);
    if entry(page, i).1.len() != value.len() {
        return false;
    }
    leaves.set_value(k, i, value);
    true
}

/// Removes an entry, and joins neighbours that fit together. The result is the number of bytes of its value.
pub fn remove_and_settle(leaves: &mut Leaves, buffer: &mut [u8], of: u32, key: &[u8]) -> usize
    requires forest { IsForest leaves.old.leaves }
    requires tight { TightOutside 0 0 leaves.old.leaves }
    requires present { IsSome (value_at (of, key.now) (items leaves.old.leaves)) }
    requires buffer { length buffer.old ≡ whole_page }
    ensures forest { IsForest leaves.new.leaves }
    ensures items { (value : List ℕ) × (length value ≡ result) × IsPut (of, key.now) value (items leaves.new.leaves) (items leaves.old.leaves) }
    ensures pages { leaves.new.pages ≡ leaves.old.pages }
    ensures tight { TightOutside 0 0 leaves.new.leaves }
{
    let (k, bytes) = remove_item(leaves, buffer, of, key);
    settle_about(leaves, buffer, k);
    bytes
}
