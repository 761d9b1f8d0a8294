//! A page of 8,192 bytes as a list of entries: a leaf of the page tree, in memory and on the disk. Numbers stand with their
//! greater bytes first. Byte 0 is the kind, bytes 2 and 3 the number of entries, and bytes 4 to 7 the index. Entry `i`,
//! counted from 0, begins at the number in bytes 8,190 - 2 i and 8,191 - 2 i: the lengths of its key and of its value, two
//! bytes each, and then the key and the value. This is a slotted page (J. Gray and A. Reuter, Transaction processing,
//! 1993).
//!
//! The calls that change a page keep it packed, its entries one after another from byte 16 on, and ask that it is.
#![tactic(auto)]

ghost use Rattle.std.specs.Prelude.{◌≡◌, ℕ, ◌+◌, ◌-◌, ◌*◌, ◌<◌, ◌≤◌, List, [], ◌∷◌, ◌++◌, length, take, drop, get_or, set};
ghost use Rattle.std.specs.Prelude.{◌↔◌, IsTrue, MatchResult};
ghost use Rattle.std.specs.List.{between};
ghost use Rattle.slot_page.specs.Order.{IsRising, StandsAt, Missing};
ghost use Rattle.slot_page.specs.Bytes.{number, number_at, Shows, Wrote};
ghost use Rattle.slot_page.specs.Page.{Entry, no_entry, cell, heap, space, whole_page, page_body, page_head, entry_head, count_of, index_of, entries, entry_at, place_of, Lies, IsLeaf, IsPage};

use std::cmp::Ordering;

/// The bytes of a page.
pub const PAGE: usize = 8192;

/// The bytes of a page that are left for entries and their places.
pub const BODY: usize = 8176;

// The bytes before the first entry.
const HEAD: usize = 16;

// The first byte of a leaf page.
const LEAF: u8 = 1;

// The number at a place of a page.
fn number_at(page: &[u8], at: usize) -> usize
    requires { at + 2 ≤ length page.now }
    ensures { result ≡ number_at page.now at }
{
    256 * usize::from(page[at]) + usize::from(page[at + 1])
}

// Writes a number at a place of a page.
fn put_number(page: &mut [u8], at: usize, number_: usize)
    requires inside { at + 2 ≤ length page.old }
    requires small { number_ < 65536 }
    ensures { Wrote at (number number_) page.old page.new }
{
    page[at] = (number_ / 256) as u8;
    page[at + 1] = (number_ % 256) as u8;
}

// Writes bytes at a place of a page.
fn put_bytes(page: &mut [u8], at: usize, bytes: &[u8])
    requires { at + length bytes.now ≤ length page.old }
    ensures { Wrote at bytes.now page.old page.new }
{
    page[at..at + bytes.len()].copy_from_slice(bytes);
}

// Writes an entry at a place of a page.
fn put_cell(page: &mut [u8], at: usize, key: &[u8], value: &[u8])
    requires inside { at + 4 + length key.now + length value.now ≤ length page.old }
    requires key { length key.now < 65536 }
    requires value { length value.now < 65536 }
    ensures { Wrote at (cell (key.now, value.now)) page.old page.new }
{
    put_number(page, at, key.len());
    put_number(page, at + 2, value.len());
    put_bytes(page, at + 4, key);
    put_bytes(page, at + 4 + key.len(), value);
}

// Whether entry `i` lies between the head and the entry places.
fn lies(page: &[u8], i: usize) -> bool
    requires size { length page.now ≡ whole_page }
    requires inside { i < count_of page.now }
    ensures { IsTrue result ↔ Lies page.now i }
{
    let places = 2 * number_at(page, 2);
    if places > BODY {
        return false;
    }
    let end = PAGE - places;
    let at = number_at(page, PAGE - 2 - 2 * i);
    if at < HEAD || at + 4 > end {
        return false;
    }
    at + 4 + number_at(page, at) + number_at(page, at + 2) <= end
}

/// Whether it is a leaf page whose entries can be read: each lies between the head and the entry places. They may lie
/// in any order and over one another.
pub fn is_leaf(page: &[u8]) -> bool
    requires { length page.now ≡ whole_page }
    ensures { IsTrue result ↔ IsLeaf page.now }
{
    for i in 0..count(page) {
        if !lies(page, i) {
            return false;
        }
    }
    page[0] == LEAF
}

/// How many entries a page has.
pub fn count(page: &[u8]) -> usize
    requires { length page.now ≡ whole_page }
    ensures { result ≡ length (entries page.now) }
{
    number_at(page, 2)
}

/// The index that a page belongs to.
pub fn index(page: &[u8]) -> u32
    requires { length page.now ≡ whole_page }
    ensures { result ≡ index_of page.now }
{
    (65536 * number_at(page, 4) + number_at(page, 6)) as u32
}

/// Entry `i`, its key and its value, lent from the page. The page need not be packed.
pub fn entry(page: &[u8], i: usize) -> (&[u8], &[u8])
    requires size { length page.now ≡ whole_page }
    requires lies { Lies page.now i }
    ensures key { result.0.now ≡ (get_or (entries page.now) i no_entry).0 }
    ensures value { result.1.now ≡ (get_or (entries page.now) i no_entry).1 }
{
    let at = number_at(page, PAGE - 2 - 2 * i);
    let key_len = number_at(page, at);
    let value_len = number_at(page, at + 2);
    let key_end = at + 4 + key_len;
    (&page[at + 4..key_end], &page[key_end..key_end + value_len])
}

// Where the next entry would begin.
fn end(page: &[u8]) -> usize
    requires { IsPage page.now }
    ensures { result ≡ page_head + length (heap (entries page.now)) }
{
    let n = count(page);
    if n == 0 {
        return HEAD;
    }
    let at = number_at(page, PAGE - 2 * n);
    at + 4 + number_at(page, at) + number_at(page, at + 2)
}

/// The bytes that are left for further entries. One takes the bytes of its key and of its value, and 6.
pub fn room(page: &[u8]) -> usize
    requires { IsPage page.now }
    ensures { result + space (entries page.now) ≡ page_body }
{
    PAGE - 2 * count(page) - end(page)
}

/// Makes a leaf page of an index without entries.
pub fn empty(page: &mut [u8], index: u32)
    requires { length page.old ≡ whole_page }
    ensures page { IsPage page.new }
    ensures entries { entries page.new ≡ [] }
    ensures index { index_of page.new ≡ index }
{
    page[0] = LEAF;
    put_number(page, 2, 0);
    put_number(page, 4, (index / 65536) as usize);
    put_number(page, 6, (index % 65536) as usize);
}

/// Keeps the first `n` entries.
pub fn truncate(page: &mut [u8], n: usize)
    requires page { IsPage page.old }
    requires inside { n ≤ length (entries page.old) }
    ensures page { IsPage page.new }
    ensures entries { entries page.new ≡ take n (entries page.old) }
    ensures index { index_of page.new ≡ index_of page.old }
{
    put_number(page, 2, n);
}

/// Adds an entry after the others.
pub fn append(page: &mut [u8], key: &[u8], value: &[u8])
    requires page { IsPage page.old }
    requires room { space (entries page.old) + entry_head + length key.now + length value.now ≤ page_body }
    ensures page { IsPage page.new }
    ensures entries { entries page.new ≡ entries page.old ++ (key.now, value.now) ∷ [] }
    ensures index { index_of page.new ≡ index_of page.old }
{
    let n = count(page);
    let at = end(page);
    put_cell(page, at, key, value);
    put_number(page, PAGE - 2 - 2 * n, at);
    put_number(page, 2, n + 1);
}

/// Sets the value of entry `i` to one of as many bytes, in its place.
pub fn set_value(page: &mut [u8], i: usize, value: &[u8])
    requires page { IsPage page.old }
    requires inside { i < length (entries page.old) }
    requires size { length value.now ≡ length (get_or (entries page.old) i no_entry).1 }
    ensures page { IsPage page.new }
    ensures entries { entries page.new ≡ set (entries page.old) i ((get_or (entries page.old) i no_entry).0, value.now) }
    ensures index { index_of page.new ≡ index_of page.old }
{
    let at = number_at(page, PAGE - 2 - 2 * i);
    let key_len = number_at(page, at);
    put_bytes(page, at + 4 + key_len, value);
}

// Where entry `i` begins, or where the next one would.
fn place_in(page: &[u8], i: usize) -> usize
    requires page { IsPage page.now }
    requires inside { i ≤ length (entries page.now) }
    ensures { result ≡ page_head + length (heap (take i (entries page.now))) }
{
    if i == count(page) {
        return end(page);
    }
    number_at(page, PAGE - 2 - 2 * i)
}

// Writes the bytes of the other page's entries from `from` to before `to` at a place of a page.
fn put_heap(page: &mut [u8], at: usize, other: &[u8], from: usize, to: usize)
    requires other { IsPage other.now }
    requires order { from ≤ to }
    requires inside { to ≤ length (entries other.now) }
    requires room { at + length (heap (between from to (entries other.now))) ≤ length page.old }
    ensures { Wrote at (heap (between from to (entries other.now))) page.old page.new }
{
    let first = place_in(other, from);
    let last = place_in(other, to);
    put_bytes(page, at, &other[first..last]);
}

// Adds an entry after the `n` others whose bytes stand at its place already.
fn add_place(page: &mut [u8], n: usize, at: usize)
    requires page { IsPage page.old }
    requires number { n ≡ length (entries page.old) }
    requires place { at ≡ page_head + length (heap (entries page.old)) }
    requires room { space (entries page.old) + entry_head ≤ page_body }
    ensures added { (e : Entry) → Shows page.old at (cell e) → space (entries page.old) + entry_head + length e.0 + length e.1 ≤ page_body
        → IsPage page.new × (entries page.new ≡ entries page.old ++ e ∷ []) × (index_of page.new ≡ index_of page.old) }
    ensures kept { (j : ℕ) → page_head ≤ j → j < 8190 - 2 * n → get_or page.new j 0 ≡ get_or page.old j 0 }
{
    put_number(page, PAGE - 2 - 2 * n, at);
    put_number(page, 2, n + 1);
}

/// Adds the other page's entries from `from` to before `to` after the others. Their bytes are copied at once.
pub fn append_from(page: &mut [u8], other: &[u8], from: usize, to: usize)
    requires page { IsPage page.old }
    requires other { IsPage other.now }
    requires order { from ≤ to }
    requires inside { to ≤ length (entries other.now) }
    requires room { space (entries page.old) + space (between from to (entries other.now)) ≤ page_body }
    ensures page { IsPage page.new }
    ensures entries { entries page.new ≡ entries page.old ++ between from to (entries other.now) }
    ensures index { index_of page.new ≡ index_of page.old }
{
    let n = count(page);
    let at = end(page);
    let first = place_in(other, from);
    put_heap(page, at, other, from, to);
    for i in from..to {
        let place = number_at(other, PAGE - 2 - 2 * i);
        add_place(page, n + (i - from), at + (place - first));
    }
}

/// The place of a key, or in `Err` the place where it would stand, among entries whose keys rise. Keys are compared byte
/// by byte, a front first. The search is binary.
pub fn find(page: &[u8], key: &[u8]) -> Result<usize, usize>
    requires page { IsPage page.now }
    requires rising { IsRising (entries page.now) }
    ensures { MatchResult result (StandsAt key.now (entries page.now)) (Missing key.now (entries page.now)) }
{
    let mut low = 0;
    let mut high = count(page);
    while low < high {
        let middle = low + (high - low) / 2;
        let (other, _) = entry(page, middle);
        match other.cmp(key) {
            Ordering::Less => low = middle + 1,
            Ordering::Equal => return Ok(middle),
            Ordering::Greater => high = middle,
        }
    }
    Err(low)
}
