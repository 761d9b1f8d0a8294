//! The pages of a new image, in the slots that the live header does not name.
ghost use Rattle.std.specs.Prelude.{true, false, ◌≡◌, ◌⊎◌, ◌+◌, ◌*◌, ◌≤◌, ◌<◌, ◌^◌, ℕ, List, length, OnOk, IfOk, get_or, suc, Some, None, if◌then◌else◌};
ghost use Rattle.std.specs.Bool.{Decides};
ghost use Rattle.disk_io.specs.Disk.{part, splice, Elapses, CountsFault};
ghost use Rattle.page_store.specs.Image.{named as page_by, slot_at};
ghost use Rattle.page_store.specs.Kept.{IsOld, Guards, KeepsOld, Beside, IsByte, LowMap, TracksMap, HasPages, KeepsMap, Outside, new_slot};

use crate::apart::write_apart;
use crate::store::PAGE;
use disk_io::Disk;
use iv_types::Failed;

/// Where the page map begins in a header.
const MAP: usize = 64;

/// The slot that a byte of the page map does not name.
fn free_slot(named: u8) -> u8
    ensures { result ≡ new_slot named }
{
    if named == 1 { 1 } else { 0 }
}

/// The slot that a byte of the page map names, where it names one.
fn named_slot(named: u8) -> u8
    ensures slot { (j : ℕ) → named ≤ 2 → named ≡ suc j → result ≡ j }
    ensures low { result ≤ 1 }
{
    if named == 1 { 0 } else { 1 }
}

/// Whether these are the same bytes.
fn same_bytes(left: &[u8], right: &[u8]) -> bool
    ensures { Decides result (left.now ≡ right.now) }
{
    left == right
}

/// Whether the slot that the map's byte names has this page.
fn has_page<D: Disk>(
    disk: &mut D,
    room: u64,
    place: u64,
    named: u8,
    page: &[u8],
    slot: &mut [u8],
) -> Result<bool, Failed>
    requires on_disk { 278528 + 2 * room + 16384 * place + 16384 ≤ D.size_of disk.old }
    requires room { room < 2 ^ 32 }
    requires place { place < 2 ^ 32 }
    requires slot { length slot.old ≡ 8192 }
    ensures answer { D.is_told → named ≤ 2 → IfOk result (λ same. Decides same (page_by room place named (D.seen disk.old) ≡ Some page.now)) }
    ensures slot { length slot.new ≡ 8192 }
    ensures size { D.size_of disk.new ≡ D.size_of disk.old }
    ensures seen { D.is_told → D.seen disk.new ≡ D.seen disk.old }
    ensures crash { (c : List ℕ) → D.may_leave disk.new c → D.may_leave disk.old c }
    ensures time { Elapses (D.moment disk.old) (D.moment disk.new) (D.left_since disk.old) (D.left_since disk.new) (D.may_leave disk.new) }
    ensures cause { CountsFault result (D.faults disk.old) (D.faults disk.new) }
{
    if named == 0 {
        return Ok(false);
    }
    let from = 278_528 + 2 * room + (2 * place + named_slot(named) as u64) * PAGE as u64;
    disk.read(from, slot)?;
    Ok(same_bytes(slot, page))
}

/// Writes a page to the slot that the map's byte does not name, and answers the byte that names it.
fn write_slot<D: Disk>(
    disk: &mut D,
    room: u64,
    place: u64,
    named: u8,
    page: &[u8],
) -> Result<u8, Failed>
    requires on_disk { 278528 + 2 * room + 16384 * place + 16384 ≤ D.size_of disk.old }
    requires room { room < 2 ^ 32 }
    requires place { place < 2 ^ 32 }
    requires page { length page.now ≡ 8192 }
    ensures byte { IfOk result (λ byte. byte ≡ suc (new_slot named)) }
    ensures page { D.is_told → OnOk result (part (slot_at room place (new_slot named)) 8192 (D.seen disk.new) ≡ page.now) }
    ensures elsewhere { D.is_told → OnOk result (Outside (slot_at room place (new_slot named)) 8192 (D.seen disk.old) (D.seen disk.new)) }
    ensures size { D.size_of disk.new ≡ D.size_of disk.old }
    ensures old { D.is_told → (pages k : ℕ) → (s : List ℕ) → IsByte room pages k s place named → IsOld room pages k s (D.seen disk.old) → OnOk result (IsOld room pages k s (D.seen disk.new)) }
    ensures crash { (pages k : ℕ) → (s : List ℕ) → IsByte room pages k s place named → Guards D.may_leave room pages k s disk.old → KeepsOld D.moment D.left_since D.may_leave room pages k s disk.old disk.new }
    ensures cause { CountsFault result (D.faults disk.old) (D.faults disk.new) }
{
    let slot = free_slot(named);
    write_apart(
        disk,
        278_528 + 2 * room + (2 * place + slot as u64) * PAGE as u64,
        page,
    )?;
    Ok(slot + 1)
}

/// Writes a page where it differs from the slot that the map's byte names, and answers the byte that names it now.
fn write_page<D: Disk>(
    disk: &mut D,
    room: u64,
    place: u64,
    named: u8,
    page: &[u8],
    slot: &mut [u8],
) -> Result<u8, Failed>
    requires on_disk { 278528 + 2 * room + 16384 * place + 16384 ≤ D.size_of disk.old }
    requires room { room < 2 ^ 32 }
    requires place { place < 2 ^ 32 }
    requires page { length page.now ≡ 8192 }
    requires slot { length slot.old ≡ 8192 }
    ensures page { D.is_told → named ≤ 2 → IfOk result (λ byte. (byte ≤ 2) × (page_by room place byte (D.seen disk.new) ≡ Some page.now)) }
    ensures unchanged { D.is_told → named ≤ 2 → page_by room place named (D.seen disk.old) ≡ Some page.now → IfOk result (λ byte. byte ≡ named) }
    ensures elsewhere { D.is_told → OnOk result (Outside (slot_at room place 0) 16384 (D.seen disk.old) (D.seen disk.new)) }
    ensures slot { length slot.new ≡ 8192 }
    ensures size { D.size_of disk.new ≡ D.size_of disk.old }
    ensures old { D.is_told → (pages k : ℕ) → (s : List ℕ) → IsByte room pages k s place named → IsOld room pages k s (D.seen disk.old) → OnOk result (IsOld room pages k s (D.seen disk.new)) }
    ensures crash { (pages k : ℕ) → (s : List ℕ) → IsByte room pages k s place named → Guards D.may_leave room pages k s disk.old → KeepsOld D.moment D.left_since D.may_leave room pages k s disk.old disk.new }
    ensures cause { CountsFault result (D.faults disk.old) (D.faults disk.new) }
{
    if has_page(disk, room, place, named, page, slot)? {
        return Ok(named);
    }
    write_slot(disk, room, place, named, page)
}

/// The same for a page that may not be stored, which has byte 0, or not be marked as changed, which keeps its byte.
fn write_stored<D: Disk>(
    disk: &mut D,
    room: u64,
    place: u64,
    stored: bool,
    changed: bool,
    named: u8,
    page: &[u8],
    slot: &mut [u8],
) -> Result<u8, Failed>
    requires on_disk { 278528 + 2 * room + 16384 * place + 16384 ≤ D.size_of disk.old }
    requires room { room < 2 ^ 32 }
    requires place { place < 2 ^ 32 }
    requires page { length page.now ≡ 8192 }
    requires slot { length slot.old ≡ 8192 }
    ensures page { D.is_told → named ≤ 2 → (stored ≡ true → changed ≡ false → page_by room place named (D.seen disk.old) ≡ Some page.now) → IfOk result (λ byte. (byte ≤ 2) × (page_by room place byte (D.seen disk.new) ≡ (if stored then Some page.now else None))) }
    ensures unchanged { D.is_told → named ≤ 2 → page_by room place named (D.seen disk.old) ≡ (if stored then Some page.now else None) → IfOk result (λ byte. byte ≡ named) }
    ensures elsewhere { D.is_told → OnOk result (Outside (slot_at room place 0) 16384 (D.seen disk.old) (D.seen disk.new)) }
    ensures slot { length slot.new ≡ 8192 }
    ensures size { D.size_of disk.new ≡ D.size_of disk.old }
    ensures old { D.is_told → (pages k : ℕ) → (s : List ℕ) → IsByte room pages k s place named → IsOld room pages k s (D.seen disk.old) → OnOk result (IsOld room pages k s (D.seen disk.new)) }
    ensures crash { (pages k : ℕ) → (s : List ℕ) → IsByte room pages k s place named → Guards D.may_leave room pages k s disk.old → KeepsOld D.moment D.left_since D.may_leave room pages k s disk.old disk.new }
    ensures cause { CountsFault result (D.faults disk.old) (D.faults disk.new) }
{
    if !stored {
        return Ok(0);
    }
    if !changed {
        return Ok(named);
    }
    write_page(disk, room, place, named, page, slot)
}

/// Writes each stored page that is marked as changed and differs from its slot, and makes the header's map that of the new image.
pub(crate) fn write_pages<D: Disk>(
    disk: &mut D,
    room: u64,
    header: &mut [u8],
    bytes: &[u8],
    stored: &[bool],
    changed: &[bool],
    slot: &mut [u8],
) -> Result<(), Failed>
    requires header { length header.old ≡ 139264 }
    requires bytes { length bytes.now ≡ 8192 * length stored.now }
    requires marks { length changed.now ≡ length stored.now }
    requires few { length stored.now ≤ 131072 }
    requires slot { length slot.old ≡ 8192 }
    requires room { room < 2 ^ 32 }
    requires disk { D.size_of disk.old ≡ 278528 + 2 * room + 16384 * length stored.now }
    ensures pages { D.is_told → LowMap (length stored.now) header.old → TracksMap room stored.now changed.now bytes.now header.old (D.seen disk.old) → OnOk result (HasPages room stored.now bytes.now header.new (D.seen disk.new)) }
    ensures unchanged { D.is_told → LowMap (length stored.now) header.old → OnOk result (KeepsMap room stored.now bytes.now header.old header.new (D.seen disk.old)) }
    ensures header { length header.new ≡ 139264 }
    ensures slot { length slot.new ≡ 8192 }
    ensures size { D.size_of disk.new ≡ D.size_of disk.old }
    ensures old { D.is_told → (k : ℕ) → (s : List ℕ) → Beside room (length stored.now) k header.old s → IsOld room (length stored.now) k s (D.seen disk.old) → OnOk result (IsOld room (length stored.now) k s (D.seen disk.new)) }
    ensures crash { (k : ℕ) → (s : List ℕ) → Beside room (length stored.now) k header.old s → Guards D.may_leave room (length stored.now) k s disk.old → KeepsOld D.moment D.left_since D.may_leave room (length stored.now) k s disk.old disk.new }
    ensures cause { CountsFault result (D.faults disk.old) (D.faults disk.new) }
{
    for p in 0..stored.len() {
        let named = header[MAP + p];
        let page = &bytes[PAGE * p..PAGE * p + PAGE];
        header[MAP + p] = write_stored(
            disk, room, p as u64, stored[p], changed[p], named, page, slot,
        )?;
    }
    Ok(())
}
