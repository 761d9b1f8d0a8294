//! A new image over the old one.
ghost use Rattle.std.specs.Prelude.{◌≡◌, ◌+◌, ◌*◌, ◌-◌, ◌≤◌, ◌<◌, ◌^◌, ℕ, List, length, OnOk, IfOk, get_or};
ghost use Rattle.disk_io.specs.Disk.{Only, LeavesOnly, CountsFault};
ghost use Rattle.page_store.specs.Image.{header_at, live};
ghost use Rattle.page_store.specs.Publish.{next_number, OtherArea, LiveFits, Tracks, IsNew, OldOrNew, KeepsUnchanged, old_byte};
ghost use Rattle.page_store.specs.Kept.{kept_side, Closing, Closed};

use crate::close::close_gate;
use crate::facts::HeaderFacts;
use crate::find::{OPEN, find_live, load_header};
use crate::staging::stage;
use crate::store::HEADER;
use disk_io::{Disk, write_through};
use iv_types::Failed;

/// Loads the live header and closes the other one's gate. It answers the header that stays as it is.
fn begin<D: Disk>(disk: &mut D, header: &mut [u8]) -> Result<u64, Failed>
    requires disk { 278528 ≤ D.size_of disk.old }
    requires header { length header.old ≡ 139264 }
    ensures kept { D.is_told → IfOk result (λ k. k ≡ kept_side (live (D.seen disk.old))) }
    ensures low { IfOk result (λ k. k ≤ 1) }
    ensures map { D.is_told → OnOk result ((p : ℕ) → p < 131072 → get_or header.new (64 + p) 0 ≡ old_byte (live (D.seen disk.old)) p (D.seen disk.old)) }
    ensures closed { D.is_told → IfOk result (λ k. Closed k (D.seen disk.old) (D.seen disk.new)) }
    ensures durable { D.is_told → OnOk result (Only (D.seen disk.new) (D.may_leave disk.new)) }
    ensures header { length header.new ≡ 139264 }
    ensures size { D.size_of disk.new ≡ D.size_of disk.old }
    ensures any_moment { D.is_told → Only (D.seen disk.old) (D.may_leave disk.old)
        → LeavesOnly D.moment D.left_since disk.old disk.new (Closing (kept_side (live (D.seen disk.old))) (D.seen disk.old)) }
    ensures cause { CountsFault result (D.faults disk.old) (D.faults disk.new) }
{
    let found = find_live(disk)?;
    load_header(disk, &found, header)?;
    close_gate(disk, (1 - found.kept) * HEADER as u64, found.gate)?;
    Ok(found.kept)
}

/// Publishes a store's pages. A crash at any moment leaves the old image or the new one.
pub(crate) fn publish_pages<D: Disk>(
    disk: &mut D,
    room: u64,
    header: &mut [u8],
    bytes: &[u8],
    stored: &[bool],
    changed: &[bool],
    slot: &mut [u8],
    facts: &HeaderFacts,
    first_block: &[u8],
) -> Result<(), Failed>
    requires header { length header.old ≡ 139264 }
    requires bytes { length bytes.now ≡ 8192 * length stored.now }
    requires marks { length changed.now ≡ length stored.now }
    requires few { length stored.now ≤ 131072 }
    requires slot { length slot.old ≡ 8192 }
    requires room { room < 2 ^ 32 }
    requires disk { D.size_of disk.old ≡ 278528 + 2 * room + 16384 * length stored.now }
    requires area { facts.now.area ≤ 1 }
    requires some { 1 ≤ length first_block.now }
    requires block { length first_block.now ≤ room }
    requires number { D.is_told → facts.now.number ≡ next_number (live (D.seen disk.old)) (D.seen disk.old) }
    requires other_area { D.is_told → OtherArea facts.now.area (D.seen disk.old) }
    requires live_fits { D.is_told → LiveFits (D.size_of disk.old) (length stored.now) (D.seen disk.old) }
    requires tracked { D.is_told → Tracks room stored.now changed.now bytes.now (D.seen disk.old) }
    ensures published { D.is_told → OnOk result (IsNew room facts.now first_block.now stored.now bytes.now (D.seen disk.new)) }
    ensures unchanged { D.is_told → OnOk result (KeepsUnchanged room stored.now bytes.now (D.seen disk.old) (D.seen disk.new)) }
    ensures durable { D.is_told → OnOk result (Only (D.seen disk.new) (D.may_leave disk.new)) }
    ensures header { length header.new ≡ 139264 }
    ensures slot { length slot.new ≡ 8192 }
    ensures size { D.size_of disk.new ≡ D.size_of disk.old }
    ensures any_moment { D.is_told → Only (D.seen disk.old) (D.may_leave disk.old)
        → LeavesOnly D.moment D.left_since disk.old disk.new (OldOrNew room facts.now first_block.now stored.now bytes.now (D.seen disk.old)) }
    ensures cause { CountsFault result (D.faults disk.old) (D.faults disk.new) }
{
    let kept = begin(disk, header)?;
    stage(
        disk,
        room,
        kept,
        header,
        bytes,
        stored,
        changed,
        slot,
        facts,
        first_block,
    )?;
    write_through(disk, (1 - kept) * HEADER as u64, &[OPEN])
}
