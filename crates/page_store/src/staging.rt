//! All of the new image but its gate.
ghost use Rattle.std.specs.Prelude.{◌≡◌, ◌+◌, ◌*◌, ◌-◌, ◌≤◌, ◌<◌, ◌^◌, ℕ, List, length, OnOk};
ghost use Rattle.disk_io.specs.Disk.{Only, CountsFault};
ghost use Rattle.page_store.specs.Image.{area_at};
ghost use Rattle.page_store.specs.Publish.{OtherArea};
ghost use Rattle.page_store.specs.Kept.{IsOld, Guards, KeepsOld, Beside, LowMap, TracksMap, KeepsSlots, Staged};

use crate::apart::write_apart;
use crate::facts::HeaderFacts;
use crate::header::set_fields;
use crate::pages::write_pages;
use crate::store::HEADER;
use disk_io::Disk;
use iv_types::Failed;

/// Where a log area begins.
fn area_place(room: u64, area: u8) -> u64
    requires room { room < 2 ^ 32 }
    requires area { area ≤ 1 }
    ensures { result ≡ area_at room area }
{
    if area == 0 { 278_528 } else { 278_528 + room }
}

/// Writes the pages, the first block and the header behind its gate, and syncs.
pub(crate) fn stage<D: Disk>(
    disk: &mut D,
    room: u64,
    kept: u64,
    header: &mut [u8],
    bytes: &[u8],
    stored: &[bool],
    changed: &[bool],
    slot: &mut [u8],
    facts: &HeaderFacts,
    first_block: &[u8],
) -> Result<(), Failed>
    requires header { length header.old ≡ 139264 }
    requires bytes { length bytes.now ≡ 8192 * length stored.now }
    requires marks { length changed.now ≡ length stored.now }
    requires few { length stored.now ≤ 131072 }
    requires slot { length slot.old ≡ 8192 }
    requires room { room < 2 ^ 32 }
    requires disk { D.size_of disk.old ≡ 278528 + 2 * room + 16384 * length stored.now }
    requires kept { kept ≤ 1 }
    requires area { facts.now.area ≤ 1 }
    requires some { 1 ≤ length first_block.now }
    requires block { length first_block.now ≤ room }
    ensures staged { D.is_told → LowMap (length stored.now) header.old → TracksMap room stored.now changed.now bytes.now header.old (D.seen disk.old) → OnOk result (Staged room kept facts.now first_block.now stored.now bytes.now (D.seen disk.new)) }
    ensures unchanged { D.is_told → LowMap (length stored.now) header.old → OnOk result (KeepsSlots room (1 - kept) stored.now bytes.now header.old (D.seen disk.old) (D.seen disk.new)) }
    ensures durable { D.is_told → OnOk result (Only (D.seen disk.new) (D.may_leave disk.new)) }
    ensures header { length header.new ≡ 139264 }
    ensures slot { length slot.new ≡ 8192 }
    ensures size { D.size_of disk.new ≡ D.size_of disk.old }
    ensures old { D.is_told → (s : List ℕ) → Beside room (length stored.now) kept header.old s → OtherArea facts.now.area s → IsOld room (length stored.now) kept s (D.seen disk.old) → OnOk result (IsOld room (length stored.now) kept s (D.seen disk.new)) }
    ensures crash { (s : List ℕ) → Beside room (length stored.now) kept header.old s → OtherArea facts.now.area s → Guards D.may_leave room (length stored.now) kept s disk.old → KeepsOld D.moment D.left_since D.may_leave room (length stored.now) kept s disk.old disk.new }
    ensures cause { CountsFault result (D.faults disk.old) (D.faults disk.new) }
{
    write_pages(disk, room, header, bytes, stored, changed, slot)?;
    write_apart(disk, area_place(room, facts.area), first_block)?;
    set_fields(
        header,
        facts,
        stored.len() as u32,
        room,
        first_block.len() as u64 - 1,
    );
    write_apart(disk, (1 - kept) * HEADER as u64 + 1, &header[1..])?;
    disk.sync()
}
