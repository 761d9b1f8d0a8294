//! One block on the disk: its body first, and then its gate, each by a write that is synced.
ghost use Rattle.std.specs.Prelude.{◌≡◌, ◌+◌, ◌-◌, ◌≤◌, ◌<◌, ◌^◌, ◌∷◌, ◌++◌, [], length, take, drop, OnOk};
ghost use Rattle.byteorder.specs.Endian.{big_bytes};
ghost use Rattle.disk_io.specs.Disk.{splice, Only, LeavesOnly, CountsFault};
ghost use Rattle.log_records.specs.Area.{block};
ghost use Rattle.wal_log.specs.Log.{InPart, body};

use byteorder::{BigEndian, ByteOrder};
use disk_io::{Disk, write_through};
use iv_types::Failed;
use log_records::OPEN;

/// The gate of a block that is not written yet.
const CLOSED: u8 = 0;

/// Writes the length of the records behind it, and a closed gate behind them.
pub fn close(buffer: &mut [u8], fill: usize)
    requires start { 4 ≤ fill }
    requires room { fill < length buffer.old }
    requires short { fill - 4 < 2 ^ 32 }
    ensures { take (fill + 1) buffer.new ≡ big_bytes 4 (fill - 4) ++ (drop 4 (take fill buffer.old) ++ 0 ∷ []) }
{
    let length = (fill - 4) as u32;
    let mut bytes = [0; 4];
    BigEndian::write_u32(&mut bytes, length);
    buffer[..4].copy_from_slice(&bytes);
    buffer[fill] = CLOSED;
}

/// Makes the records from byte 5 on a block with its gate open, and a closed gate behind it.
#[tactic(auto, unfolding(log_records::specs::Area::block))]
pub fn enclose(buffer: &mut [u8], fill: usize)
    requires start { 5 ≤ fill }
    requires room { fill < length buffer.old }
    requires short { fill - 5 < 2 ^ 32 }
    ensures { take (fill + 1) buffer.new ≡ block (drop 5 (take fill buffer.old)) ++ 0 ∷ [] }
{
    let length = (fill - 5) as u32;
    let mut bytes = [OPEN; 5];
    BigEndian::write_u32(&mut bytes[1..], length);
    buffer[..5].copy_from_slice(&bytes);
    buffer[fill] = CLOSED;
}

/// Writes a body behind a closed gate, and then opens the gate.
pub fn write_block<D: Disk>(disk: &mut D, gate: u64, body: &[u8]) -> Result<(), Failed>
    requires on_disk { gate + 1 + length body.now ≤ D.size_of disk.old }
    requires place { gate < 2 ^ 63 }
    ensures written { D.is_told → OnOk result (D.seen disk.new ≡ splice gate (165 ∷ []) (splice (gate + 1) body.now (D.seen disk.old))) }
    ensures durable { D.is_told → OnOk result (Only (D.seen disk.new) (D.may_leave disk.new)) }
    ensures size { D.size_of disk.new ≡ D.size_of disk.old }
    ensures any_moment { D.is_told → Only (D.seen disk.old) (D.may_leave disk.old) → LeavesOnly D.moment D.left_since disk.old disk.new (InPart gate body.now (D.seen disk.old)) }
    ensures cause { CountsFault result (D.faults disk.old) (D.faults disk.new) }
{
    write_through(disk, gate + 1, body)?;
    write_through(disk, gate, &[OPEN])?;
    Ok(())
}

/// Makes the records from byte 4 on a block on the disk, and leaves them in the buffer.
pub fn flush_block<D: Disk>(
    disk: &mut D,
    gate: u64,
    buffer: &mut [u8],
    fill: usize,
) -> Result<(), Failed>
    requires start { 4 ≤ fill }
    requires room { fill < length buffer.old }
    requires short { fill - 4 < 2 ^ 32 }
    requires on_disk { gate + fill + 2 ≤ D.size_of disk.old }
    requires place { gate < 2 ^ 63 }
    ensures kept { drop 4 (take fill buffer.new) ≡ drop 4 (take fill buffer.old) }
    ensures written { D.is_told → OnOk result (D.seen disk.new ≡ splice gate (165 ∷ []) (splice (gate + 1) (body (drop 4 (take fill buffer.old))) (D.seen disk.old))) }
    ensures durable { D.is_told → OnOk result (Only (D.seen disk.new) (D.may_leave disk.new)) }
    ensures size { D.size_of disk.new ≡ D.size_of disk.old }
    ensures any_moment { D.is_told → Only (D.seen disk.old) (D.may_leave disk.old) → LeavesOnly D.moment D.left_since disk.old disk.new (InPart gate (body (drop 4 (take fill buffer.old))) (D.seen disk.old)) }
    ensures cause { CountsFault result (D.faults disk.old) (D.faults disk.new) }
{
    close(buffer, fill);
    write_block(disk, gate, &buffer[..fill + 1])
}
