//! Which header is live.
ghost use Rattle.std.specs.Prelude.{◌≡◌, ◌+◌, ◌-◌, ◌≤◌, ◌<◌, ℕ, List, length, OnOk, IfOk, get_or, ◌==◌, ◌&&◌};
ghost use Rattle.std.specs.Str.{bytes_eq};
ghost use Rattle.disk_io.specs.Disk.{part, Only, Elapses, LeavesOnly, CountsFault};
ghost use Rattle.page_store.specs.Image.{header_at, gate_open, is_open, number_of, live, choose, magic};
ghost use Rattle.page_store.specs.Publish.{old_byte};
ghost use Rattle.page_store.specs.Kept.{kept_side};

use crate::store::HEADER;
use byteorder::{BigEndian, ByteOrder};
use disk_io::Disk;
use iv_types::Failed;

/// An open gate.
pub(crate) const OPEN: u8 = 0xA5;

/// What stands behind each header's gate.
const MAGIC: &[u8] = b"IVIEWDB";

/// How a header begins.
#[derive(Clone, Copy, Debug, Drop)]
pub(crate) struct Start {
    /// Whether its gate is open.
    pub gate: bool,
    /// Whether its gate is open, with its name behind it.
    pub open: bool,
    /// The header's number.
    pub number: u64,
}

/// Which header a publish leaves as it is.
#[derive(Clone, Copy, Debug, Drop)]
pub(crate) struct Found {
    /// The live header.
    pub live: Option<u64>,
    /// The live header, or header 0 where none is live.
    pub kept: u64,
    /// Whether the gate of the other header is open.
    pub gate: bool,
}

/// Whether these first bytes of a header are an open gate and its name.
fn begins_open(start: &[u8]) -> bool
    requires { 8 ≤ length start.now }
    ensures { result ≡ (get_or start.now 0 0 == 165) && bytes_eq (part 1 7 start.now) magic }
{
    start[0] == OPEN && &start[1..8] == MAGIC
}

/// Reads how header 0 or 1 begins.
fn read_start<D: Disk>(disk: &mut D, side: u64) -> Result<Start, Failed>
    requires side { side ≤ 1 }
    requires disk { 278528 ≤ D.size_of disk.old }
    ensures gate { D.is_told → IfOk result (λ r. r.gate ≡ gate_open side (D.seen disk.old)) }
    ensures open { D.is_told → IfOk result (λ r. r.open ≡ is_open side (D.seen disk.old)) }
    ensures number { D.is_told → IfOk result (λ r. r.number ≡ number_of side (D.seen disk.old)) }
    ensures size { D.size_of disk.new ≡ D.size_of disk.old }
    ensures seen { D.is_told → D.seen disk.new ≡ D.seen disk.old }
    ensures crash { (c : List ℕ) → D.may_leave disk.new c → D.may_leave disk.old c }
    ensures time { Elapses (D.moment disk.old) (D.moment disk.new) (D.left_since disk.old) (D.left_since disk.new) (D.may_leave disk.new) }
    ensures cause { CountsFault result (D.faults disk.old) (D.faults disk.new) }
{
    let mut start = [0; 32];
    disk.read(side * HEADER as u64, &mut start)?;
    let gate = start[0] == OPEN;
    let open = begins_open(&start);
    let number = BigEndian::read_u64(&start[24..]);
    Ok(Start { gate, open, number })
}

/// The open header with the greater number, and header 0 on a tie.
fn choose_header(first: &Start, second: &Start) -> Option<u64>
    ensures { result ≡ choose first.now.open second.now.open first.now.number second.now.number }
{
    if first.open && (!second.open || second.number <= first.number) {
        Some(0)
    } else if second.open {
        Some(1)
    } else {
        None
    }
}

/// Which header stays as it is, and whether the gate of the other one is open.
fn keep(first: &Start, second: &Start) -> Found
    ensures live { result.live ≡ choose first.now.open second.now.open first.now.number second.now.number }
    ensures kept { result.kept ≡ kept_side result.live }
    ensures low { result.kept ≤ 1 }
    ensures first { result.kept ≡ 1 → result.gate ≡ first.now.gate }
    ensures second { result.kept ≡ 0 → result.gate ≡ second.now.gate }
{
    match choose_header(first, second) {
        Some(1) => Found {
            live: Some(1),
            kept: 1,
            gate: first.gate,
        },
        Some(_) => Found {
            live: Some(0),
            kept: 0,
            gate: second.gate,
        },
        None => Found {
            live: None,
            kept: 0,
            gate: second.gate,
        },
    }
}

/// Finds the live header.
pub(crate) fn find_live<D: Disk>(disk: &mut D) -> Result<Found, Failed>
    requires { 278528 ≤ D.size_of disk.old }
    ensures live { D.is_told → IfOk result (λ r. r.live ≡ live (D.seen disk.old)) }
    ensures kept { IfOk result (λ r. r.kept ≡ kept_side r.live) }
    ensures low { IfOk result (λ r. r.kept ≤ 1) }
    ensures gate { D.is_told → IfOk result (λ r. r.gate ≡ gate_open (1 - r.kept) (D.seen disk.old)) }
    ensures size { D.size_of disk.new ≡ D.size_of disk.old }
    ensures seen { D.is_told → D.seen disk.new ≡ D.seen disk.old }
    ensures crash { (c : List ℕ) → D.may_leave disk.new c → D.may_leave disk.old c }
    ensures any_moment { (s : List ℕ) → Only s (D.may_leave disk.old) → LeavesOnly D.moment D.left_since disk.old disk.new (λ c. c ≡ s) }
    ensures cause { CountsFault result (D.faults disk.old) (D.faults disk.new) }
{
    let first = read_start(disk, 0)?;
    let second = read_start(disk, 1)?;
    Ok(keep(&first, &second))
}

/// Makes a buffer of zeros.
fn clear(buffer: &mut [u8])
    ensures length { length buffer.new ≡ length buffer.old }
    ensures zeros { (i : ℕ) → get_or buffer.new i 0 ≡ 0 }
{
    buffer.fill(0);
}

/// Fills a buffer with the live header, or with zeros where none is live.
pub(crate) fn load_header<D: Disk>(
    disk: &mut D,
    found: &Found,
    header: &mut [u8],
) -> Result<(), Failed>
    requires disk { 278528 ≤ D.size_of disk.old }
    requires header { length header.old ≡ 139264 }
    requires kept { found.now.kept ≡ kept_side found.now.live }
    requires low { found.now.kept ≤ 1 }
    ensures map { D.is_told → OnOk result ((p : ℕ) → p < 131072 → get_or header.new (64 + p) 0 ≡ old_byte found.now.live p (D.seen disk.old)) }
    ensures header { length header.new ≡ 139264 }
    ensures size { D.size_of disk.new ≡ D.size_of disk.old }
    ensures seen { D.is_told → D.seen disk.new ≡ D.seen disk.old }
    ensures crash { (c : List ℕ) → D.may_leave disk.new c → D.may_leave disk.old c }
    ensures any_moment { (s : List ℕ) → Only s (D.may_leave disk.old) → LeavesOnly D.moment D.left_since disk.old disk.new (λ c. c ≡ s) }
    ensures cause { CountsFault result (D.faults disk.old) (D.faults disk.new) }
{
    if found.live.is_none() {
        clear(header);
        return Ok(());
    }
    disk.read(found.kept * HEADER as u64, header)
}
