//! Which header of a device is live.
ghost use Rattle.std.specs.Prelude.{◌≡◌, ◌+◌, ◌*◌, ◌≤◌, ℕ, List, length, IfOk};
ghost use Rattle.disk_io.specs.Disk.{CountsFault};
ghost use Rattle.page_store.specs.Image.{is_open};
ghost use Rattle.image_finding.specs.Reads.{IsOnlyRead};
ghost use Rattle.image_finding.specs.Headers.{as_header, fields_at, IsReadAs, IsLiveIf};

use crate::LiveHeader;
use crate::layout::{
    AREA_AT, AREA_BYTES_AT, COMMITS_AT, FORMAT_AT, HEADER, MAGIC, MAP_AT, NEXT_AT, NUMBER_AT,
    PAGES_AT, REDO_AT,
};
use crate::reading::read_at;
use byteorder::{BigEndian, ByteOrder};
use disk_io::Disk;
use iv_types::Failed;
use log_records::OPEN;

/// Whether these first bytes of a header are an open gate and its name.
fn begins_open(start: &[u8]) -> bool
    requires { 8 ≤ length start.now }
    ensures { result ≡ is_open 0 start.now }
{
    start[0] == OPEN && &start[1..8] == MAGIC
}

/// The fields in the first bytes of a header that begins at this place.
fn fields_of(place: u64, start: &[u8]) -> LiveHeader
    requires place { place ≤ 139264 }
    requires start { 64 ≤ length start.now }
    ensures { as_header result ≡ fields_at place start.now }
{
    LiveHeader {
        place,
        format: BigEndian::read_u32(&start[FORMAT_AT..]),
        pages: BigEndian::read_u32(&start[PAGES_AT..]),
        area_bytes: BigEndian::read_u64(&start[AREA_BYTES_AT..]),
        number: BigEndian::read_u64(&start[NUMBER_AT..]),
        commits: BigEndian::read_u64(&start[COMMITS_AT..]),
        next: BigEndian::read_u64(&start[NEXT_AT..]),
        area: start[AREA_AT],
        redo: BigEndian::read_u64(&start[REDO_AT..]),
    }
}

/// Header 0 or 1, if it lies on the device and is open there.
fn read_header<D: Disk>(disk: &mut D, side: u64) -> Result<Option<LiveHeader>, Failed>
    requires { side ≤ 1 }
    ensures read { D.is_told → IfOk result (λ read. IsReadAs side (D.seen disk.old) read) }
    ensures only_read { IsOnlyRead D.is_told D.size_of D.seen D.may_leave D.moment D.left_since disk.old disk.new }
    ensures cause { CountsFault result (D.faults disk.old) (D.faults disk.new) }
{
    let place = side * HEADER;
    if disk.size() < place + HEADER {
        return Ok(None);
    }
    let mut start = [0; MAP_AT];
    read_at(disk, place, &mut start)?;
    if !begins_open(&start) {
        return Ok(None);
    }
    Ok(Some(fields_of(place, &start)))
}

/// The one with the greater number, and the first on a tie.
fn choose(first: Option<LiveHeader>, second: Option<LiveHeader>) -> Option<LiveHeader>
    ensures { (c : List ℕ) → IsReadAs 0 c first → IsReadAs 1 c second → IsLiveIf c result }
{
    let Some(header) = first else {
        return second;
    };
    let Some(other) = second else {
        return first;
    };
    if other.number > header.number {
        second
    } else {
        first
    }
}

/// The live header, if there is one.
pub(crate) fn find_live<D: Disk>(disk: &mut D) -> Result<Option<LiveHeader>, Failed>
    ensures live { D.is_told → IfOk result (λ found. IsLiveIf (D.seen disk.old) found) }
    ensures only_read { IsOnlyRead D.is_told D.size_of D.seen D.may_leave D.moment D.left_since disk.old disk.new }
    ensures cause { CountsFault result (D.faults disk.old) (D.faults disk.new) }
{
    let first = read_header(disk, 0)?;
    let second = read_header(disk, 1)?;
    Ok(choose(first, second))
}
