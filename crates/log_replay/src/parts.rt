//! Records of the log area in use, by their places.
ghost use Rattle.std.specs.Prelude.{◌≡◌, ◌+◌, ◌<◌, ◌≤◌, ◌^◌, length};
ghost use Rattle.log_replay.specs.Told.{count_before};

use log_records::Scanned;
use record_replay::Head;

/// The head of a record in an area that begins at this place of the device. A device has fewer than 2^64 bytes.
pub(crate) fn head_of(area: u64, scanned: &Scanned) -> Head
    ensures place { area + scanned.now.place < 2 ^ 64 → result.place ≡ area + scanned.now.place }
    ensures number { result.number ≡ scanned.now.number }
{
    Head {
        place: area.saturating_add(scanned.place),
        number: scanned.number,
    }
}

/// How many records stand before the redo place, up to the first that does not.
pub(crate) fn count_before(redo: u64, records: &[Scanned]) -> usize
    ensures count { result ≡ count_before redo records.now }
    ensures within { result ≤ length records.now }
{
    let mut count = 0;
    for scanned in records {
        if scanned.place >= redo {
            return count;
        }
        count += 1;
    }
    count
}
