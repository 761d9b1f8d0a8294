//! The rules of the live header.
ghost use Rattle.std.specs.Prelude.{◌≡◌, ◌+◌, ◌≤◌, ◌↔◌, ℕ, List, length, IsTrue, IfOk, OnOk, IfErr};
ghost use Rattle.txn_log.specs.Damaged.{FitsDevice};
ghost use Rattle.image_finding.specs.Reads.{IsOnlyRead};
ghost use Rattle.image_finding.specs.Faults.{IfBad, FindFaults};
ghost use Rattle.image_finding.specs.Rules.{IsRefused};
ghost use Rattle.image_finding.specs.Headers.{as_header, IsLiveHeader, StandsUpTo};

use crate::fault::{AREA_NAMED, BadImage, FORMAT_KNOWN, FindFault, HEADER_LIVES, SIZES_FIT};
use crate::header::LiveHeader;
use crate::layout::{
    AREA_AT, FORMAT_AT, LEAST_AREA_BYTES, LEAST_PAGES, MOST_NUMBER, MOST_PAGES, PAGES_AT, SLOTS,
};
use crate::live::find_live;
use disk_io::Disk;
use iv_types::FORMAT;
use wal_log::{AREAS_AT, MOST_AREA};

/// Whether the sizes of the header are within their limits and those of a device with so many bytes, and its numbers are
/// at most 2^62.
fn fits_device(header: &LiveHeader, bytes: u64) -> bool
    ensures { IsTrue result ↔ FitsDevice (as_header header.now) bytes }
{
    if header.pages < LEAST_PAGES || header.pages > MOST_PAGES {
        return false;
    }
    if header.area_bytes < LEAST_AREA_BYTES || header.area_bytes > MOST_AREA {
        return false;
    }
    if bytes != AREAS_AT + 2 * header.area_bytes + SLOTS * header.pages as u64 {
        return false;
    }
    header.number <= MOST_NUMBER && header.commits <= MOST_NUMBER && header.next <= MOST_NUMBER
}

/// Tests what the live header of a device with so many bytes says: rules 2, 3 and 4.
fn check_header(header: &LiveHeader, bytes: u64) -> Result<(), BadImage>
    ensures stands { (c : List ℕ) → length c ≡ bytes → StandsUpTo 1 c (as_header header.now) → OnOk result (StandsUpTo 4 c (as_header header.now)) }
    ensures refused { (c : List ℕ) → length c ≡ bytes → StandsUpTo 1 c (as_header header.now) → IfErr result (λ bad. IsRefused c bad) }
    ensures fits { OnOk result (FitsDevice (as_header header.now) bytes) }
    ensures area { OnOk result (header.now.area ≤ 1) }
{
    if header.format != FORMAT {
        let place = header.place + FORMAT_AT as u64;
        return Err(BadImage {
            rule: FORMAT_KNOWN,
            place,
        });
    }
    if !fits_device(header, bytes) {
        let place = header.place + PAGES_AT as u64;
        return Err(BadImage {
            rule: SIZES_FIT,
            place,
        });
    }
    if header.area > 1 {
        let place = header.place + AREA_AT as u64;
        return Err(BadImage {
            rule: AREA_NAMED,
            place,
        });
    }
    Ok(())
}

/// The live header, of which rules 1 to 4 hold.
pub(crate) fn find_header<D: Disk>(disk: &mut D) -> Result<LiveHeader, FindFault>
    ensures stands { D.is_told → IfOk result (λ header. StandsUpTo 4 (D.seen disk.old) (as_header header)) }
    ensures refused { D.is_told → IfBad result (λ bad. IsRefused (D.seen disk.old) bad) }
    ensures fits { IfOk result (λ header. FitsDevice (as_header header) (D.size_of disk.old)) }
    ensures area { IfOk result (λ header. header.area ≤ 1) }
    ensures only_read { IsOnlyRead D.is_told D.size_of D.seen D.may_leave D.moment D.left_since disk.old disk.new }
    ensures cause { FindFaults result (D.faults disk.old) (D.faults disk.new) }
{
    let bytes = disk.size();
    let found = find_live(disk)?;
    let Some(header) = found else {
        return Err(FindFault::BadImage(BadImage {
            rule: HEADER_LIVES,
            place: 0,
        }));
    };
    match check_header(&header, bytes) {
        Ok(()) => Ok(header),
        Err(bad) => Err(FindFault::BadImage(bad)),
    }
}
