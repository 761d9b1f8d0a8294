//! The image of a device.
ghost use Rattle.std.specs.Prelude.{◌≡◌, ◌≤◌, length, IfOk};
ghost use Rattle.txn_log.specs.Damaged.{FitsDevice};
ghost use Rattle.log_records.specs.Scan.{scanned};
ghost use Rattle.image_finding.specs.Reads.{IsOnlyRead};
ghost use Rattle.image_finding.specs.Faults.{IfBad, FindFaults};
ghost use Rattle.image_finding.specs.Rules.{IsRefused};
ghost use Rattle.image_finding.specs.Headers.{as_header, area_in, StandsUpTo};
ghost use Rattle.image_finding.specs.Images.{HasImage};

use crate::fault::FindFault;
use crate::header::LiveHeader;
use crate::image::FoundImage;
use crate::log::read_records;
use crate::pages::read_pages;
use crate::rules::find_header;
use disk_io::Disk;
use log_records::RecordList;
use std::alloc::Global;

/// The image with this live header and these records, by rules 8 and 9.
fn with_pages<D: Disk>(
    alloc: Global,
    disk: &mut D,
    header: LiveHeader,
    records: RecordList,
) -> Result<FoundImage, FindFault>
    requires fits { FitsDevice (as_header header) (D.size_of disk.old) }
    requires area { header.area ≤ 1 }
    requires few { length records ≤ header.area_bytes }
    ensures found { D.is_told → StandsUpTo 7 (D.seen disk.old) (as_header header) → scanned (area_in (as_header header) (D.seen disk.old)) ≡ Ok records → IfOk result (λ image. HasImage (D.seen disk.old) image) }
    ensures refused { D.is_told → StandsUpTo 7 (D.seen disk.old) (as_header header) → IfBad result (λ bad. IsRefused (D.seen disk.old) bad) }
    ensures fits { IfOk result (λ image. FitsDevice (as_header image.header) (D.size_of disk.old)) }
    ensures only_read { IsOnlyRead D.is_told D.size_of D.seen D.may_leave D.moment D.left_since disk.old disk.new }
    ensures cause { FindFaults result (D.faults disk.old) (D.faults disk.new) }
{
    match read_pages(alloc, disk, &header) {
        Ok(map) => Ok(FoundImage {
            header,
            records,
            map,
        }),
        Err(fault) => {
            std::mem::drop(records);
            Err(fault)
        }
    }
}

/// The image with this live header, by rules 5 to 9.
fn find_rest<D: Disk>(
    alloc: Global,
    disk: &mut D,
    header: LiveHeader,
) -> Result<FoundImage, FindFault>
    requires fits { FitsDevice (as_header header) (D.size_of disk.old) }
    requires area { header.area ≤ 1 }
    ensures found { D.is_told → StandsUpTo 4 (D.seen disk.old) (as_header header) → IfOk result (λ image. HasImage (D.seen disk.old) image) }
    ensures refused { D.is_told → StandsUpTo 4 (D.seen disk.old) (as_header header) → IfBad result (λ bad. IsRefused (D.seen disk.old) bad) }
    ensures fits { IfOk result (λ image. FitsDevice (as_header image.header) (D.size_of disk.old)) }
    ensures only_read { IsOnlyRead D.is_told D.size_of D.seen D.may_leave D.moment D.left_since disk.old disk.new }
    ensures cause { FindFaults result (D.faults disk.old) (D.faults disk.new) }
{
    match read_records(alloc, disk, &header) {
        Ok(records) => with_pages(alloc, disk, header, records),
        Err(fault) => Err(fault),
    }
}

/// Finds the image of a device of any size with any bytes, and writes nothing. Memory is taken for a log area and a page
/// map only once their sizes are known to be within the limits, and for one page.
///
/// # Errors
///
/// `BadImage` with the least of the rules 1 to 9 that fails and the first place at which it does; `DiskFault` exactly
/// where the disk's count of faults rises; `NoMemory` where there was none for what is read.
pub fn find_image<D: Disk>(alloc: Global, disk: &mut D) -> Result<FoundImage, FindFault>
    // No rule up to 9 fails, and what is answered is what the bytes have.
    ensures found { D.is_told → IfOk result (λ image. HasImage (D.seen disk.old) image) }
    // What is answered is the least rule that fails.
    ensures refused { D.is_told → IfBad result (λ bad. IsRefused (D.seen disk.old) bad) }
    // Its sizes are those of the device, and its numbers at most 2^62.
    ensures fits { IfOk result (λ image. FitsDevice (as_header image.header) (D.size_of disk.old)) }
    ensures only_read { IsOnlyRead D.is_told D.size_of D.seen D.may_leave D.moment D.left_since disk.old disk.new }
    ensures cause { FindFaults result (D.faults disk.old) (D.faults disk.new) }
{
    match find_header(disk) {
        Ok(header) => find_rest(alloc, disk, header),
        Err(fault) => Err(fault),
    }
}
