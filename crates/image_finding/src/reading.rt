//! Reads of a disk.
ghost use Rattle.std.specs.Prelude.{◌≡◌, ◌+◌, ◌≤◌, length, OnOk, IfOk, vec_len};
ghost use Rattle.disk_io.specs.Disk.{part, CountsFault};
ghost use Rattle.image_finding.specs.Reads.{IsOnlyRead};
ghost use Rattle.image_finding.specs.Faults.{IfBad, FindFaults};

use crate::FindFault;
use disk_io::Disk;
use iv_types::Failed;
use std::alloc::Global;

/// Fills the slice with the bytes from that place on.
pub(crate) fn read_at<D: Disk>(disk: &mut D, at: u64, into: &mut [u8]) -> Result<(), Failed>
    requires { at + length into.old ≤ D.size_of disk.old }
    ensures bytes { D.is_told → OnOk result (into.new ≡ part at (length into.old) (D.seen disk.old)) }
    ensures only_read { IsOnlyRead D.is_told D.size_of D.seen D.may_leave D.moment D.left_since disk.old disk.new }
    ensures cause { CountsFault result (D.faults disk.old) (D.faults disk.new) }
{
    disk.read(at, into)
}

/// So many bytes from that place on.
pub(crate) fn read_bytes<D: Disk>(
    alloc: Global,
    disk: &mut D,
    at: u64,
    count: usize,
) -> Result<Vec<u8>, FindFault>
    requires { at + count ≤ D.size_of disk.old }
    ensures bytes { D.is_told → IfOk result (λ read. read.items ≡ part at count (D.seen disk.old)) }
    ensures count { IfOk result (λ read. vec_len read ≡ count) }
    ensures no_rule { IfBad result (λ _. ⊥) }
    ensures only_read { IsOnlyRead D.is_told D.size_of D.seen D.may_leave D.moment D.left_since disk.old disk.new }
    ensures cause { FindFaults result (D.faults disk.old) (D.faults disk.new) }
{
    let mut bytes = vec![in alloc; 0; count]?;
    read_at(disk, at, &mut bytes)?;
    Ok(bytes)
}
