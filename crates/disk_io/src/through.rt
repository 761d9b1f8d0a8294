//! One write that is on the disk when the call has answered Ok.
ghost use Rattle.std.specs.Prelude.{◌≡◌, ◌+◌, ◌≤◌, length, OnOk};
ghost use Rattle.disk_io.specs.Disk.{splice, Only, Torn, LeavesOnly, CountsFault};

use crate::Disk;
use iv_types::Failed;

/// Writes and syncs. From a disk where no write waits for a sync, a crash at any moment leaves any bytes in the
/// range and the old ones elsewhere. `Failed` where the write or the sync fails.
pub fn write_through<D: Disk>(disk: &mut D, at: u64, from: &[u8]) -> Result<(), Failed>
    requires { at + length from.now ≤ D.size_of disk.old }
    ensures written { D.is_told → OnOk result (D.seen disk.new ≡ splice at from.now (D.seen disk.old)) }
    ensures durable { D.is_told → OnOk result (Only (D.seen disk.new) (D.may_leave disk.new)) }
    ensures size { D.size_of disk.new ≡ D.size_of disk.old }
    ensures any_moment { D.is_told → Only (D.seen disk.old) (D.may_leave disk.old) → LeavesOnly D.moment D.left_since disk.old disk.new (Torn at (length from.now) (D.seen disk.old)) }
    ensures cause { CountsFault result (D.faults disk.old) (D.faults disk.new) }
{
    disk.write_at(at, from)?;
    disk.sync()?;
    Ok(())
}
