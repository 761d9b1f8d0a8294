//! The gate of the header that is to be written.
ghost use Rattle.std.specs.Prelude.{◌≡◌, ◌⊎◌, ◌+◌, ◌≤◌, ◌∷◌, [], true, false, length, OnOk};
ghost use Rattle.disk_io.specs.Disk.{splice, Only, Torn, LeavesOnly, CountsFault};

use disk_io::{Disk, write_through};
use iv_types::Failed;

/// Closes a gate that is open, and syncs in each case.
pub(crate) fn close_gate<D: Disk>(disk: &mut D, gate: u64, is_open: bool) -> Result<(), Failed>
    requires { gate + 1 ≤ D.size_of disk.old }
    ensures closed { D.is_told → is_open ≡ true → OnOk result (D.seen disk.new ≡ splice gate (0 ∷ []) (D.seen disk.old)) }
    ensures same { D.is_told → is_open ≡ false → OnOk result (D.seen disk.new ≡ D.seen disk.old) }
    ensures durable { D.is_told → OnOk result (Only (D.seen disk.new) (D.may_leave disk.new)) }
    ensures size { D.size_of disk.new ≡ D.size_of disk.old }
    ensures any_moment { D.is_told → Only (D.seen disk.old) (D.may_leave disk.old)
        → LeavesOnly D.moment D.left_since disk.old disk.new (λ c. (c ≡ D.seen disk.old) ⊎ ((is_open ≡ true) × Torn gate 1 (D.seen disk.old) c)) }
    ensures cause { CountsFault result (D.faults disk.old) (D.faults disk.new) }
{
    if is_open {
        return write_through(disk, gate, &[0]);
    }
    disk.sync()
}
