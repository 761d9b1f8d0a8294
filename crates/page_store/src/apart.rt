//! A write on which the old image does not rest.
ghost use Rattle.std.specs.Prelude.{◌≡◌, ◌+◌, ◌≤◌, ℕ, List, length, OnOk};
ghost use Rattle.disk_io.specs.Disk.{splice, CountsFault};
ghost use Rattle.page_store.specs.Kept.{IsOld, Free, Guards, KeepsOld};

use disk_io::Disk;
use iv_types::Failed;

/// Writes without a sync. Each crash leaves the old image, if it did so before.
pub(crate) fn write_apart<D: Disk>(disk: &mut D, at: u64, from: &[u8]) -> Result<(), Failed>
    requires { at + length from.now ≤ D.size_of disk.old }
    ensures written { D.is_told → OnOk result (D.seen disk.new ≡ splice at from.now (D.seen disk.old)) }
    ensures size { D.size_of disk.new ≡ D.size_of disk.old }
    ensures old { D.is_told → (room pages k : ℕ) → (s : List ℕ) → Free room pages k s at (length from.now) → IsOld room pages k s (D.seen disk.old) → OnOk result (IsOld room pages k s (D.seen disk.new)) }
    ensures crash { (room pages k : ℕ) → (s : List ℕ) → Free room pages k s at (length from.now) → Guards D.may_leave room pages k s disk.old → KeepsOld D.moment D.left_since D.may_leave room pages k s disk.old disk.new }
    ensures cause { CountsFault result (D.faults disk.old) (D.faults disk.new) }
{
    disk.write_at(at, from)
}
