//! The outside, as a program sees it: disks that are opened and made by name.
ghost use Rattle.std.specs.Prelude.{◌≡◌, ◌<◌, ◌^◌, ℕ, List, Option, Some, None, IfOk, OnOk, OnErr, replicate};
ghost use Rattle.iv_types.specs.Faults.{CountsFault};
ghost use Rattle.outside.specs.Outside.{CountsUnmade, CountsClosed, OthersStay, ReadsAsBefore};

use crate::unmade::Unmade;
use disk_io::Disk;
use iv_types::Failed;
use std::alloc::Global;

/// What a program meets outside itself. Of its disks it tells by name which one lies where, or leaves it untold, by its type.
pub trait Outside {
    /// A disk that it gives.
    type Disk: Disk;

    /// Holds where the outside tells which disk lies under a name.
    ghost is_told: { Type 0 };

    /// The disk that lies under a name, where one lies there and it is told. Of one that is open it is not.
    ghost lies: { Self → List ℕ → Option Self.Disk };

    /// The name of the disk that was opened or made last, until a disk is closed.
    ghost opened_as: { Self → Option (List ℕ) };

    /// How often a disk could not be opened or made, or was closed after a fault. The count stands still at the end of a `u64`.
    ghost faults: { Self → ℕ };

    /// Opens the disk that lies under a name: it reads as it did, and a crash leaves nothing else of it. Its own count of faults
    /// begins at 0. While it is open, no other lies there.
    ///
    /// # Errors
    ///
    /// `Failed` exactly where the count of faults rises, among others where no disk lies there; `NoMemory` where there is
    /// none. Then each name is as before.
    fn open_disk(&mut self, alloc: Global, name: &str) -> Result<Self::Disk, Unmade>
        ensures count { IfOk result (λ disk. Self.Disk.faults disk ≡ 0) }
        ensures opened { is_told → IfOk result (λ disk. ReadsAsBefore Self.Disk.size_of Self.Disk.seen Self.Disk.may_leave (lies self.old name.now) disk) }
        ensures opened_as { is_told → OnOk result (opened_as self.new ≡ Some name.now) }
        ensures nothing_else { is_told → OnOk result (lies self.new name.now ≡ None) }
        ensures others { is_told → OnOk result (OthersStay name.now (lies self.old) (lies self.new)) }
        ensures lie { is_told → OnErr result ((name : List ℕ) → lies self.new name ≡ lies self.old name) }
        ensures opened_as_err { is_told → OnErr result (opened_as self.new ≡ opened_as self.old) }
        ensures cause { CountsUnmade result (faults self.old) (faults self.new) };

    /// Makes a disk of so many zeros under a name, in place of one that lies there: while it is open, no other does.
    ///
    /// # Errors
    ///
    /// `Failed` exactly where the count of faults rises; `NoMemory` where there is none. What then lies under the name is untold,
    /// and each other name is as before.
    fn make_disk(&mut self, alloc: Global, name: &str, bytes: u64) -> Result<Self::Disk, Unmade>
        ensures count { IfOk result (λ disk. Self.Disk.faults disk ≡ 0) }
        ensures size { IfOk result (λ disk. Self.Disk.size_of disk ≡ bytes) }
        ensures zeros { Self.Disk.is_told → IfOk result (λ disk. Self.Disk.seen disk ≡ replicate bytes 0) }
        ensures opened_as { is_told → OnOk result (opened_as self.new ≡ Some name.now) }
        ensures nothing_else { is_told → OnOk result (lies self.new name.now ≡ None) }
        ensures others { is_told → OthersStay name.now (lies self.old) (lies self.new) }
        ensures opened_as_err { is_told → OnErr result (opened_as self.new ≡ opened_as self.old) }
        ensures cause { CountsUnmade result (faults self.old) (faults self.new) };

    /// Closes a disk, which then lies under the name that was opened or made last; where there is none, each name is as before. The
    /// count of faults rises exactly where the disk's count is above 0.
    ///
    /// # Errors
    ///
    /// `Failed` exactly where the disk's count of faults is above 0: a call of it has failed since it was opened or made.
    fn close_disk(&mut self, disk: Self::Disk) -> Result<(), Failed>
        ensures closed { is_told → (name : List ℕ) → opened_as self.old ≡ Some name → lies self.new name ≡ Some disk }
        ensures opened_as { is_told → opened_as self.new ≡ None }
        ensures others { is_told → (name : List ℕ) → opened_as self.old ≡ Some name → OthersStay name (lies self.old) (lies self.new) }
        ensures lie { is_told → opened_as self.old ≡ None → (name : List ℕ) → lies self.new name ≡ lies self.old name }
        ensures cause { CountsClosed (Self.Disk.faults disk) (faults self.old) (faults self.new) }
        ensures told { CountsFault result (faults self.old) (faults self.new) }
        ensures sound { OnOk result (Self.Disk.faults disk ≡ 0) };

    /// The count of faults is a `u64`, so it never falls.
    ghost counts_in: { (outside : Self) → faults outside < 2 ^ 64 };
}
