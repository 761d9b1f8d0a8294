//! A disk as the engine sees it: what a read gives, and what a crash may leave.
ghost use Rattle.std.specs.Prelude.{◌≡◌, ◌+◌, ◌≤◌, ◌<◌, ◌^◌, List, ℕ, length, OnOk};
ghost use Rattle.disk_io.specs.Disk.{part, splice, AreBytes, Only, Follows, Torn, Elapses, CountsFault};

use iv_types::Failed;

/// A disk of a fixed size. Each call answers `Failed` only where its count of faults rises, and a call that answers
/// `Ok` leaves that count. What a read gives and what a crash may leave are told or untold, by the disk's type.
pub trait Disk: Drop {
    /// Holds where the disk tells what a read gives.
    ghost is_told: { Type 0 };

    /// How many bytes it has. This never changes.
    ghost size_of: { Self → ℕ };

    /// The bytes that a read gives, where they are told.
    ghost seen: { Self → List ℕ };

    /// What a crash at this moment may leave. A disk that does not tell it has no image here.
    ghost may_leave: { Self → List ℕ → Type 0 };

    /// The moment, as a number that does not fall.
    ghost moment: { Self → ℕ };

    /// What a crash at some moment from that one on might have left, during a call or between two.
    ghost left_since: { Self → ℕ → List ℕ → Type 0 };

    /// How often the disk has failed. The count stands still at the end of a `u64`.
    ghost faults: { Self → ℕ };

    /// How many bytes the disk has.
    fn size(&self) -> u64
        ensures { result ≡ size_of self.now };

    /// Fills the slice with the bytes from that place on, counted from 0. After `Failed` the slice may hold anything.
    fn read(&mut self, at: u64, into: &mut [u8]) -> Result<(), Failed>
        requires { at + length into.old ≤ size_of self.old }
        ensures bytes { is_told → OnOk result (into.new ≡ part at (length into.old) (seen self.old)) }
        ensures size { size_of self.new ≡ size_of self.old }
        ensures seen { is_told → seen self.new ≡ seen self.old }
        ensures crash { (c : List ℕ) → may_leave self.new c → may_leave self.old c }
        ensures time { Elapses (moment self.old) (moment self.new) (left_since self.old) (left_since self.new) (may_leave self.new) }
        ensures cause { CountsFault result (faults self.old) (faults self.new) };

    /// Writes over what is there, from that place on. Until a sync that succeeds, a crash may leave any bytes in the
    /// range. After `Failed` a read may give any bytes there, too.
    fn write_at(&mut self, at: u64, from: &[u8]) -> Result<(), Failed>
        requires { at + length from.now ≤ size_of self.old }
        ensures written { is_told → OnOk result (seen self.new ≡ splice at from.now (seen self.old)) }
        ensures size { size_of self.new ≡ size_of self.old }
        ensures crash { Follows (Torn at (length from.now)) (may_leave self.old) (may_leave self.new) }
        ensures time { Elapses (moment self.old) (moment self.new) (left_since self.old) (left_since self.new) (may_leave self.new) }
        ensures cause { CountsFault result (faults self.old) (faults self.new) };

    /// After it, where it answers `Ok`, a crash leaves what a read gives.
    fn sync(&mut self) -> Result<(), Failed>
        ensures durable { OnOk result (Only (seen self.old) (may_leave self.new)) }
        ensures size { size_of self.new ≡ size_of self.old }
        ensures seen { is_told → seen self.new ≡ seen self.old }
        ensures crash { (c : List ℕ) → may_leave self.new c → may_leave self.old c }
        ensures time { Elapses (moment self.old) (moment self.new) (left_since self.old) (left_since self.new) (may_leave self.new) }
        ensures cause { CountsFault result (faults self.old) (faults self.new) };

    /// What a read gives has the disk's size.
    ghost has_size: { is_told → (disk : Self) → length (seen disk) ≡ size_of disk };

    /// What a read gives is bytes.
    ghost has_bytes: { is_told → (disk : Self) → AreBytes (seen disk) };

    /// Each image that a crash at any moment may have left has the disk's size.
    ghost leaves_size: { (disk : Self) (t : ℕ) (c : List ℕ) → left_since disk t c → length c ≡ size_of disk };

    /// Each image that a crash at any moment may have left is bytes.
    ghost leaves_bytes: { (disk : Self) (t : ℕ) (c : List ℕ) → left_since disk t c → AreBytes c };

    /// Where images are told, the disk as it reads is one of them.
    ghost reads_image: { is_told → (disk : Self) (c : List ℕ) → may_leave disk c → may_leave disk (seen disk) };

    /// This moment is one of those since an earlier one.
    ghost counts_now: { (disk : Self) (t : ℕ) (c : List ℕ) → t ≤ moment disk → may_leave disk c → left_since disk t c };

    /// Since this moment there is no other.
    ghost only_now: { (disk : Self) (c : List ℕ) → left_since disk (moment disk) c → may_leave disk c };

    /// The count of faults is a `u64`, so it never falls.
    ghost counts_in: { (disk : Self) → faults disk < 2 ^ 64 };
}
