//! Where bytes come from.
ghost use Rattle.std.specs.Prelude.{◌≡◌, ◌<◌, ◌≤◌, ℕ, List, length, Option, Some, IfOk, OnErr};
ghost use Rattle.iv_types.specs.Faults.{CountsFault};
ghost use Rattle.line_wire.specs.Wire.{Gives};

use iv_types::Failed;

pub trait Source {
    /// The bytes that are left, where the source tells them.
    ghost left: { Self → Option (List ℕ) };

    /// How often a call has failed. The count stands still at its type's end.
    ghost faults: { Self → ℕ };

    /// Puts the next bytes at the front of a piece that is not empty, and answers how many; 0 means the end of the
    /// input. A call that fails takes none.
    fn take(&mut self, into: &mut [u8]) -> Result<usize, Failed>
        requires { 0 < length into.old }
        ensures within { IfOk result (λ count. count ≤ length into.new) }
        ensures bytes { (bytes : List ℕ) → left self.old ≡ Some bytes → IfOk result (λ count. Gives bytes count into.new (left self.new)) }
        ensures nothing { (bytes : List ℕ) → left self.old ≡ Some bytes → OnErr result (left self.new ≡ Some bytes) }
        ensures fault { CountsFault result (faults self.old) (faults self.new) };
}
