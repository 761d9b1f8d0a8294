//! Where bytes go.
ghost use Rattle.std.specs.Prelude.{◌≡◌, ◌<◌, ◌≤◌, ◌++◌, ℕ, List, length, take, Option, IfOk, OnOk, OnErr};
ghost use Rattle.iv_types.specs.Faults.{CountsFault};
ghost use Rattle.line_wire.specs.Wire.{WroteFront};

use iv_types::Failed;
use thiserror::Error;

pub trait Sink {
    /// What was written, where the sink tells it.
    ghost written: { Self → Option (List ℕ) };

    /// How often a call has failed. The count stands still at its type's end.
    ghost faults: { Self → ℕ };

    /// Writes some bytes from the front of a piece, at least one where the piece is not empty, and answers how many.
    fn put(&mut self, from: &[u8]) -> Result<usize, Failed>
        ensures within { IfOk result (λ count. count ≤ length from.now) }
        ensures some { 0 < length from.now → IfOk result (λ count. 0 < count) }
        ensures bytes { (before : List ℕ) → written self.old ≡ Some before → IfOk result (λ count. written self.new ≡ Some (before ++ take count from.now)) }
        ensures nothing { (before : List ℕ) → written self.old ≡ Some before → OnErr result (written self.new ≡ Some before) }
        ensures fault { CountsFault result (faults self.old) (faults self.new) };
}

/// The sink failed.
#[derive(Clone, Copy, Debug, PartialEq, Eq, Error)]
#[error("the sink failed")]
pub struct WriteFault;

/// Writes all the bytes. On a fault some from their front were written.
pub fn write_all<K: Sink>(sink: &mut K, bytes: &[u8]) -> Result<(), WriteFault>
    ensures ok { (before : List ℕ) → K.written sink.old ≡ Some before → OnOk result (K.written sink.new ≡ Some (before ++ bytes.now)) }
    ensures err { (before : List ℕ) → K.written sink.old ≡ Some before → OnErr result (WroteFront before bytes.now (K.written sink.new)) }
    ensures fault { CountsFault result (K.faults sink.old) (K.faults sink.new) }
{
    let mut at = 0usize;
    while at < bytes.len() {
        match sink.put(&bytes[at..]) {
            Ok(count) => at += count,
            Err(Failed) => return Err(WriteFault),
        }
    }
    Ok(())
}
