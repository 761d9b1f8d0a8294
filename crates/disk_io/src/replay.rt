//! Recorded calls, done again over the bytes of a disk.
ghost use Rattle.std.specs.Prelude.{◌≡◌, ◌≤◌, ◌+◌, ◌∷◌, [], All, length, replicate, IfOk};
ghost use Rattle.disk_io.specs.Disk.{splice};
ghost use Rattle.disk_io.specs.Events.{after};
ghost use Rattle.disk_io.specs.Images.{up_to_last};
ghost use Rattle.disk_io.specs.Record.{event_in, events, IsWithin, FitsOnto, is_sync_call};

use crate::call::Call;
use iv_types::NoMemory;
use std::alloc::Global;

/// That many zeros.
pub fn zeros(alloc: Global, count: usize) -> Result<Vec<u8>, NoMemory>
    ensures { IfOk result (λ v. v.items ≡ replicate count 0) }
{
    let zeros = vec![in alloc; 0; count]?;
    Ok(zeros)
}

/// Writes over what is there, from that place on.
pub fn overwrite(bytes: &mut Vec<u8>, at: usize, from: &[u8])
    requires { at + length from.now ≤ length bytes.old.items }
    ensures { bytes.new.items ≡ splice at from.now bytes.old.items }
{
    bytes[at..at + from.len()].copy_from_slice(from);
}

/// How many calls there are up to the last sync, that included.
pub fn last_sync(calls: &[Call]) -> usize
    ensures last { result ≡ up_to_last is_sync_call calls.now }
    ensures bound { result ≤ length calls.now }
{
    let mut last = 0;
    for i in 0..calls.len() {
        if calls[i].is_sync() {
            last = i + 1;
        }
    }
    last
}

// One call, done again.
fn redo(call: Call, bytes: &[u8], onto: &mut [u8])
    requires within { IsWithin (length bytes.now) call }
    requires fits { FitsOnto (length onto.old) call }
    ensures { onto.new ≡ after (event_in bytes.now call ∷ []) onto.old }
{
    if let Call::Wrote { at, start, length } = call {
        onto[at..at + length].copy_from_slice(&bytes[start..start + length]);
    }
}

/// Does the calls again. What they wrote stands in `bytes`.
pub fn replay(calls: &[Call], bytes: &[u8], onto: &mut [u8])
    requires within { All (IsWithin (length bytes.now)) calls.now }
    requires fits { All (FitsOnto (length onto.old)) calls.now }
    ensures { onto.new ≡ after (events bytes.now calls.now) onto.old }
{
    for call in calls {
        redo(*call, bytes, onto);
    }
}
