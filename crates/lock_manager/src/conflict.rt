//! Which locks may not be held together.
ghost use Rattle.std.specs.Prelude.{◌≡◌, ◌↔◌, IsTrue, IfSome};
ghost use Rattle.iv_types.specs.Intervals.{LiesIn, IsBelow, IsAtMost};
ghost use Rattle.txn_machine.specs.Locks.{Agree, Conflict};
ghost use Rattle.lock_manager.specs.Table.{Covers};

use iv_types::{Bytes, Interval, LockMode, Want};
use row_codec::common;

// Whether different sessions may hold both on one key.
fn agree(a: LockMode, b: LockMode) -> bool
    ensures { IsTrue result ↔ Agree a b }
{
    match a {
        LockMode::Share => b == LockMode::Share,
        LockMode::Exclusive => false,
        LockMode::Increment => b == LockMode::Increment,
    }
}

/// Whether locks of different sessions conflict.
pub fn conflict(a: &Want, b: &Want) -> bool
    ensures { IsTrue result ↔ Conflict a.now b.now }
{
    a.index == b.index && !agree(a.mode, b.mode) && common(&a.interval, &b.interval)
}

/// Whether these are the same locks.
pub fn is_same(a: &Want, b: &Want) -> bool
    ensures { IsTrue result ↔ (a.now ≡ b.now) }
{
    a.index == b.index
        && a.mode == b.mode
        && a.interval.low == b.interval.low
        && a.interval.high == b.interval.high
}

// Whether the key is before the high end, where there is one.
fn is_before_end(key: &[u8], high: &Option<Bytes>) -> bool
    ensures { IsTrue result ↔ IfSome high.now (λ end. IsBelow key.now end) }
{
    match high {
        None => true,
        Some(end) => key.cmp(&end.as_slice()).is_lt(),
    }
}

/// Whether an interval has the key.
#[tactic(auto, using(iv_types::proofs::Fitting::lies_is, iv_types::proofs::Fitting::lies_so))]
pub fn lies_in(key: &[u8], interval: &Interval) -> bool
    ensures { IsTrue result ↔ LiesIn key.now interval.now }
{
    interval.low.as_slice().cmp(&key).is_le() && is_before_end(key, &interval.high)
}

/// Whether this is a lock of exactly this mode on this index whose interval has the key.
pub fn covers(lock: &Want, index: u32, key: &[u8], mode: LockMode) -> bool
    ensures { IsTrue result ↔ Covers index key.now mode lock.now }
{
    lock.index == index && lock.mode == mode && lies_in(key, &lock.interval)
}
