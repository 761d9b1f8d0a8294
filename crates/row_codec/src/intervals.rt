//! Ranges of keys.
ghost use Rattle.std.specs.Prelude.{◌≡◌, ◌≢◌, ℕ, ◌-◌, ◌<◌, ◌≤◌, List, length, drop, slice_index, None, IfOk, IfSome, IsTrue, ◌↔◌};
ghost use Rattle.iv_types.specs.Intervals as ranges;
ghost use Rattle.iv_types.specs.Intervals.{LiesIn, IsBelow, next, HaveCommonKey};
ghost use Rattle.row_codec.specs.Ranges.{AreBytes, BeginsWith, IsGreater};

use iv_types::{Bytes, Interval, NoMemory};
use std::alloc::Global;
use std::cmp::Ordering;

fn copy_of(alloc: Global, bytes: &[u8]) -> Result<Bytes, NoMemory>
    ensures { IfOk result (λ copy. copy ≡ bytes.now) }
{
    Ok(Bytes::from_vec(Vec::from_slice(alloc, bytes)?))
}

/// The interval in which this key lies alone.
///
/// # Errors
///
/// Where there is no memory for it.
pub fn point(alloc: Global, key: &Bytes) -> Result<Interval, NoMemory>
    ensures made { IfOk result (λ interval. interval ≡ ranges.point key.now) }
    ensures alone { IfOk result (λ interval. (k : List ℕ) → LiesIn k interval ↔ (k ≡ key.now)) }
{
    let low = copy_of(alloc, key.as_slice())?;
    let mut high = copy_of(alloc, key.as_slice())?;
    high.push(0)?;
    Ok(Interval {
        low,
        high: Some(high),
    })
}

// How many bytes are left without the bytes 255 at the end.
fn len_without_255(bytes: &[u8]) -> usize
    ensures within { result ≤ length bytes.now }
    ensures behind { next (drop result bytes.now) ≡ None }
    ensures last { 0 < result → slice_index bytes.now (result - 1) ≢ 255 }
{
    let mut end = bytes.len();
    while end > 0 && bytes[end - 1] == 255 {
        end -= 1;
    }
    end
}

// The least bytes above all that begin with these, or nothing where there are none.
fn next_of(alloc: Global, bytes: &[u8]) -> Result<Option<Bytes>, NoMemory>
    ensures { IfOk result (λ high. high ≡ next bytes.now) }
{
    let end = len_without_255(bytes);
    if end == 0 {
        return Ok(None);
    }
    let mut high = Vec::from_slice(alloc, &bytes[..end])?;
    high[end - 1] += 1;
    Ok(Some(Bytes::from_vec(high)))
}

/// The interval of the keys that begin with these bytes.
///
/// # Errors
///
/// Where there is no memory for it.
pub fn prefix_interval(alloc: Global, prefix: &Bytes) -> Result<Interval, NoMemory>
    ensures made { IfOk result (λ interval. interval ≡ ranges.prefix_interval prefix.now) }
    ensures begun { IfOk result (λ interval. (k : List ℕ) → AreBytes k → LiesIn k interval ↔ BeginsWith prefix.now k) }
{
    let low = copy_of(alloc, prefix.as_slice())?;
    let high = next_of(alloc, prefix.as_slice())?;
    Ok(Interval { low, high })
}

fn is_below(a: &[u8], b: &[u8]) -> bool
    ensures { IsTrue result ↔ IsBelow a.now b.now }
{
    match a.cmp(&b) {
        Ordering::Less => true,
        _ => false,
    }
}

// Whether the key is before the high end, where there is one.
fn is_before(key: &[u8], high: &Option<Bytes>) -> bool
    ensures { IsTrue result ↔ IfSome high.now (λ end. IsBelow key.now end) }
{
    match high {
        None => true,
        Some(end) => is_below(key, end.as_slice()),
    }
}

fn greater<'a>(a: &'a [u8], b: &'a [u8]) -> &'a [u8]
    ensures { IsGreater a.entry.now b.entry.now result.now }
{
    if is_below(a, b) { b } else { a }
}

/// Whether some key lies in both intervals: the greater of their low ends does, or none.
pub fn common(a: &Interval, b: &Interval) -> bool
    ensures { IsTrue result ↔ HaveCommonKey a.now b.now }
{
    let low = greater(a.low.as_slice(), b.low.as_slice());
    is_before(low, &a.high) && is_before(low, &b.high)
}
