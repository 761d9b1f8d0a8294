//! Which disk lies under a name.
ghost use Rattle.std.specs.Prelude.{◌≡◌, ◌≢◌, ◌<◌, ◌≤◌, ◌+◌, true, false, ℕ, List, length, string_bytes, slice_index_or, Some, None, MatchOption, vec_capacity, vec_len};
ghost use Rattle.outside.specs.Closed.{is_named, lies_in, times_in};
ghost use Rattle.outside.specs.Outside.{OthersStay};

use crate::closed::ClosedDisk;

/// The place of the first disk of that name.
pub fn place_of(closed: &[ClosedDisk], name: &str) -> Option<usize>
    ensures place { MatchOption result (lies_in closed.now name.now ≡ None) (λ i. i < length closed.now) }
    ensures named { MatchOption result (Unit {0}) (λ i. (d : ClosedDisk) → is_named name.now (slice_index_or closed.now i d) ≡ true) }
    ensures first { MatchOption result (Unit {0}) (λ i. (d : ClosedDisk) → lies_in closed.now name.now ≡ Some ((slice_index_or closed.now i d).disk)) }
{
    for i in 0..closed.len() {
        if closed[i].name.as_str() == name {
            return Some(i);
        }
    }
    None
}

/// Takes away the disk that lies under a name, where one does, and none is left there.
pub fn take_closed(closed: &mut Vec<ClosedDisk>, name: &str) -> Option<ClosedDisk>
    requires { (n : List ℕ) → times_in closed.old.items n ≤ 1 }
    ensures found { MatchOption result (lies_in closed.old.items name.now ≡ None) (λ p. lies_in closed.old.items name.now ≡ Some p.disk) }
    ensures name { MatchOption result (Unit {0}) (λ p. string_bytes p.name ≡ name.now) }
    ensures gone { times_in closed.new.items name.now ≡ 0 }
    ensures fewer { (n : List ℕ) → times_in closed.new.items n ≤ times_in closed.old.items n }
    ensures others { OthersStay name.now (lies_in closed.old.items) (lies_in closed.new.items) }
    ensures room { MatchOption result (vec_len closed.new ≡ vec_len closed.old) (λ _. vec_len closed.new + 1 ≡ vec_len closed.old) }
    ensures capacity { vec_capacity closed.new ≡ vec_capacity closed.old }
    ensures none { MatchOption result (closed.new.items ≡ closed.old.items) (λ _. Unit {0}) }
{
    let at = place_of(closed, name)?;
    Some(closed.remove(at))
}
