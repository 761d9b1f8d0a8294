//! What the transactions of sessions have added to a row's count.
ghost use Rattle.std.specs.Prelude.{◌≡◌, ◌++◌, [], ◌∷◌, ◌==◌, map, filter, not, OnOk, OnErr, pos};
ghost use Rattle.ghost_rows.specs.Shares.{sum_at, updated};

use iv_types::NoMemory;

/// What a session's transaction has added to a row's count.
#[derive(Clone, Copy, Debug)]
pub struct Share {
    pub session: u32,
    pub sum: i128,
}

/// The share of a session, if it has one.
pub fn sum_at(shares: &[Share], session: u32) -> Option<i128>
    ensures { result ≡ sum_at shares.now session }
{
    for index in 0..shares.len() {
        let share = shares[index];
        if share.session == session {
            return Some(share.sum);
        }
    }
    None
}

// The new share, if it is of the same session.
fn updated(share: Share, new: Share) -> Share
    ensures { result ≡ updated new.session new.sum share }
{
    if share.session == new.session {
        new
    } else {
        share
    }
}

/// Sets a session's share, if it has one.
pub fn set(shares: &mut [Share], new: Share)
    ensures { shares.new ≡ map (updated new.session new.sum) shares.old }
{
    for index in 0..shares.len() {
        shares[index] = updated(shares[index], new);
    }
}

/// Takes a session's share away, if it has one.
pub fn remove(shares: &mut Vec<Share>, session: u32)
    ensures { shares.new.items ≡ filter (λ s. not (s.session == session)) shares.old.items }
{
    shares.retain(move |share| share.session != session);
}
