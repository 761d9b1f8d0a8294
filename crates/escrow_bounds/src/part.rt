//! The prefixes of the sessions, in memory.
ghost use Rattle.std.specs.Prelude.{◌≡◌, ◌==◌, not, filter, position};

use iv_types::Prefix;

/// The prefix of a session's open transaction.
#[derive(Clone, Copy)]
pub struct Part {
    pub session: u32,
    pub prefix: Prefix,
}

/// Where a session's part is, if it has one.
pub fn place(parts: &[Part], session: u32) -> Option<usize>
    ensures { result ≡ position (λ p. p.session == session) parts.now }
{
    parts.iter().position(|part| part.session == session)
}

/// Takes a session's part away, if it has one.
pub fn remove(parts: &mut Vec<Part>, session: u32)
    ensures { parts.new.items ≡ filter (λ p. not (p.session == session)) parts.old.items }
{
    parts.retain(move |part| part.session != session);
}
