//! A session.
ghost use Rattle.std.specs.Prelude.{◌≡◌, true};
ghost use Rattle.txn_sessions.specs.Numbered.{is_numbered};

use crate::progress::Line;
use crate::standing::Standing;
use std::alloc::Global;

/// A session: how it stands, and what it has still to do of the statement that is under way. It does no step itself.
#[derive(Drop)]
pub struct Session {
    pub(crate) alloc: Global,
    pub(crate) number: u32,
    pub(crate) standing: Standing,
    pub(crate) line: Line,
    ghost numbered: { is_numbered number line ≡ true },
}
