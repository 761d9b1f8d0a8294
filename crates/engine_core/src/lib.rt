//! The engine behind the sessions: each step of many open transactions, over any sorted maps and any journal.
//!
//! `Core` does steps as txn_book's `Stepper` says. Its acts stand in the crates below, and each says what the core then holds
//! of the machine's state, and what its journal was given; here a step is begun, its act chosen, and the step counted.
#![tactic(auto)]

ghost use Rattle.engine_core.specs.Laws.{StandingLaws};

mod acting;
mod engine;

use core_journal::Journal;
pub use engine::Core;
use iv_types::SortedMaps;

/// The laws of the machine hold in every state in which a core stands.
pub fn standing_laws<M: SortedMaps, J: Journal>()
    ensures { StandingLaws M.maps M.spare M.limit J.has J.limit (λ journal. J.faults (J.medium journal)) }
{}
