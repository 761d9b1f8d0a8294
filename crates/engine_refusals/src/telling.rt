//! Refusals of the engine's, told.
ghost use Rattle.std.specs.Prelude.{◌≡◌, None, Some, IfOk, IfErr};
ghost use Rattle.iv_types.specs.declared.lock.GroupDelta.{GroupDelta as AnyDelta};
ghost use Rattle.iv_meaning.specs.Objects.{schema_of};
ghost use Rattle.iv_meaning.specs.Schema.{Schema};
ghost use Rattle.script_law.specs.Seen.{Fails, is_stop, is_deadlock_event};
ghost use Rattle.statement_law.specs.Telling.{tell};
ghost use Rattle.engine_refusals.specs.Named.{IsEscrow};

use crate::naming::{escrow_told, nameless};
use iv_types::{Catalog, EngineRefusal, GroupDelta, NoMemory, Refusal};
use std::alloc::Global;

/// Whether the engine says that it is stopped, or that its disk fails, which stops it.
pub fn is_stop(why: EngineRefusal) -> bool
    ensures { result ≡ is_stop (Fails why) }
{
    matches!(why, EngineRefusal::Stopped(_) | EngineRefusal::DiskFault)
}

/// Whether a deadlock met the step.
pub fn is_deadlock(why: EngineRefusal) -> bool
    ensures { result ≡ is_deadlock_event why }
{
    matches!(why, EngineRefusal::Deadlock(_))
}

/// How a refusal is told of a step that pays nothing. It takes no memory.
pub fn told_plainly(alloc: Global, why: EngineRefusal) -> Refusal
    ensures { (objects : Schema) → result ≡ tell objects None why }
{
    match why {
        EngineRefusal::Deadlock(cycle) => Refusal::Deadlock(cycle),
        EngineRefusal::Escrow {
            column: _,
            inf,
            sup,
        } => nameless(alloc, inf, sup),
        EngineRefusal::LogFull {
            used,
            reserved,
            need,
        } => Refusal::LogFull {
            used,
            reserved,
            need,
        },
        EngineRefusal::DataFull { used, need } => Refusal::DataFull { used, need },
        EngineRefusal::TxnFull { kept, need } => Refusal::TxnFull { kept, need },
        EngineRefusal::HistoryFull { kept, need } => Refusal::HistoryFull { kept, need },
        EngineRefusal::SchemaBusy(session) => Refusal::SchemaBusy(session),
        EngineRefusal::DiskFault => Refusal::DiskFault,
        EngineRefusal::Stopped(step) => Refusal::Stopped(step),
        EngineRefusal::NoMemory => Refusal::NoMemory,
    }
}

/// How a refusal is told of a step that was to pay this delta: what the escrow refuses, with the names of the view and of
/// its column and the values of the group.
///
/// # Errors
///
/// Where there is no memory for names, which only a refusal of the escrow's has.
pub fn told_of(
    alloc: Global,
    catalog: &Catalog,
    delta: &GroupDelta,
    why: EngineRefusal,
) -> Result<Refusal, NoMemory>
    ensures told { IfOk result (λ r. r ≡ tell (schema_of catalog.now) (Some delta.now) why) }
    ensures lacking { IfErr result (λ e. IsEscrow why) }
{
    match why {
        EngineRefusal::Escrow { column, inf, sup } => {
            escrow_told(alloc, catalog, delta, column, inf, sup)
        }
        other => Ok(told_plainly(alloc, other)),
    }
}
