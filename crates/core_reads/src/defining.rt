//! Defs.
ghost use Rattle.std.specs.Prelude.{◌≡◌, IfOk};
ghost use Rattle.iv_meaning.specs.Objects.{schema_of};
ghost use Rattle.txn_machine.specs.Acts as act;
ghost use Rattle.txn_machine.specs.State.{State};
ghost use Rattle.txn_book.specs.Acts.{answer_of};
ghost use Rattle.core_state.specs.Stands.{Began, Told};

use core_state::CoreState;
use iv_meaning::laws::copies_law;
use iv_types::{Catalog, NoMemory, SortedMaps};
use std::alloc::Global;
use txn_book::Answer;

// A copy of the catalog, which defines the same objects.
fn copied(alloc: Global, catalog: &Catalog) -> Result<Catalog, NoMemory>
    ensures { IfOk result (λ copy. schema_of copy ≡ schema_of catalog.now) }
{
    copies_law();
    catalog.copied(alloc)
}

/// Gives a session a copy of the catalog.
///
/// # Errors
///
/// Where there is no memory for it.
pub fn defs<M: SortedMaps>(core: &CoreState<M>, session: u32) -> Result<Answer, NoMemory>
    ensures { IfOk result (λ said. (s : State) → Began M.maps M.spare M.limit core.now s session → Told M.maps M.spare M.limit s session act.Defs (answer_of said) core.now) }
{
    let _session = session;
    Ok(Answer::Defs(copied(core.alloc, &core.store.catalog)?))
}
