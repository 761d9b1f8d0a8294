//! The rows that a statement is about.
ghost use Rattle.std.specs.Prelude.{◌≡◌, IfOk, Option};
ghost use Rattle.iv_types.specs.Trees.{perhaps_tree};
ghost use Rattle.row_eval.specs.Grouped.{Gives};
ghost use Rattle.statement_law.specs.Changing.{chosen_by};

use iv_types::{Expr, NoMemory, Refusal, RowList};
use row_eval::{Combination, is_chosen};
use std::alloc::Global;
use std::collections::VecDeque;

/// What was found, or nothing where the statement is refused for it.
///
/// # Errors
///
/// Where memory ran out.
pub fn unless_refused<T: Drop>(outcome: Result<T, Refusal>) -> Result<Option<T>, NoMemory>
    ensures { (found : Option T) → Gives found outcome → IfOk result (λ told. told ≡ found) }
{
    match outcome {
        Ok(found) => Ok(Some(found)),
        Err(Refusal::NoMemory) => Err(NoMemory),
        Err(refusal) => {
            refusal.let_go();
            Ok(None)
        }
    }
}

/// Those of some rows of which a condition is true, if there is one.
///
/// # Errors
///
/// `NumberRange` where the condition is refused for one of them; `NoMemory`.
pub fn chosen(alloc: Global, condition: &Option<Expr>, rows: RowList) -> Result<RowList, Refusal>
    ensures { Gives (chosen_by (perhaps_tree condition.now) rows) result }
{
    let mut rows = VecDeque::from_vec(rows.into_vec());
    let mut chosen = RowList::new(alloc);
    while let Some(row) = rows.pop_front() {
        if is_chosen(condition, Combination::One(&row))? {
            chosen.push(row)?;
        }
    }
    Ok(chosen)
}
