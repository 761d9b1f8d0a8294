//! Deltas of groups.
ghost use Rattle.std.specs.Prelude.{◌≡◌, IfOk, IfSome, IfNone};
ghost use Rattle.iv_meaning.specs.Objects.{schema_of};
ghost use Rattle.txn_log.specs.Replay.{Added};
ghost use Rattle.txn_log.specs.Fitting.{IsKnown};
ghost use Rattle.record_reading.specs.Groups.{delta};

use crate::group::read_group;
use iv_types::{Bytes, Catalog, GroupDelta, NoMemory, NumberList};
use std::alloc::Global;

/// The delta of this count and these sums for a group of a view.
fn made_delta(
    alloc: Global,
    view: u32,
    group: &[u8],
    count: i8,
    sums: &[i128],
) -> Result<GroupDelta, NoMemory>
    ensures { IfOk result (λ d. d ≡ delta view group.now count sums.now) }
{
    let group = Bytes::from_vec(Vec::from_slice(alloc, group)?);
    let sums = NumberList::from_vec(Vec::from_slice(alloc, sums)?);
    Ok(GroupDelta {
        view,
        group,
        count,
        sums,
    })
}

/// The delta that a Delta says, if its group is one of its view and it has as many sums as the view.
///
/// # Errors
///
/// Where there is no memory for it.
pub fn read_delta(
    alloc: Global,
    catalog: &Catalog,
    view: u32,
    group: &[u8],
    count: i8,
    sums: &[i128],
) -> Result<Option<GroupDelta>, NoMemory>
    ensures some { IfOk result (λ found. IfSome found (λ d. (d ≡ delta view group.now count sums.now) × IsKnown (schema_of catalog.now) (Added d))) }
    ensures none { IfOk result (λ found. IfNone found (IsKnown (schema_of catalog.now) (Added (delta view group.now count sums.now)) → ⊥)) }
{
    match read_group(alloc, catalog, view, group)? {
        Some(many) => {
            if many != sums.len() {
                return Ok(None);
            }
            Ok(Some(made_delta(alloc, view, group, count, sums)?))
        }
        None => Ok(None),
    }
}
