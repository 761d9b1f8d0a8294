//! Keys of rows of a table.
ghost use Rattle.std.specs.Prelude.{◌≡◌, ◌↔◌, IsTrue, IfOk};
ghost use Rattle.iv_types.specs.Encoding.{FitAll, kinds_of, key_bytes};
ghost use Rattle.iv_meaning.specs.Schema.{key_kinds};
ghost use Rattle.txn_log.specs.Fitting.{IsKeyOf};

use crate::completed::completed;
use crate::key_of_row::is_key_of;
use iv_types::{Kind, NoMemory, TableDef, Value};
use object_kinds::{kinds_at, kinds_of};
use row_codec::{RowFault, decode_key};
use std::alloc::Global;

/// Whether some row of the table has these values in its key, of which this is the key.
fn is_completed(
    alloc: Global,
    table: &TableDef,
    kinds: &[Kind],
    values: &[Value],
    key: &[u8],
) -> Result<bool, NoMemory>
    requires kinds { kinds.now ≡ kinds_of table.now }
    requires fit { FitAll (key_kinds table.now) values.now }
    requires key { key.now ≡ key_bytes (key_kinds table.now) values.now }
    ensures { IfOk result (λ is. IsTrue is ↔ IsKeyOf table.now key.now) }
{
    let row = completed(alloc, kinds, table.primary.as_slice(), values)?;
    is_key_of(alloc, table, &row, key)
}

/// Whether it is the key of some row of the table.
pub(crate) fn is_some_key(alloc: Global, table: &TableDef, key: &[u8]) -> Result<bool, NoMemory>
    ensures { IfOk result (λ is. IsTrue is ↔ IsKeyOf table.now key.now) }
{
    let kinds = kinds_of(alloc, table)?;
    let primary = kinds_at(alloc, kinds.as_slice(), table.primary.as_slice())?;
    match decode_key(alloc, primary.as_slice(), key) {
        Ok(values) => is_completed(alloc, table, kinds.as_slice(), values.as_slice(), key),
        Err(RowFault::NoMemory) => Err(NoMemory),
        Err(RowFault::BadRow { .. }) => Ok(false),
    }
}
