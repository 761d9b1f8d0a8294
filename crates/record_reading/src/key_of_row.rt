//! Whether a key is a row's.
ghost use Rattle.std.specs.Prelude.{◌≡◌, ◌↔◌, IsTrue, IfOk};
ghost use Rattle.iv_types.specs.Encoding.{FitAll, kinds_of};
ghost use Rattle.iv_meaning.specs.Database.{key_of};

use iv_types::{NoMemory, Row, TableDef};
use object_kinds::{kinds_at, kinds_of};
use row_codec::encode_key;
use row_eval::values_at;
use std::alloc::Global;

/// Whether it is the key of this row of the table.
///
/// # Errors
///
/// Where there is no memory for it.
pub fn is_key_of(alloc: Global, table: &TableDef, row: &Row, key: &[u8]) -> Result<bool, NoMemory>
    requires { FitAll (kinds_of table.now) row.now }
    ensures { IfOk result (λ is. IsTrue is ↔ (key.now ≡ key_of table.now row.now)) }
{
    let kinds = kinds_of(alloc, table)?;
    let kinds = kinds_at(alloc, kinds.as_slice(), table.primary.as_slice())?;
    let values = values_at(alloc, row, table.primary.as_slice())?;
    let own = encode_key(alloc, kinds.as_slice(), values.as_slice())?;
    Ok(own.as_slice() == key)
}
