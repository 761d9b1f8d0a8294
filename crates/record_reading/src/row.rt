//! Rows of a table under a key, read from their bytes.
ghost use Rattle.std.specs.Prelude.{◌≡◌, Option, Some, IfOk, IfErr};
ghost use Rattle.std.specs.Option.{option_copied};
ghost use Rattle.iv_types.specs.Encoding.{FitAll, kinds_of, row_bytes};
ghost use Rattle.iv_meaning.specs.Database.{Row, key_of};
ghost use Rattle.record_reading.specs.Changes.{Refuses, IsRowOf};

use crate::fault::ReadFault;
use crate::key_of_row::is_key_of;
use iv_types::{NoMemory, Row, TableDef};
use row_codec::{RowFault, decode_row};
use std::alloc::Global;

/// The row, if it stands under this key.
fn row_under(alloc: Global, table: &TableDef, key: &[u8], row: Row) -> Result<Row, ReadFault>
    requires { FitAll (kinds_of table.now) row }
    ensures ok { IfOk result (λ same. (same ≡ row) × (key.now ≡ key_of table.now row)) }
    ensures err { IfErr result (Refuses (key.now ≡ key_of table.now row)) }
{
    match is_key_of(alloc, table, &row, key) {
        Ok(true) => Ok(row),
        Ok(false) => Err(ReadFault::Misfit),
        Err(NoMemory) => Err(ReadFault::NoMemory),
    }
}

/// The row of these bytes, if it is one of the table under this key.
fn read_row(alloc: Global, table: &TableDef, key: &[u8], bytes: &[u8]) -> Result<Row, ReadFault>
    ensures ok { IfOk result (λ row. IsRowOf table.now key.now (Some bytes.now) (Some row)) }
    ensures err { IfErr result (Refuses ((row : Row) × IsRowOf table.now key.now (Some bytes.now) (Some row))) }
{
    match decode_row(alloc, table, bytes) {
        Ok(row) => row_under(alloc, table, key, row),
        Err(RowFault::NoMemory) => Err(ReadFault::NoMemory),
        Err(RowFault::BadRow { .. }) => Err(ReadFault::Misfit),
    }
}

/// The row of these bytes, if it is one of the table under this key, and no row where there are no bytes.
pub(crate) fn row_or_none(
    alloc: Global,
    table: &TableDef,
    key: &[u8],
    bytes: Option<&[u8]>,
) -> Result<Option<Row>, ReadFault>
    ensures ok { IfOk result (λ row. IsRowOf table.now key.now (option_copied bytes.entry) row) }
    ensures err { IfErr result (Refuses ((row : Option Row) × IsRowOf table.now key.now (option_copied bytes.entry) row)) }
{
    match bytes {
        Some(bytes) => match read_row(alloc, table, key, bytes) {
            Ok(row) => Ok(Some(row)),
            Err(fault) => Err(fault),
        },
        None => Ok(None),
    }
}
