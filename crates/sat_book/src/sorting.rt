// The records of rows of the latest version, by kind.
ghost use Rattle.std.specs.Prelude.{◌≡◌, IfErr, IfOk, OnOk};
ghost use Rattle.sat_base.specs.Rows.{AreInOrder};
ghost use Rattle.sat_book.specs.ByKind.{AreRecordsOf, HasNoneBehind};
ghost use Rattle.sat_book.specs.Opened.{AddsRow, Names, NamesFirstIn, Refuses};

use crate::adding::add;
use crate::opening::OpenErr;
use machine_calls::Parts0;
use record_rows::{RowErr, Version, read};
use sat_base::Row;
use std::alloc::Global;

// A row that holds no record is named.
pub(crate) fn bad_row(alloc: Global, row: &Row) -> OpenErr
    ensures { Names row.now result }
{
    match row.id.copy(alloc) {
        Ok(id) => OpenErr::BadRow { kind: row.kind, id },
        Err(_) => OpenErr::NoMemory,
    }
}

// Reads a row, and adds its record behind those of its kind.
fn read_into(alloc: Global, parts: &mut Parts0, row: &Row) -> Result<(), OpenErr>
    requires { HasNoneBehind row.now.kind parts.old }
    ensures ok { OnOk result (AddsRow row.now parts.old parts.new) }
    ensures bad { IfErr result (Refuses Version.LATEST row.now) }
{
    match read(alloc, row) {
        Ok(rec) => Ok(add(parts, rec)?),
        Err(RowErr::NoMemory) => Err(OpenErr::NoMemory),
        Err(_) => Err(bad_row(alloc, row)),
    }
}

// Reads rows in the order of their keys.
pub(crate) fn sort_rows(alloc: Global, rows: &[Row]) -> Result<Parts0, OpenErr>
    requires { AreInOrder rows.now }
    ensures ok { IfOk result (AreRecordsOf rows.now) }
    ensures bad { IfErr result (NamesFirstIn Version.LATEST rows.now) }
{
    let mut parts = Parts0::new(alloc);
    for row in rows {
        read_into(alloc, &mut parts, row)?;
    }
    Ok(parts)
}
