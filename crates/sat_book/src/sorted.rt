// Rows as records by kind. Those of an earlier version first become what the latest keeps.
ghost use Rattle.std.specs.Prelude.{◌≢◌, IfOk, IfErr, slice_get};
ghost use Rattle.sat_base.specs.Rows.{AreInOrder};
ghost use Rattle.record_rows.specs.Versions.{IsVersion};
ghost use Rattle.sat_book.specs.Opened.{AreSorted, NamesFirst};

use crate::opening::OpenErr;
use crate::sorting::sort_rows;
use crate::upgrading::{changed_rows, changes_of};
use machine_calls::Parts0;
use record_rows::{Version, version_of, versions_are_told_apart};
use sat_base::{Change, Items, Row};
use std::alloc::Global;

// The records of rows.
#[derive(Drop)]
pub(crate) struct Sorted {
    pub parts: Parts0,
    // the rows of these records
    pub rows: Items<Row>,
    // what makes them of the rows that were there: nothing, where these are the same
    pub changes: Vec<Change>,
}

// The records of rows of an earlier version.
fn sort_earlier(alloc: Global, version: Version, loaded: Items<Row>) -> Result<Sorted, OpenErr>
    requires order { AreInOrder loaded }
    requires version { IsVersion version (slice_get loaded 0) }
    requires earlier { version ≢ Version.LATEST }
    ensures ok { IfOk result (AreSorted loaded) }
    ensures bad { IfErr result (NamesFirst loaded) }
{
    versions_are_told_apart();
    let changes = changes_of(alloc, version, loaded.as_slice())?;
    let rows = changed_rows(alloc, loaded, &changes)?;
    let parts = sort_rows(alloc, rows.as_slice())?;
    Ok(Sorted {
        parts,
        rows,
        changes,
    })
}

// The records of rows of the latest version.
fn sort_latest(alloc: Global, loaded: Items<Row>) -> Result<Sorted, OpenErr>
    requires order { AreInOrder loaded }
    requires version { IsVersion Version.LATEST (slice_get loaded 0) }
    ensures ok { IfOk result (AreSorted loaded) }
    ensures bad { IfErr result (NamesFirst loaded) }
{
    let parts = sort_rows(alloc, loaded.as_slice())?;
    Ok(Sorted {
        parts,
        rows: loaded,
        changes: Vec::new(alloc),
    })
}

// The records of rows, which stand in the order of their keys.
pub(crate) fn records_of(alloc: Global, loaded: Items<Row>) -> Result<Sorted, OpenErr>
    requires { AreInOrder loaded }
    ensures ok { IfOk result (AreSorted loaded) }
    ensures bad { IfErr result (NamesFirst loaded) }
{
    let version = version_of(alloc, loaded.as_slice().first())?;
    if version.is_latest() {
        sort_latest(alloc, loaded)
    } else {
        sort_earlier(alloc, version, loaded)
    }
}
