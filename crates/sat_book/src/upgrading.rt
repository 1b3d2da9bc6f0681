// Rows of an earlier version of a store, as those of the latest.
ghost use Rattle.std.specs.Prelude.{◌≡◌, ◌++◌, Some, IfErr, IfOk, OnOk};
ghost use Rattle.sat_base.specs.declared.rows.Change.TheVariants.{Put};
ghost use Rattle.sat_base.specs.Rows.{AreInOrder, AreThe, changed, rows_of};
ghost use Rattle.record_rows.specs.Fits.{Fits};
ghost use Rattle.record_rows.specs.Spelling.{row_of};
ghost use Rattle.record_rows.specs.Versions.{AreWithin};
ghost use Rattle.sat_book.specs.Opened.{AddsChanges, AreChanges, NamesFirstIn, Refuses, puts};

use crate::opening::OpenErr;
use crate::sorting::bad_row;
use record_rows::{Rec, RowErr, Upgraded, Version, upgrade, write};
use sat_base::{Change, Committed, Items, Keeper, KeeperMem, Loaded, NoMemory, Row};
use std::alloc::Global;

fn put(alloc: Global, rec: &Rec) -> Result<Change, NoMemory>
    requires { Fits rec.now }
    ensures { IfOk result (λ change. change ≡ Put (row_of rec.now)) }
{
    Ok(Change::Put(write(alloc, rec)?))
}

// Adds the changes by which a row becomes another.
fn put_upgraded(alloc: Global, up: &Upgraded, changes: &mut Vec<Change>) -> Result<(), NoMemory>
    requires { AreWithin up.now }
    ensures { OnOk result (changes.new.items ≡ changes.old.items ++ puts (Some up.now)) }
{
    changes.push(put(alloc, &up.rec)?)?;
    match &up.also {
        Some(also) => Ok(changes.push(put(alloc, also)?)?),
        None => Ok(()),
    }
}

// Adds the changes of a row. One that holds no record of the version is named.
fn upgrade_row(
    alloc: Global,
    version: Version,
    row: &Row,
    changes: &mut Vec<Change>,
) -> Result<(), OpenErr>
    ensures ok { OnOk result (AddsChanges version row.now changes.old.items changes.new.items) }
    ensures bad { IfErr result (Refuses version row.now) }
{
    match upgrade(alloc, version, row) {
        Ok(None) => Ok(()),
        Ok(Some(up)) => Ok(put_upgraded(alloc, &up, changes)?),
        Err(RowErr::NoMemory) => Err(OpenErr::NoMemory),
        Err(_) => Err(bad_row(alloc, row)),
    }
}

// The changes of all rows of a version.
pub(crate) fn changes_of(
    alloc: Global,
    version: Version,
    rows: &[Row],
) -> Result<Vec<Change>, OpenErr>
    ensures ok { IfOk result (λ changes. AreChanges version rows.now changes.items) }
    ensures bad { IfErr result (NamesFirstIn version rows.now) }
{
    let mut changes = Vec::new(alloc);
    for row in rows {
        upgrade_row(alloc, version, row, &mut changes)?;
    }
    Ok(changes)
}

// The rows after the changes, as a keeper in memory makes them.
pub(crate) fn changed_rows(
    alloc: Global,
    rows: Items<Row>,
    changes: &[Change],
) -> Result<Items<Row>, NoMemory>
    requires { AreInOrder rows }
    ensures are { IfOk result (AreThe (changed changes.now (rows_of rows))) }
    ensures ordered { IfOk result AreInOrder }
{
    let mut keeper = KeeperMem::of(rows.into_vec(), Vec::new(alloc));
    match keeper.commit(alloc, changes) {
        Committed::Done => {}
        Committed::Fault | Committed::NoMemory => return Err(NoMemory),
    }
    match keeper.load(alloc) {
        Loaded::Rows(all) => Ok(all),
        Loaded::Fault | Loaded::NoMemory => Err(NoMemory),
    }
}
