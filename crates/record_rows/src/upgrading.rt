// Rows of an earlier version, as the records of the latest.
ghost use Rattle.std.specs.Prelude.{◌≡◌, ◌≢◌, IfOk, IfErr, IfSome, Some};
ghost use Rattle.sat_base.specs.declared.kinds.TheConstants as kinds;
ghost use Rattle.record_rows.specs.declared.kind.RowErr.{RowErr};
ghost use Rattle.record_kinds.specs.declared.rec.Rec.TheVariants as rec;
ghost use Rattle.record_rows.specs.declared.version.Version.TheVariants as versions;
ghost use Rattle.record_rows.specs.Version1.{first_tariff};
ghost use Rattle.record_rows.specs.Versions.{AreWithin, HoldsNone, IsCause, UpgradesTo};

use crate::kind::RowErr;
use crate::kinds::settings::version1::{Settings1, read_settings};
use crate::reading::read;
use crate::version::Version;
use record_kinds::Rec;
use sat_base::{Row, Tariff, kinds};
use std::alloc::Global;

/// What becomes of a row.
#[derive(Drop)]
pub struct Upgraded {
    /// The row's own record, which has its kind and its id.
    pub rec: Rec,
    /// The record that the row implies beside it, if there is one.
    pub also: Option<Rec>,
}

/// What becomes of a row of a store of this version in the latest: `None` where it stays as it is.
///
/// # Errors
/// The row holds no record of this version, by the first cause of [`RowErr`] that holds.
pub fn upgrade(alloc: Global, version: Version, row: &Row) -> Result<Option<Upgraded>, RowErr>
    ensures found { IfOk result (UpgradesTo version row.now) }
    ensures within { IfOk result (λ up. IfSome up AreWithin) }
    ensures none { IfErr result (λ why. why ≢ RowErr.NoMemory → HoldsNone version row.now) }
    ensures cause { IfErr result (IsCause version row.now) }
{
    match version {
        Version::One => upgrade_one(alloc, row),
        Version::Two => stay(alloc, row),
    }
}

// Of version 1: settings had the rates beside them, and there were no tariffs.
fn upgrade_one(alloc: Global, row: &Row) -> Result<Option<Upgraded>, RowErr>
    ensures found { IfOk result (UpgradesTo versions.One row.now) }
    ensures cause { IfErr result (IsCause versions.One row.now) }
{
    match row.kind {
        kinds::SETTINGS => Ok(Some(upgrade_settings(read_settings(alloc, row)?))),
        kinds::TARIFF => Err(RowErr::Kind),
        _ => stay(alloc, row),
    }
}

// The rates as a tariff, from the first month on.
fn upgrade_settings(old: Settings1) -> Upgraded
    ensures { result ≡ record {
      rec = rec.Settings old.settings;
      also = Some (rec.Tariff (first_tariff old.settings old.rates));
    } }
{
    let Settings1 { settings, rates } = old;
    let tariff = Tariff {
        from: settings.first_month,
        rates,
    };
    Upgraded {
        rec: Rec::Settings(settings),
        also: Some(Rec::Tariff(tariff)),
    }
}

// Of the latest version.
fn stay(alloc: Global, row: &Row) -> Result<Option<Upgraded>, RowErr>
    ensures found { IfOk result (UpgradesTo versions.Two row.now) }
    ensures cause { IfErr result (IsCause versions.Two row.now) }
{
    let _ = read(alloc, row)?;
    Ok(None)
}
