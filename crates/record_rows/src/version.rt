// Versions of a store, which its first row tells apart.
ghost use Rattle.std.specs.Prelude.{◌≡◌, ◌↔◌, IsTrue, IfOk, option_copied};
ghost use Rattle.record_rows.specs.Versions.{IsVersion};

use crate::kind::RowErr;
use crate::kinds::settings::version1::read_settings;
use sat_base::{NoMemory, Row, kinds};
use std::alloc::Global;

/// The version of a store.
#[derive(Clone, Copy, Debug, PartialEq, Eq)]
pub enum Version {
    /// Settings have no version and the rates of every month, and there are no tariffs.
    One,
    /// Settings have a version, and rates stand in tariffs.
    Two,
}

impl Version {
    /// The version whose rows are read and written.
    pub const LATEST: Version = Version::Two;

    /// Whether rows of this version stay as they are.
    pub fn is_latest(self) -> bool
        ensures { IsTrue result ↔ (self ≡ Version.LATEST) }
    {
        self == Version::LATEST
    }
}

/// The version of a store that begins with this row: the latest, where the row is none of an earlier one.
pub fn version_of(alloc: Global, first: Option<&Row>) -> Result<Version, NoMemory>
    ensures { IfOk result (λ version. IsVersion version (option_copied first.entry)) }
{
    let Some(row) = first else {
        return Ok(Version::LATEST);
    };
    if row.kind != kinds::SETTINGS {
        return Ok(Version::Two);
    }
    match read_settings(alloc, row) {
        Ok(_) => Ok(Version::One),
        Err(RowErr::NoMemory) => Err(NoMemory),
        Err(_) => Ok(Version::Two),
    }
}
