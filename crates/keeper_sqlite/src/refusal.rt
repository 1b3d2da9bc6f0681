// What an error of the database is to a keeper.
ghost use Rattle.std.specs.Prelude.{◌≡◌, ◌≤◌};
ghost use Rattle.sat_base.specs.Outside.{counted};
ghost use Rattle.keeper_sqlite.specs.Answers.{refusal_of, is_fault};

use sqlite::{Error, ErrorCode};

/// Why a connection is refused.
#[derive(Clone, Copy)]
pub enum Refused {
    /// The database failed, or it isn't one that can have the table.
    Fault,
    /// There was no memory.
    NoMemory,
}

/// Running out of memory or a fault, which is counted.
pub(crate) fn refusal(error: Error, faults: &mut u64) -> Refused
    ensures cause { result ≡ refusal_of error }
    ensures counted { faults.new ≡ counted (is_fault result) faults.old }
    ensures rises { faults.old ≤ faults.new }
{
    if matches!(error, Error::SqliteFailure(ErrorCode::OutOfMemory)) {
        return Refused::NoMemory;
    }
    *faults = faults.saturating_add(1);
    Refused::Fault
}
