// What a node did in a month, and what it earned.
ghost use Rattle.std.specs.Prelude.{◌≡◌, ◌≤◌, ◌++◌, length, refl};
ghost use Rattle.record_rows.specs.Bodies.{sums_bytes, parts_bytes};
ghost use Rattle.record_rows.specs.Fits.{SumsFit, PartsFit};
ghost use Rattle.record_rows.specs.Laws.Records.{sums_apart, no_sums, parts_apart, no_parts};

use crate::coded::{Coded, Spelled, Unread};
use crate::made::{Made, take_made};
use sat_base::NoMemory;
use std::alloc::Global;
use tally_payout::{Parts, Sums};

type FourAmounts = (u128, (u128, (u128, u128)));

type FiveAmounts = (u128, FourAmounts);

impl Made for Sums {
    type Fields = FourAmounts;

    ghost fields = { λ sums. (sums.get, (sums.audit, (sums.repair, sums.byte_hours))) };

    ghost bytes_of = { sums_bytes };

    fn of(given: FourAmounts) -> Option<Self> {
        let (get, (audit, (repair, byte_hours))) = given;
        Some(Sums {
            get,
            audit,
            repair,
            byte_hours,
        })
    }

    ghost spelled = { λ x. refl };
}

impl Spelled for Sums {
    ghost spelling = { sums_bytes };

    fn put(&self, out: &mut Vec<u8>) -> Result<(), NoMemory> {
        (self.get, (self.audit, (self.repair, self.byte_hours))).put(out)
    }
}

impl Coded for Sums {
    ghost fits = { SumsFit };

    fn take(alloc: Global, bytes: &[u8]) -> Result<(Self, usize), Unread> {
        take_made(alloc, bytes)
    }

    ghost apart = { sums_apart };

    ghost some = { no_sums };
}

impl Made for Parts {
    type Fields = FiveAmounts;

    ghost fields = { λ parts. (parts.get, (parts.audit, (parts.repair, (parts.storage, parts.gross)))) };

    ghost bytes_of = { parts_bytes };

    fn of(given: FiveAmounts) -> Option<Self> {
        let (get, (audit, (repair, (storage, gross)))) = given;
        Some(Parts {
            get,
            audit,
            repair,
            storage,
            gross,
        })
    }

    ghost spelled = { λ x. refl };
}

impl Spelled for Parts {
    ghost spelling = { parts_bytes };

    fn put(&self, out: &mut Vec<u8>) -> Result<(), NoMemory> {
        let behind = (self.repair, (self.storage, self.gross));
        (self.get, (self.audit, behind)).put(out)
    }
}

impl Coded for Parts {
    ghost fits = { PartsFit };

    fn take(alloc: Global, bytes: &[u8]) -> Result<(Self, usize), Unread> {
        take_made(alloc, bytes)
    }

    ghost apart = { parts_apart };

    ghost some = { no_parts };
}
