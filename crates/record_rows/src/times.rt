// Moments, months and hours.
ghost use Rattle.std.specs.Prelude.{◌≡◌, ◌≤◌, ◌++◌, length};
ghost use Rattle.std.proofs.Common.{rules};
ghost use Rattle.sat_base.specs.Moments.{IsMoment};
ghost use Rattle.sat_base.specs.declared.limits.TheConstants as limits;
ghost use Rattle.sat_base.specs.Limits.{IsMonthWithin};
ghost use Rattle.record_rows.specs.Numbers.{be32, be64};
ghost use Rattle.record_rows.specs.Laws.Ids.{moment_apart, month_apart, month_order, hour_apart, hour_order};

use crate::coded::{Coded, Ordered, Spelled, Unread};
use sat_base::{Hour, Moment, Month, NoMemory, limits};
use std::alloc::Global;

impl Spelled for Moment {
    ghost spelling = { be64 };

    fn put(&self, out: &mut Vec<u8>) -> Result<(), NoMemory> {
        self.seconds().put(out)
    }
}

impl Coded for Moment {
    ghost fits = { IsMoment };

    fn take(alloc: Global, bytes: &[u8]) -> Result<(Self, usize), Unread> {
        let (seconds, size) = u64::take(alloc, bytes)?;
        let moment = Moment::of(seconds);
        if moment.seconds() != seconds {
            return Err(Unread::Form);
        }
        Ok((moment, size))
    }

    ghost apart = { moment_apart };

    ghost some = { (0, Prim.search rules) };
}

impl Spelled for Month {
    ghost spelling = { λ month. be32 month.0 };

    fn put(&self, out: &mut Vec<u8>) -> Result<(), NoMemory> {
        self.0.put(out)
    }
}

impl Coded for Month {
    ghost fits = { λ month. IsMonthWithin month.0 };

    fn take(alloc: Global, bytes: &[u8]) -> Result<(Self, usize), Unread> {
        let (number, size) = u32::take(alloc, bytes)?;
        let month = Month(number);
        if !month.is_within() {
            return Err(Unread::Form);
        }
        Ok((month, size))
    }

    ghost apart = { month_apart };

    ghost some = { (record { 0 = limits.FIRST_MONTH }, Prim.search rules) };
}

impl Ordered for Month {
    ghost rank = { λ month. month.0 };

    ghost order = { month_order };
}

impl Spelled for Hour {
    ghost spelling = { λ hour. be64 hour.0 };

    fn put(&self, out: &mut Vec<u8>) -> Result<(), NoMemory> {
        self.0.put(out)
    }
}

impl Coded for Hour {
    ghost fits = { λ hour. hour.0 ≤ limits.LAST_HOUR };

    fn take(alloc: Global, bytes: &[u8]) -> Result<(Self, usize), Unread> {
        let (number, size) = u64::take(alloc, bytes)?;
        if number > limits::LAST_HOUR {
            return Err(Unread::Form);
        }
        Ok((Hour(number), size))
    }

    ghost apart = { hour_apart };

    ghost some = { (record { 0 = 0 }, Prim.search rules) };
}

impl Ordered for Hour {
    ghost rank = { λ hour. hour.0 };

    ghost order = { hour_order };
}
