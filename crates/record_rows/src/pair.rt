// One spelling behind the other.
ghost use Rattle.std.specs.Prelude.{◌++◌};
ghost use Rattle.record_rows.specs.Laws.Apart.{pair_apart};

use crate::coded::{Coded, Spelled, Unread};
use sat_base::NoMemory;
use std::alloc::Global;

impl<A: Spelled, B: Spelled> Spelled for (A, B) {
    ghost spelling = { λ p. A.spelling p.0 ++ B.spelling p.1 };

    ghost is_short = { λ p. A.is_short p.0 × B.is_short p.1 };

    fn put(&self, out: &mut Vec<u8>) -> Result<(), NoMemory> {
        self.0.put(out)?;
        self.1.put(out)
    }
}

impl<A: Coded, B: Coded> Coded for (A, B) {
    ghost fits = { λ p. A.fits p.0 × B.fits p.1 };

    fn take(alloc: Global, bytes: &[u8]) -> Result<(Self, usize), Unread> {
        let (a, n) = A::take(alloc, bytes)?;
        let (b, m) = B::take(alloc, &bytes[n..])?;
        Ok(((a, b), n + m))
    }

    ghost apart = { pair_apart A.apart B.apart };

    ghost some = { ((A.some.0, B.some.0), (A.some.1, B.some.1)) };
}
