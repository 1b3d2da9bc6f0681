// The store of a drill.
ghost use Rattle.std.specs.Prelude.{◌≡◌, ◌≤◌, [], IfOk};
ghost use Rattle.sat_base.specs.declared.limits.TheConstants as limits;

use crate::steady::Steady;
use sat_base::{Caps, MemClock, MemWords, NoMemory, Rates, Scheme, limits};
use sat_book::Book;
use sat_init::{Setup, init};
use std::alloc::Global;

/// The moment at which a drill begins: the first one of March 2026.
pub(crate) const FIRST_MOMENT: u64 = 1_772_323_200;

/// The pieces of each segment, which is the n of the store's scheme.
pub(crate) const PIECES: u8 = 6;

// A book has room for so many entries, of which a drill makes no more than some forty thousand.
fn setup() -> Setup {
    Setup {
        secret: Some([0; 32]),
        scheme: Scheme {
            k: 2,
            m: 5,
            o: PIECES,
            n: PIECES,
            share: 16,
        },
        vet: 1,
        fresh: 0,
        rates: Rates {
            get: 20_000_000,
            audit: 10_000_000,
            repair: 10_000_000,
            storage: 1_500_000,
        },
        caps: Caps::GREATEST,
    }
}

/// Makes the store of a drill in a keeper in memory, and opens a book over it. It fails only where memory runs out.
pub(crate) fn open_book(alloc: Global) -> Result<Book<Steady>, NoMemory>
    ensures empty { IfOk result (λ book. book.history ≡ []) }
    ensures room { IfOk result (λ book. limits.TERM ≤ book.room) }
{
    let mut keeper = Steady::new(alloc);
    let mut clock = MemClock::of(vec![in alloc; FIRST_MOMENT]?);
    let mut words = MemWords::of(Vec::new(alloc), Vec::new(alloc));
    if init(alloc, &setup(), &mut keeper, &mut clock, &mut words).is_err() {
        return Err(NoMemory);
    }
    match Book::open(alloc, keeper, limits::TERM) {
        Ok(book) => Ok(book),
        Err(_) => Err(NoMemory),
    }
}
