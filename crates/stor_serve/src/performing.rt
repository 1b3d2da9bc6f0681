// What is done for a request.
ghost use Rattle.std.specs.Prelude.{◌≡◌, Ok};
ghost use Rattle.stor_serve.specs.Performing.{Follows, Gives, Keeps, TakesFor};

use order_uses::{TakeErr, Uses, Wanted};
use sat_base::{Fetched, Keeper, Stored};
use std::alloc::Global;
use stor_base::Pieces;
use stor_wire::{Answer, Request};

/// Whether a request was taken, and what it is answered.
#[derive(Drop)]
pub(crate) struct Performed {
    pub took: Result<(), TakeErr>,
    pub answer: Answer,
}

/// Counts the bytes of a request, and where that is done gives or keeps them.
pub(crate) fn perform<K: Keeper, P: Pieces>(
    alloc: Global,
    uses: &mut Uses<K>,
    pieces: &mut P,
    now: u64,
    request: &Request,
) -> Performed
    ensures takes { TakesFor K.about now request.now uses.old result.took uses.new }
    ensures follows { Follows request.now result.took
        (record { held = P.held pieces.old; faults = P.faults pieces.old })
        (record { held = P.held pieces.new; faults = P.faults pieces.new }) result.answer }
{
    match request {
        Request::Fetch { wanted, offset } => {
            let took = uses.take(now, wanted);
            let answer = match took {
                Ok(()) => give(alloc, pieces, wanted, *offset),
                Err(err) => Answer::Refused(err),
            };
            Performed { took, answer }
        }
        Request::Put { wanted, piece } => {
            let took = uses.take(now, wanted);
            let answer = match took {
                Ok(()) => keep(alloc, pieces, wanted, piece.as_slice()),
                Err(err) => Answer::Refused(err),
            };
            Performed { took, answer }
        }
    }
}

// Gives a range of a piece.
fn give<P: Pieces>(alloc: Global, pieces: &mut P, wanted: &Wanted, offset: u64) -> Answer
    ensures { Gives wanted.now offset
        (record { held = P.held pieces.old; faults = P.faults pieces.old })
        (record { held = P.held pieces.new; faults = P.faults pieces.new }) result }
{
    match pieces.read(alloc, wanted.segment, wanted.index, offset, wanted.len) {
        Fetched::Share(bytes) => Answer::Share(bytes),
        Fetched::Missing => Answer::Missing,
        Fetched::NoAnswer => Answer::Store,
        Fetched::NoMemory => Answer::NoMemory,
    }
}

// Keeps a piece.
fn keep<P: Pieces>(alloc: Global, pieces: &mut P, wanted: &Wanted, bytes: &[u8]) -> Answer
    ensures { Keeps wanted.now bytes.now
        (record { held = P.held pieces.old; faults = P.faults pieces.old })
        (record { held = P.held pieces.new; faults = P.faults pieces.new }) result }
{
    match pieces.write(alloc, wanted.segment, wanted.index, bytes) {
        Stored::Kept => Answer::Kept,
        Stored::NoAnswer => Answer::Store,
        Stored::NoMemory => Answer::NoMemory,
    }
}
