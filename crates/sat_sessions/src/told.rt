// What a session tells.
use http_edge::EdgeErr;
use machine_calls::{Call, Reply};
use sat_book::Origin;
use turnstile::Pass;

/// A pass at a desk of a book over a `K`.
pub type BookPass<K> = Pass<Call, Reply, Option<Origin<K>>>;

/// How a session ended. `sent` tells whether all of its answer was written; where it wasn't, a put failed.
#[derive(Clone, Copy)]
pub enum SessionEnd {
    /// Its call is the entry at this place, whose reply it was told.
    Entered { place: u64, sent: bool },
    /// Its bytes asked nothing, or memory ran out before its turn.
    Edge { error: EdgeErr, sent: bool },
    /// A read failed, and nothing was said.
    ReadFault,
    /// Random words ran out.
    WordsFault { sent: bool },
    /// The ticket is at or above the term, and the call wasn't entered.
    TermFull { ticket: u64, sent: bool },
}

/// One connection of a lane: its number, from 0, and how it ended.
#[derive(Clone, Copy)]
pub struct Session {
    pub number: u64,
    pub end: SessionEnd,
}

/// What a session leaves: its pass, what it tells, and whether it was told that the machine stops or has stopped.
pub struct SessionWorked<K> {
    pub pass: BookPass<K>,
    pub session: Session,
    pub stops: bool,
}
