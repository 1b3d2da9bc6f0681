// What was heard, as the answers of nodes.
ghost use Rattle.std.specs.Prelude.{◌≡◌, ◌⊎◌};
ghost use Rattle.node_wire.specs.Answers.{fetched_of, stored_of};
ghost use Rattle.node_wire.specs.Readings.{HoldsShare, said_of};

use crate::reading::{Outcome, Reading};
use sat_base::{Fetched, Items, Stored};
use std::alloc::Global;

/// What a fetch comes to whose reading ended so: `NoMemory` only where the share can't be copied.
pub fn fetched(alloc: Global, outcome: Outcome, reading: &Reading) -> Fetched
    ensures { HoldsShare reading.now → (result ≡ fetched_of (said_of reading.now outcome)) ⊎ (result ≡ Fetched.NoMemory) }
{
    match outcome {
        Outcome::Share => match Vec::from_slice(alloc, reading.share()) {
            Ok(bytes) => Fetched::Share(Items::of(bytes)),
            Err(_) => Fetched::NoMemory,
        },
        Outcome::Missing => Fetched::Missing,
        Outcome::Kept | Outcome::NoAnswer => Fetched::NoAnswer,
    }
}

/// What a put comes to whose reading ended so.
pub fn stored(outcome: Outcome) -> Stored
    ensures { result ≡ stored_of outcome }
{
    match outcome {
        Outcome::Kept => Stored::Kept,
        Outcome::Share | Outcome::Missing | Outcome::NoAnswer => Stored::NoAnswer,
    }
}
