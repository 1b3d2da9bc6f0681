//! A number to which each call adds, and which answers what it held.
ghost use Rattle.std.specs.Prelude.{◌≡◌, ◌+◌, ◌%◌, ◌^◌, ◌<◌, ◌≤◌, ◌++◌, ◌∷◌, length, [], true, IfOk};
ghost use Rattle.std.specs.Vec.{vec_capacity};
ghost use Rattle.bench_desk.specs.Register.{after, replays};
ghost use Rattle.turnstile.specs.Entry.{entry_of};

use sat_base::NoMemory;
use std::alloc::Global;
use turnstile::{Entry, Turn};

#[derive(Drop)]
pub struct Register {
    pub start: u64,
    pub sum: u64,
    pub history: Vec<Entry<u64, u64>>,
    pub ghost counted: { sum ≡ after start history.items },
    pub ghost fair: { replays start history.items ≡ true },
}

impl Register {
    /// A register with room for so many calls.
    pub fn new(alloc: Global, start: u64, room: usize) -> Result<Register, NoMemory>
        ensures { IfOk result (λ r. (r.start ≡ start) × (r.history.items ≡ []) × (room ≤ vec_capacity r.history)) }
    {
        let mut history = Vec::new(alloc);
        history.reserve(room)?;
        Ok(Register {
            start,
            sum: start,
            history,
        })
    }

    /// Adds a number, and writes it down.
    pub fn add(&mut self, pass: u32, number: u64)
        requires room { length self.old.history.items < vec_capacity self.old.history }
        ensures sum { self.new.sum ≡ (self.old.sum + number) % 2 ^ 64 }
        ensures entry { self.new.history.items ≡ self.old.history.items ++ entry_of (length self.old.history.items) pass number self.old.sum ∷ [] }
        ensures start { self.new.start ≡ self.old.start }
        ensures capacity { vec_capacity self.new.history ≡ vec_capacity self.old.history }
    {
        let reply = self.sum;
        let place = self.history.len() as u64;
        self.history.push_reserved(Entry {
            place,
            pass,
            call: number,
            reply,
        });
        self.sum = reply.wrapping_add(number);
    }
}

/// What a call is answered: its place, and what the register held.
#[derive(Drop)]
pub struct Found {
    pub place: u64,
    pub was: u64,
}

impl Turn for Register {
    type Call = u64;

    type Reply = u64;

    type Answer = Found;

    type Base = u64;

    ghost base = { λ r. r.start };

    ghost nowhere = { 0 };

    ghost entries = { λ r. r.history.items };

    ghost reply = { λ a. a.was };

    ghost place = { λ a. a.place };

    ghost room = { λ r. vec_capacity r.history };

    ghost lawful = { λ start es. replays start es ≡ true };

    ghost well_formed = { λ _ _. Unit {0} };

    fn turn(&mut self, pass: u32, call: u64) -> Found {
        let place = self.history.len() as u64;
        let was = self.sum;
        self.add(pass, call);
        Found { place, was }
    }
}
