// Storage nodes of the network.
ghost use Rattle.std.specs.Prelude.{◌≡◌, ◌≤◌, ◌^◌, ◌-◌, ℕ, [], ◌∷◌, IfOk, OnOk, OnErr, count_by, length};
ghost use Rattle.std.specs.List.{AllZip};
ghost use Rattle.sat_base.specs.Outside.{CountsExactly, with_end};
ghost use Rattle.sat_base.specs.Nodes.{Fetches, FetchesWithin, FetchesAll, Stores, AsksSome, CountsUnanswered, fetch_asks, put_asks, is_unanswered, is_unstored, is_out_of_memory};
ghost use Rattle.node_wire.specs.Answers.{IsHeardFetch, IsHeardPut, no_asks, no_held};
ghost use Rattle.gather.specs.Rounds.{TakenAs, TakenFrom};
ghost use Rattle.gather.specs.Counting.{HeardAll, raised_by};

use crate::patience::Patience;
use crate::round::{Heard, HeardAt, fetch_round, put_round};
use node_wire::{fetched, stored};
use sat_base::{Ask, Fetched, Items, NoMemory, Nodes, Service, Stored};
use std::alloc::{AllocGlobal, Global};
use std::io;
use std::io::ErrorKind;
use std::marker::Model;
use std::net::Net;
use std::random::RandomSource;
use std::sync::Wait;
use std::time::{Clock, Duration};

// For how many seconds a node is asked at once.
const LIMIT: u64 = 10;

/// Storage nodes of the network, each asked by a connection of its own. `fetch_all` asks all at once, on this thread.
/// Contracts see how many asks got no answer, up to 2^64 - 1.
///
/// An ask whose node is silent for ten seconds gets no answer, and so does one whose order has taken thirty over all asks
/// with it, and each where no event loop can be made. What an order has taken is forgotten once others are asked with.
#[derive(Drop)]
pub struct TokioNodes<R: Drop> {
    rt: R,
    patience: Patience,
    service: Option<Service>,
    faults: u64,
}

impl<R: Drop> Model for TokioNodes<R> {
    ghost Value = { ℕ };

    ghost view = { λ n. n.faults };
}

impl<R: Drop> TokioNodes<R> {
    /// Nodes that left no ask without an answer.
    pub fn new(rt: R) -> Self
        ensures { result ≡ 0 }
    {
        TokioNodes::within(rt, Duration::from_secs(LIMIT))
    }

    /// The same, where a node is asked for so long at most, and for three times as long over all asks with one order.
    pub fn within(rt: R, limit: Duration) -> Self
        ensures { result ≡ 0 }
    {
        TokioNodes {
            rt,
            patience: Patience::new(limit),
            service: None,
            faults: 0,
        }
    }

    /// The nodes, as those of a service: once it has stopped no ask is made, and each goes without an answer.
    pub fn served(self, service: Service) -> Self
        ensures { result ≡ self }
    {
        TokioNodes {
            rt: self.rt,
            patience: self.patience,
            service: Some(service),
            faults: self.faults,
        }
    }

    // Whether its service has stopped.
    fn has_stopped(&self) -> bool {
        match &self.service {
            Some(service) => service.has_stopped(),
            None => false,
        }
    }

    /// How many asks got no answer, up to 2^64 - 1.
    pub fn faults(&self) -> u64
        ensures { result ≡ self.now }
    {
        self.faults
    }
}

// The answer that was heard.
fn answer_of(alloc: Global, heard: Heard) -> Fetched
    ensures { TakenAs heard result }
{
    match heard {
        Ok((outcome, reading)) => fetched(alloc, outcome, &reading),
        Err(_elapsed) => Fetched::NoAnswer,
    }
}

// The answers that were heard.
fn answers_of(alloc: Global, heard: Vec<HeardAt>) -> Result<Vec<Fetched>, NoMemory>
    ensures each { IfOk result (λ answers. AllZip TakenFrom heard.items answers.items) }
    ensures none { IfOk result (λ answers. count_by is_out_of_memory answers.items ≡ 0) }
{
    let mut answers = Vec::with_capacity(alloc, heard.len())?;
    for one in heard {
        let answer = answer_of(alloc, one.0);
        if is_memory(&answer) {
            return Err(NoMemory);
        }
        answers.push_reserved(answer);
    }
    Ok(answers)
}

// No answer to any ask.
fn no_answers(alloc: Global, asked: &[Ask]) -> Result<Vec<Fetched>, NoMemory>
    ensures { IfOk result (λ answers. HeardAll asked.now answers.items) }
{
    let mut answers = Vec::with_capacity(alloc, asked.len())?;
    for _ in asked {
        answers.push_reserved(Fetched::NoAnswer);
    }
    Ok(answers)
}

// Whether memory ran out for an answer.
fn is_memory(answer: &Fetched) -> bool
    ensures { result ≡ is_out_of_memory answer.now }
{
    matches!(answer, Fetched::NoMemory)
}

// Whether memory ran out for a round.
fn wants_memory(error: &io::Error) -> bool {
    error.kind() == ErrorKind::OutOfMemory
}

// Asks for all pieces at once.
fn ask_all<R>(
    rt: &R,
    alloc: Global,
    patience: &mut Patience,
    asked: &[Ask],
) -> Result<Vec<Fetched>, NoMemory>
where
    R: Wait + Clock + Net + RandomSource + AllocGlobal,
    ensures { IfOk result (λ answers. HeardAll asked.now answers.items) }
{
    match fetch_round(rt, patience, asked) {
        Ok(heard) => answers_of(alloc, heard),
        Err(e) if wants_memory(&e) => Err(NoMemory),
        Err(_) => no_answers(alloc, asked),
    }
}

// Asks a node to keep a piece.
fn ask_to_keep<R>(rt: &R, limit: Duration, ask: &Ask, piece: &[u8]) -> Stored
where
    R: Wait + Clock + Net + RandomSource + AllocGlobal,
    ensures { IsHeardPut result }
{
    match put_round(rt, limit, ask, piece) {
        Ok(Ok((outcome, _reading))) => stored(outcome),
        Ok(Err(_elapsed)) => Stored::NoAnswer,
        Err(e) if wants_memory(&e) => Stored::NoMemory,
        Err(_) => Stored::NoAnswer,
    }
}

// The one answer.
fn only(mut answers: Vec<Fetched>) -> Fetched
    requires { length answers.items ≡ 1 }
    ensures { answers.items ≡ result ∷ [] }
{
    match answers.pop() {
        Some(answer) => answer,
        None => unreachable!(),
    }
}

// How many of these are no answer.
fn unanswered(answers: &[Fetched]) -> usize
    ensures { result ≡ count_by is_unanswered answers.now }
{
    answers
        .iter()
        .filter(|answer| matches!(answer, Fetched::NoAnswer))
        .count()
}

impl<R> TokioNodes<R>
where
    R: Wait + Clock + Net + RandomSource + AllocGlobal + Drop,
{
    // Asks for all pieces at once, and counts those that no answer came to.
    fn answers(&mut self, alloc: Global, asked: &[Ask]) -> Result<Vec<Fetched>, NoMemory>
        ensures ok { IfOk result (λ answers. HeardAll asked.now answers.items) }
        ensures count { IfOk result (λ answers. self.new ≡ raised_by (count_by is_unanswered answers.items) self.old) }
        ensures up { self.old ≤ self.new }
        ensures err { OnErr result (self.new ≡ self.old) }
    {
        let answers = if self.has_stopped() {
            no_answers(alloc, asked)?
        } else {
            ask_all(&self.rt, alloc, &mut self.patience, asked)?
        };
        self.faults = self.faults.saturating_add(unanswered(&answers) as u64);
        Ok(answers)
    }

    // Asks for one piece.
    fn answer(&mut self, alloc: Global, ask: &Ask) -> Fetched
        ensures heard { IsHeardFetch ask.now result }
        ensures count { CountsExactly (is_unanswered result) self.old self.new }
    {
        match self.answers(alloc, &[*ask]) {
            Ok(answers) => only(answers),
            Err(NoMemory) => Fetched::NoMemory,
        }
    }
}

impl<R> Nodes for TokioNodes<R>
where
    R: Wait + Clock + Net + RandomSource + AllocGlobal + Drop + Send,
{
    ghost held = { λ _. no_held };

    ghost asks = { λ _. no_asks };

    ghost faults = { λ n. n };

    fn fetch(&mut self, alloc: Global, ask: &Ask) -> Fetched
        ensures told { Fetches no_held ask.now result }
        ensures within { FetchesWithin ask.now result }
        ensures held { no_held ≡ no_held }
        ensures asks { no_asks ≡ with_end no_asks (fetch_asks ask.now result) }
        ensures faults { CountsExactly (is_unanswered result) self.old self.new }

        // Beside what all nodes promise: it is what the bytes of an answer say.
        ensures heard { IsHeardFetch ask.now result }
    {
        self.answer(alloc, ask)
    }

    fn put(&mut self, alloc: Global, ask: &Ask, bytes: &[u8]) -> Stored
        ensures told { Stores no_held ask.now bytes.now result no_held }
        ensures asks { no_asks ≡ with_end no_asks (put_asks ask.now result) }
        ensures faults { CountsExactly (is_unstored result) self.old self.new }

        // Beside what all nodes promise: it is what the bytes of an answer say.
        ensures heard { IsHeardPut result }
    {
        let stored = if self.has_stopped() {
            Stored::NoAnswer
        } else {
            ask_to_keep(&self.rt, self.patience.limit(), ask, bytes)
        };
        if stored == Stored::NoAnswer {
            self.faults = self.faults.saturating_add(1);
        }
        stored
    }

    fn fetch_all(&mut self, alloc: Global, asked: &[Ask]) -> Result<Items<Fetched>, NoMemory>
        ensures answers { IfOk result (FetchesAll no_held asked.now) }
        ensures unanswered { IfOk result (λ answers. CountsUnanswered answers self.old self.new) }
        ensures counts { self.old ≤ self.new }
        ensures last { self.old ≡ 2 ^ 64 - 1 → self.new ≡ 2 ^ 64 - 1 }
        ensures held { no_held ≡ no_held }
        ensures asks { OnOk result (no_asks ≡ with_end no_asks asked.now) }
        ensures err { OnErr result (AsksSome no_asks asked.now no_asks) }

        // Beside what all nodes promise: each is what the bytes of an answer say, the count rises by those without one,
        // and where memory runs out it stays.
        ensures heard { IfOk result (λ answers. AllZip IsHeardFetch asked.now answers) }
        ensures exact { IfOk result (λ answers. self.new ≡ raised_by (count_by is_unanswered answers) self.old) }
        ensures kept { OnErr result (self.new ≡ self.old) }
    {
        let answers = self.answers(alloc, asked)?;
        Ok(Items::of(answers))
    }
}
