// The bytes of an answer, as they come.
ghost use Rattle.std.specs.Prelude.{ℕ, List, Bool, ◌≡◌, ◌≤◌, ◌+◌, ◌++◌, length, false, true, Option, Some, IfOk};
ghost use Rattle.node_wire.specs.Heard.{Heard, Said, share, asked_len};

use crate::head::{Question, Says, head_of};
use http_parts::MAX_HEAD;
use sat_base::NoMemory;
use std::alloc::Global;

/// What an answer comes to.
#[derive(Clone, Copy, Debug, PartialEq, Eq)]
pub enum Outcome {
    /// The bytes that were asked for, or some of them.
    Share,
    /// The node doesn't hold the piece.
    Missing,
    /// The node keeps the piece.
    Kept,
    /// No answer, or another than these.
    NoAnswer,
}

/// What a piece of an answer decides.
#[derive(Clone, Copy, Debug, PartialEq, Eq)]
pub enum Fed {
    /// Nothing yet.
    More,
    Done(Outcome),
}

#[derive(Clone, Copy)]
pub enum Stage {
    // No head is there yet.
    Head,
    // A body of so many bytes begins there, and isn't whole.
    Body { start: usize, size: usize },
    // It is decided. The share stands there.
    Over { start: usize, size: usize },
}

/// The answer to a question, as far as its bytes came.
#[derive(Drop)]
pub struct Reading {
    bytes: Vec<u8>,
    // How many bytes are kept at most: those of a head, and those that were asked for.
    room: usize,
    question: Question,
    stage: Stage,
}

impl Reading {
    ghost use Rattle.node_wire.specs.Readings.{IsOpen, IsFresh, IsRoomy, IsFront, HasBody, HoldsShare, Feeds, bytes_of, question_of, share_of, said_of};

    /// Of an answer to who asked for at most so many bytes. It takes all the memory that the reading needs.
    pub fn new(alloc: Global, len: u64) -> Result<Reading, NoMemory>
        ensures { IfOk result (IsFresh (Question.Fetch len)) }
    {
        Reading::of(alloc, Question::Fetch { len }, len)
    }

    /// Of an answer to a put. It takes all the memory that the reading needs.
    pub fn of_put(alloc: Global) -> Result<Reading, NoMemory>
        ensures { IfOk result (IsFresh Question.Put) }
    {
        Reading::of(alloc, Question::Put, 0)
    }

    fn of(alloc: Global, question: Question, len: u64) -> Result<Reading, NoMemory>
        requires { len ≡ asked_len question }
        ensures { IfOk result (IsFresh question) }
    {
        let Some(room) = MAX_HEAD.checked_add(len as usize) else {
            return Err(NoMemory);
        };
        let bytes = Vec::with_capacity(alloc, room)?;
        Ok(Reading {
            bytes,
            room,
            question,
            stage: Stage::Head,
        })
    }

    /// Takes the next bytes, and tells what all bytes so far say. Not to be called once an outcome was told.
    pub fn feed(&mut self, piece: &[u8]) -> Fed
        requires { IsOpen self.old }
        ensures told { Feeds self.new (bytes_of self.old ++ piece.now) result }
        ensures question { question_of self.new ≡ question_of self.old }
    {
        let room = self.room - self.bytes.len();
        let Ok(()) = self
            .bytes
            .extend_from_slice(&piece[..piece.len().min(room)])
        else {
            unreachable!()
        };
        match self.stage {
            Stage::Head => self.look(),
            Stage::Body { start, size } => self.behind(start, size),
            Stage::Over { .. } => unreachable!(),
        }
    }

    // Looks for a head.
    fn look(&mut self) -> Fed
        requires head { self.old.stage ≡ Stage.Head }
        requires roomy { IsRoomy self.old }
        ensures told { (all : _) → IsFront self.old.question self.old.bytes.items all → Feeds self.new all result }
        ensures question { self.new.question ≡ self.old.question }
    {
        match head_of(self.bytes.as_slice(), self.question) {
            Some((start, Says::Body(size))) => self.behind(start, size),
            Some((_, Says::Long)) => self.over(Outcome::Share),
            Some((_, Says::Missing)) => self.over(Outcome::Missing),
            Some((_, Says::Kept)) => self.over(Outcome::Kept),
            Some((_, Says::NoAnswer)) => self.over(Outcome::NoAnswer),
            None if self.bytes.len() >= MAX_HEAD => self.over(Outcome::NoAnswer),
            None => Fed::More,
        }
    }

    // The share has no bytes, or there is none.
    fn over(&mut self, outcome: Outcome) -> Fed
        ensures fed { result ≡ Fed.Done outcome }
        ensures over { self.new ≡ record self.old { stage = Stage.Over 0 0 } }
    {
        self.stage = Stage::Over { start: 0, size: 0 };
        Fed::Done(outcome)
    }

    // Whether the body is whole.
    fn behind(&mut self, start: usize, size: usize) -> Fed
        requires roomy { IsRoomy self.old }
        requires head { HasBody self.old.question self.old.bytes.items start size }
        ensures told { (all : _) → IsFront self.old.question self.old.bytes.items all → Feeds self.new all result }
        ensures question { self.new.question ≡ self.old.question }
    {
        if self.bytes.len() - start >= size {
            self.stage = Stage::Over { start, size };
            Fed::Done(Outcome::Share)
        } else {
            self.stage = Stage::Body { start, size };
            Fed::More
        }
    }

    /// No more bytes come. As nothing was told yet, they come to no answer. Not to be called once an outcome was told.
    pub fn end(&mut self) -> Outcome
        requires { IsOpen self.old }
        ensures told { Heard (question_of self.old) (bytes_of self.old) true (Some (said_of self.new result)) }
        ensures share { HoldsShare self.new }
        ensures question { question_of self.new ≡ question_of self.old }
    {
        self.stage = Stage::Over { start: 0, size: 0 };
        Outcome::NoAnswer
    }

    /// The share, once it was told. Before, and at another outcome, no bytes.
    pub fn share(&self) -> &[u8]
        ensures { HoldsShare self.now → result.now ≡ share_of self.now }
    {
        let Stage::Over { start, size } = self.stage else {
            return &[];
        };
        if start > self.bytes.len() || size > self.bytes.len() - start {
            return &[];
        }
        &self.bytes[start..start + size]
    }
}

/// The laws of what is heard: it is one thing; what bytes decide they decide with any that follow, ended or not; and a
/// share has at most as many bytes as were asked for.
pub fn outcomes_stand()
    ensures one { (question : Question) (bytes : List ℕ) (ended : Bool) (a b : Option Said)
        → Heard question bytes ended a → Heard question bytes ended b → a ≡ b }
    ensures stays { (question : Question) (bytes more : List ℕ) (ended : Bool) (said : Said)
        → Heard question bytes false (Some said) → Heard question (bytes ++ more) ended (Some said) }
    ensures within { (question : Question) (bytes found : List ℕ) (ended : Bool)
        → Heard question bytes ended (Some (share found)) → length found ≤ asked_len question }
{}
