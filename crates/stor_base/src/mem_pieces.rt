ghost use Rattle.std.specs.Prelude.{◌≡◌, ◌⊎◌, ◌↔◌, ◌++◌, ◌∷◌, ◌<◌, [], Some, None, IsTrue, false, find, option_copied, vec_len, vec_capacity};
ghost use Rattle.sat_base.specs.Nodes.{is_unanswered, is_unstored};
ghost use Rattle.sat_base.specs.Outside.{CountsExactly, counted, raised};
ghost use Rattle.stor_base.specs.Pieces.{FailsNext, IsWithin, Reads, Holding, Writes, held_after, held_at, is_piece, range_of, without_piece};

use crate::failing::is_failing;
use crate::{Piece, Pieces};
use sat_base::{Fetched, Items, SegId, Stored};
use std::alloc::Global;
use std::marker::Model;

/// Pieces in memory, for tests. Their reads and writes are numbered together, from 1, and those of chosen numbers fail.
#[derive(Drop)]
pub struct MemPieces {
    held: Vec<Piece>,
    failing: Vec<u64>,
    calls: u64,
    faults: u64,
}

impl Model for MemPieces {
    ghost Value = { Holding };

    ghost view = { λ p. record {
      held = p.held.items;
      failing = p.failing.items;
      calls = p.calls;
      faults = p.faults;
    } };
}

impl MemPieces {
    /// These pieces, of distinct segments and indexes, whose calls of these numbers fail.
    pub fn of(held: Vec<Piece>, failing: Vec<u64>) -> Self
        ensures { result ≡ record {
          held = held.items;
          failing = failing.items;
          calls = 0;
          faults = 0;
        } }
    {
        MemPieces {
            held,
            failing,
            calls: 0,
            faults: 0,
        }
    }

    /// The pieces that are held.
    pub fn held(&self) -> &[Piece]
        ensures { result.now ≡ self.now.held }
    {
        &self.held
    }

    // Counts a call, and a fault where it is one of those that are to fail, which it tells.
    fn fails(&mut self) -> bool
        ensures failing { IsTrue result ↔ FailsNext self.old }
        ensures counted { self.new ≡ record self.old {
          calls = raised self.old.calls;
          faults = counted result self.old.faults;
        } }
        ensures faults { CountsExactly result self.old.faults self.new.faults }
    {
        if !is_failing(&mut self.calls, &self.failing) {
            return false;
        }
        self.faults = self.faults.saturating_add(1);
        true
    }
}

// Whether it is that piece.
fn is_piece(segment: SegId, index: u8, piece: &Piece) -> bool
    ensures { result ≡ is_piece segment index piece.now }
{
    piece.segment == segment && piece.index == index
}

// A piece, where it is held.
fn find_piece(pieces: &[Piece], segment: SegId, index: u8) -> Option<&Piece>
    ensures { option_copied result ≡ find (is_piece segment index) pieces.now }
{
    pieces.iter().find(|piece| is_piece(segment, index, piece))
}

// The bytes from an offset on, at most so many.
fn range(bytes: &[u8], offset: u64, len: u64) -> &[u8]
    ensures { result.now ≡ range_of offset len bytes.now }
{
    let from = bytes.len().min(offset as usize);
    let rest = &bytes[from..];
    &rest[..rest.len().min(len as usize)]
}

// What is read of these pieces.
fn read_of(
    alloc: Global,
    pieces: &[Piece],
    segment: SegId,
    index: u8,
    offset: u64,
    len: u64,
) -> Fetched
    ensures told { Reads (Some pieces.now) segment index offset len result }
    ensures within { IsWithin len result }
    ensures answered { is_unanswered result ≡ false }
    ensures missing { held_at pieces.now segment index ≡ None → result ≡ Fetched.Missing }
{
    let Some(piece) = find_piece(pieces, segment, index) else {
        return Fetched::Missing;
    };
    match Vec::from_slice(alloc, range(piece.bytes.as_slice(), offset, len)) {
        Ok(bytes) => Fetched::Share(Items::of(bytes)),
        Err(_) => Fetched::NoMemory,
    }
}

// Puts a piece in place of what is held of it.
fn replace(held: &mut Vec<Piece>, piece: Piece)
    requires { vec_len held.old < vec_capacity held.old }
    ensures { held.new.items ≡ without_piece piece.segment piece.index held.old.items ++ piece ∷ [] }
{
    let segment = piece.segment;
    let index = piece.index;
    held.retain(|old| !is_piece(segment, index, old));
    held.push_reserved(piece);
}

impl Pieces for MemPieces {
    ghost held = { λ p. Some p.held };

    ghost faults = { λ p. p.faults };

    fn read(&mut self, alloc: Global, segment: SegId, index: u8, offset: u64, len: u64) -> Fetched
        ensures told { Reads (Some self.old.held) segment index offset len result }
        ensures within { IsWithin len result }
        ensures held { Some self.new.held ≡ Some self.old.held }
        ensures faults { CountsExactly (is_unanswered result) self.old.faults self.new.faults }

        // Beside what all pieces promise: which calls fail, that what isn't held is told without memory, and that nothing else
        // changes.
        ensures failing { (result ≡ Fetched.NoAnswer) ↔ FailsNext self.old }
        ensures missing { held_at self.old.held segment index ≡ None → (result ≡ Fetched.Missing) ⊎ (result ≡ Fetched.NoAnswer) }
        ensures stays { self.new ≡ record self.old {
          calls = raised self.old.calls;
          faults = counted (is_unanswered result) self.old.faults;
        } }
    {
        if self.fails() {
            return Fetched::NoAnswer;
        }
        read_of(alloc, &self.held, segment, index, offset, len)
    }

    fn write(&mut self, alloc: Global, segment: SegId, index: u8, bytes: &[u8]) -> Stored
        ensures told { Writes (Some self.old.held) segment index bytes.now result (Some self.new.held) }
        ensures faults { CountsExactly (is_unstored result) self.old.faults self.new.faults }

        // Beside what all pieces promise: which calls fail, the list itself, and that nothing else changes.
        ensures failing { (result ≡ Stored.NoAnswer) ↔ FailsNext self.old }
        ensures stays { self.new ≡ record self.old {
          held = held_after segment index bytes.now result self.old.held;
          calls = raised self.old.calls;
          faults = counted (is_unstored result) self.old.faults;
        } }
    {
        if self.fails() {
            return Stored::NoAnswer;
        }
        if self.held.reserve(1).is_err() {
            return Stored::NoMemory;
        }
        let Ok(copied) = Vec::from_slice(alloc, bytes) else {
            return Stored::NoMemory;
        };
        let piece = Piece {
            segment,
            index,
            bytes: Items::of(copied),
        };
        replace(&mut self.held, piece);
        Stored::Kept
    }
}
