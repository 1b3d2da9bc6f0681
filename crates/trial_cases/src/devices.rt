// The devices of the next round.
use crate::running::{Due, MemKit, Which};
use node_rounds::Kit;
use sat_base::{Held, Items, MemClock, MemNodes, MemTicks, MemWords, NoMemory, NodeId, SegId};
use std::alloc::Global;
use std::mem;
use trial_lines::{Fields, LineErr};

// A book has room for so many entries, where no line says another number.
const TERM: u64 = 100;

/// What the next round has beside the store.
#[derive(Drop)]
pub struct Devices {
    alloc: Global,
    held: Vec<Held>,
    silent: Vec<u64>,
    moments: Vec<u64>,
    words: Vec<u64>,
    words_failing: Vec<u64>,
    term: u64,
    stops: bool,
}

fn copied(alloc: Global, piece: &Held) -> Result<Held, NoMemory> {
    Ok(Held {
        node: piece.node,
        segment: piece.segment,
        index: piece.index,
        bytes: piece.bytes.copy(alloc)?,
    })
}

fn is_at(piece: &Held, node: NodeId, segment: SegId, index: u8) -> bool {
    piece.node == node && piece.segment == segment && piece.index == index
}

impl Devices {
    /// No pieces, no moments and no words.
    pub fn new(alloc: Global) -> Self {
        Devices {
            alloc,
            held: Vec::new(alloc),
            silent: Vec::new(alloc),
            moments: Vec::new(alloc),
            words: Vec::new(alloc),
            words_failing: Vec::new(alloc),
            term: TERM,
            stops: false,
        }
    }

    /// What the nodes hold.
    pub fn held(&self) -> &[Held] {
        &self.held
    }

    /// Notes what a line says of the devices, or leaves it.
    pub fn note(&mut self, line: &str) -> Result<bool, LineErr> {
        let mut fields = Fields::of_line(line, 0);
        match fields.word()? {
            "holds" => self.hold(&mut fields)?,
            "drops" => self.drop_piece(&mut fields)?,
            "silent" => self.silent = fields.numbers(self.alloc)?,
            "moments" => self.moments = fields.numbers(self.alloc)?,
            "words" => self.note_words(&mut fields)?,
            "term" => self.term = fields.number()?,
            "stop" => self.stops = true,
            _ => return Ok(false),
        }
        fields.end()?;
        Ok(true)
    }

    fn hold(&mut self, fields: &mut Fields<'_>) -> Result<(), LineErr> {
        let piece = Held {
            node: NodeId(fields.number()?),
            segment: SegId(fields.number()?),
            index: fields.number()?,
            bytes: Items::of(fields.hex(self.alloc)?),
        };
        Ok(self.held.push(piece)?)
    }

    fn drop_piece(&mut self, fields: &mut Fields<'_>) -> Result<(), LineErr> {
        let node = NodeId(fields.number()?);
        let segment = SegId(fields.number()?);
        let index = fields.number()?;
        self.held
            .retain(|piece| !is_at(piece, node, segment, index));
        Ok(())
    }

    fn note_words(&mut self, fields: &mut Fields<'_>) -> Result<(), LineErr> {
        let count: u16 = fields.number()?;
        let word: u64 = fields.number()?;
        self.words_failing = fields.numbers(self.alloc)?;
        self.words = Vec::from_elem(self.alloc, word, usize::from(count))?;
        Ok(())
    }

    /// The round that is due, where the term is within bounds. The machine stops before this one alone.
    pub fn due(&mut self, which: Which) -> Due {
        Due {
            which,
            term: self.term,
            stops: mem::replace(&mut self.stops, false),
        }
    }

    /// The devices of the next round, which the one behind it hasn't.
    pub fn kit(&mut self) -> MemKit {
        let alloc = self.alloc;
        let held = mem::replace(&mut self.held, Vec::new(alloc));
        let silent = mem::replace(&mut self.silent, Vec::new(alloc));
        let moments = mem::replace(&mut self.moments, Vec::new(alloc));
        let words = mem::replace(&mut self.words, Vec::new(alloc));
        let failing = mem::replace(&mut self.words_failing, Vec::new(alloc));
        Kit {
            nodes: MemNodes::of(alloc, held, silent),
            clock: MemClock::of(moments),
            words: MemWords::of(words, failing),
            ticks: MemTicks::of(0),
        }
    }

    /// Takes the pieces that a round leaves.
    pub fn keep(&mut self, nodes: &MemNodes) -> Result<(), NoMemory> {
        let mut held = Vec::new(self.alloc);
        for piece in nodes.held() {
            held.push(copied(self.alloc, piece)?)?;
        }
        self.held = held;
        Ok(())
    }
}
