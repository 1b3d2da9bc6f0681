// A folder of a node in memory, and the links of its next run.
use sat_base::{
    Change, Committed, Keeper, KeeperMem, Line, MemClock, MemConsole, MemLane, MemLink, NoMemory,
    Row,
};
use std::alloc::Global;
use std::mem;
use stor_base::{MemPieces, MemSettler, OfferMade, Piece, Pieces};
use stor_node_cli::{NodeEnded, NodeWorld, Served, stor_node};
use trial_lines::{Fields, LineErr, keeper_of, text_of};

/// The devices that a run left.
pub(crate) type Left = NodeWorld<MemConsole, KeeperMem, MemPieces, MemLane, MemClock, MemSettler>;

/// A folder of a node, what its next run meets, and what came of the last one.
#[derive(Drop)]
pub(crate) struct Folder {
    pub alloc: Global,
    pub rows: Vec<Change>,
    pub pieces: Vec<Piece>,
    pub links: Vec<MemLink>,
    pub moments: Vec<u64>,
    pub later: Vec<u64>,
    failing: Failing,
    pub served: Vec<Served>,
    pub left: Option<Left>,
}

// The numbers of the calls that fail.
#[derive(Drop)]
struct Failing {
    keeper: Vec<u64>,
    pieces: Vec<u64>,
    settler: Vec<u64>,
    lane: Vec<u64>,
}

impl Failing {
    fn none(alloc: Global) -> Failing {
        Failing {
            keeper: Vec::new(alloc),
            pieces: Vec::new(alloc),
            settler: Vec::new(alloc),
            lane: Vec::new(alloc),
        }
    }
}

impl Folder {
    pub(crate) fn new(alloc: Global) -> Folder {
        Folder {
            alloc,
            rows: Vec::new(alloc),
            pieces: Vec::new(alloc),
            links: Vec::new(alloc),
            moments: Vec::new(alloc),
            later: Vec::new(alloc),
            failing: Failing::none(alloc),
            served: Vec::new(alloc),
            left: None,
        }
    }

    /// Begins anew.
    pub(crate) fn begin(&mut self) {
        *self = Folder::new(self.alloc);
    }

    /// Puts a row.
    pub(crate) fn put(&mut self, row: Row) -> Result<(), NoMemory> {
        self.rows.push(Change::Put(row))?;
        Ok(())
    }

    /// Notes which calls fail.
    pub(crate) fn fail(&mut self, fields: &mut Fields<'_>) -> Result<(), LineErr> {
        self.failing = Failing {
            keeper: fields.numbers(self.alloc)?,
            pieces: fields.numbers(self.alloc)?,
            settler: fields.numbers(self.alloc)?,
            lane: fields.numbers(self.alloc)?,
        };
        Ok(())
    }

    /// Adds a link.
    pub(crate) fn link(
        &mut self,
        moment: u64,
        failing: Vec<u64>,
        bytes: Vec<u8>,
    ) -> Result<(), NoMemory> {
        self.links.push(MemConsole::of(self.alloc, bytes, failing))?;
        self.moments.push(moment)?;
        Ok(())
    }

    /// Adds a link for each front.
    pub(crate) fn fronts(&mut self, moment: u64, bytes: &[u8]) -> Result<(), NoMemory> {
        for len in 0..bytes.len() {
            let front = Vec::from_slice(self.alloc, &bytes[..len])?;
            self.link(moment, Vec::new(self.alloc), front)?;
        }
        Ok(())
    }

    // The devices of the next run.
    fn world(&mut self) -> Result<Left, NoMemory> {
        let alloc = self.alloc;
        let failing = mem::replace(&mut self.failing, Failing::none(alloc));
        let links = mem::replace(&mut self.links, Vec::new(alloc));
        let moments = mem::replace(&mut self.moments, Vec::new(alloc));
        let later = mem::replace(&mut self.later, Vec::new(alloc));
        let pieces = mem::replace(&mut self.pieces, Vec::new(alloc));
        Ok(NodeWorld {
            console: MemConsole::of(alloc, Vec::new(alloc), Vec::new(alloc)),
            keeper: keeper_of(alloc, &self.rows, failing.keeper)?,
            pieces: MemPieces::of(pieces, failing.pieces),
            lane: MemLane::of(alloc, links, failing.lane)?,
            clock: MemClock::of(moments),
            settler: MemSettler::of(alloc, later, failing.settler),
        })
    }

    // Takes over what a run left.
    fn keep(&mut self, world: Left) -> Result<(), NoMemory> {
        let alloc = self.alloc;
        self.rows = Vec::new(alloc);
        for row in world.keeper.rows() {
            self.rows.push(Change::Put(row.copy(alloc)?))?;
        }
        self.pieces = Vec::new(alloc);
        for piece in world.pieces.held() {
            self.pieces.push(Piece {
                segment: piece.segment,
                index: piece.index,
                bytes: piece.bytes.copy(alloc)?,
            })?;
        }
        self.left = Some(world);
        Ok(())
    }

    /// Runs words over the folder.
    pub(crate) fn run(&mut self, words: &Line) -> Result<String, LineErr> {
        let alloc = self.alloc;
        let world = self.world()?;
        let NodeEnded {
            status,
            world,
            served,
        } = stor_node(alloc, words, world);
        let count = served.len();
        let said = text_of(alloc, world.console.written())?;
        self.served = served;
        self.keep(world)?;
        Ok(format!(in alloc; "{status} {count} {said}")?)
    }
}
