// What was uploaded, so that what is put in its place can be compared with it.
ghost use Rattle.std.specs.Prelude.{◌≤◌, vec_len};

use rs_stripe::encode_pieces;
use sat_base::{Ask, NoMemory, Scheme, SegId};
use std::alloc::Global;

/// The most bytes of a segment that a drill uploads.
pub(crate) const LONGEST: u64 = 4096;

// The bytes of a segment.
#[derive(Drop)]
struct Upload {
    segment: SegId,
    bytes: Vec<u8>,
    ghost short: { vec_len bytes ≤ 4096 },
}

/// The segments that were uploaded and committed, and how many pieces that were put later weren't theirs.
#[derive(Drop)]
pub struct Uploads {
    scheme: Scheme,
    // by rising id
    all: Vec<Upload>,
    wrong: u64,
}

impl Uploads {
    /// None so far.
    pub fn new(alloc: Global, scheme: Scheme) -> Self {
        Uploads {
            scheme,
            all: Vec::new(alloc),
            wrong: 0,
        }
    }

    /// Notes a segment, whose id is above those of all before it, with its bytes. It fails only where memory runs out.
    pub fn note(&mut self, segment: SegId, bytes: Vec<u8>) -> Result<(), NoMemory>
        requires { vec_len bytes ≤ 4096 }
    {
        self.all.push(Upload { segment, bytes })?;
        Ok(())
    }

    /// The segment that a number chooses, where there is one.
    pub fn chosen(&self, number: u64) -> Option<SegId> {
        let count = self.all.len();
        if count == 0 {
            return None;
        }
        Some(self.all[(number % count as u64) as usize].segment)
    }

    /// Counts a piece that is put, where it isn't the piece of the bytes that were uploaded. One of another segment isn't
    /// counted. It fails only where memory runs out.
    pub fn compare(&mut self, alloc: Global, ask: &Ask, piece: &[u8]) -> Result<(), NoMemory> {
        let Ok(place) = self
            .all
            .binary_search_by_key(&ask.segment.0, |upload| upload.segment.0)
        else {
            return Ok(());
        };
        let Some(upload) = self.all.get(place) else {
            return Ok(());
        };
        let own = encode_pieces(alloc, &self.scheme, &upload.bytes, &[ask.index])?;
        if !own.iter().all(|own| own.as_slice() == piece) {
            self.wrong = self.wrong.saturating_add(1);
        }
        Ok(())
    }

    /// How many pieces weren't those of the bytes that were uploaded.
    pub fn wrong(&self) -> u64 {
        self.wrong
    }
}
