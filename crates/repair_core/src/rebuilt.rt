// What a rebuilding makes, and how it fails.
use sat_base::{Bytes, Indexes, Items, Share};

/// A segment that was rebuilt whole.
#[derive(Drop)]
pub struct Rebuilt {
    /// Its whole stripes. The last one is padded.
    pub bytes: Bytes,
    /// The pieces that were altered in at least one stripe, by rising index.
    pub blamed: Indexes,
    /// The piece of each target, in the plan's order.
    pub fresh: Items<Share>,
}

/// Why a segment wasn't rebuilt.
#[derive(Clone, Copy, Debug, PartialEq, Eq)]
pub enum RebuildErr {
    /// Fewer than `k` pieces came.
    Few { answered: u8 },
    /// No stripe is near what the pieces answer for this one, which is the first such.
    Unclear { stripe: u64 },
    /// Memory ran out.
    NoMemory,
}

/// What a rebuilding in windows makes.
#[derive(Drop)]
pub struct Remade {
    /// The sources that were altered in at least one stripe, by rising index.
    pub blamed: Indexes,
    /// The piece of each target, in the plan's order.
    pub fresh: Items<Share>,
}

/// Why a window ended a rebuilding.
#[derive(Clone, Copy, Debug, PartialEq, Eq)]
pub enum WindowErr {
    /// Fewer than `k` shares came.
    Few { answered: u8 },
    /// No stripe is near what the shares are for this one, which is the first such. It is counted from the
    /// segment's first.
    Unclear { stripe: u64 },
}
