// The greatest numbers that a store keeps and a machine takes.

/// The nodes of a store.
pub const NODES: u32 = 65_536;

/// Its customers.
pub const CUSTOMERS: u32 = 65_536;

/// Its segments.
pub const SEGMENTS: u32 = 262_144;

/// Its settled orders.
pub const SETTLED: u32 = 4_194_304;

/// Its tallies.
pub const TALLIES: u32 = 4_194_304;

/// Its statements.
pub const STATEMENTS: u32 = 1_048_576;

/// Its tariffs.
pub const TARIFFS: u32 = 4096;

/// The passed audits after which a node is vetted.
pub const VET: u16 = 1000;

/// The places of a segment, and the items of a list in a request, a reply or a plan.
pub const PLACES: u8 = 128;

/// The random words that a placement is given.
pub const WORDS: usize = 128;

/// The bytes of a share.
pub const SHARE: u16 = 1024;

/// The bytes of a piece: 4 MiB.
pub const PIECE: u64 = 4_194_304;

/// A rate, in micro-dollars for 10^12 bytes: a thousand dollars.
pub const RATE: u64 = 1_000_000_000;

/// The least month of a record: January 1970.
pub const FIRST_MONTH: u32 = 23_640;

/// The greatest month of a record: December 4147.
pub const LAST_MONTH: u32 = 49_775;

/// The greatest hour of a record.
pub const LAST_HOUR: u64 = 1 << 36;

/// No moment is as late as this, in Unix seconds: the year 4147.
pub const MOMENTS: u64 = 1 << 36;

/// The entries of a term.
pub const TERM: u64 = 65_536;

/// The rechecks without an answer that count as a failure.
pub const TRIES: u8 = 3;

/// Where the next number of a segment, a serial or a plan is this one, no more is drawn.
pub const LAST_NUMBER: u64 = 1 << 63;
