// What the numbers of the command line may be, beside the bounds of records.

/// The greatest `k` of a judged stripe.
pub const JUDGED: u8 = 127;

/// The first port of a server, so that all its lanes have one.
pub const PORT: u16 = 65_520;

/// The lanes of a server.
pub const LANES: u16 = 16;

/// The calls of a drill.
pub const CALLS: u64 = 20_000;

/// The seconds between two ticks: a day.
pub const TICK: u32 = 86_400;

/// The seconds between two ticks, where no others are asked for.
pub const USUAL_TICK: u32 = 60;

/// The bytes of a share, where no others are asked for.
pub const USUAL_SHARE: u16 = 256;

/// The passed audits after which a node is vetted, where no others are asked for.
pub const USUAL_VET: u16 = 100;

/// Of a hundred places, those for nodes that aren't vetted, where no others are asked for.
pub const USUAL_FRESH: u8 = 5;

/// The greatest part of a hundred.
pub const PERCENT: u8 = 100;

/// The rates that are paid where no others are asked for, in micro-dollars for 10^12 bytes: of what customers fetch,
pub const USUAL_GET: u64 = 20_000_000;

/// of what audits read,
pub const USUAL_AUDIT: u64 = 10_000_000;

/// of what repairs read,
pub const USUAL_REPAIR: u64 = 10_000_000;

/// and of what is kept for 720 hours.
pub const USUAL_STORAGE: u64 = 1_500_000;
