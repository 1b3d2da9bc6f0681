// What the numbers of the command line may be.

/// The greatest number of a node.
pub const NODE: u64 = 4_294_967_295;

/// The greatest port.
pub const PORT: u64 = 65_535;

/// The most orders that are kept.
pub const CAP: u64 = 4_194_304;

/// How many are kept where no other number is asked for.
pub const USUAL_CAP: u64 = 65_536;

/// The addresses of one's own machine (RFC 1122, 3.2.1.3): 127.0.0.0 to 127.255.255.255.
pub const LOOPBACK_FIRST: u32 = 2_130_706_432;

pub const LOOPBACK_LAST: u32 = 2_147_483_647;

/// The one where no other is asked for: 127.0.0.1.
pub const USUAL_ADDR: u32 = 2_130_706_433;
