// How much of a connection is read.

/// The most bytes of a head. HTTP sets no bound of its own (RFC 9110, 5.4).
pub const MAX_HEAD: usize = 8192;

/// The most header lines of a head.
pub const MAX_LINES: usize = 64;

/// The most bytes of a body that has fields.
pub const MAX_BODY: u64 = 65536;
