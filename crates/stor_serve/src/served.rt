// What came of a link.
use order_uses::Wanted;

/// What came of one link.
#[derive(Debug, Drop)]
pub struct Served {
    /// What was asked, where a whole request was read.
    pub wanted: Option<Wanted>,
    /// Whether its bytes were counted under its order.
    pub taken: bool,
    /// When it was read, in Unix seconds.
    pub now: u64,
    /// The status of the answer (RFC 9110, 15), or 0 where the link broke before there was one.
    pub status: u16,
    /// Whether the whole answer was written.
    pub sent: bool,
}
