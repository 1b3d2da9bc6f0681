// What is asked of a node, and why it isn't done.
ghost use Rattle.std.specs.Prelude.{◌≡◌};

use order_limits::OrderErr;
use sat_base::{Bytes, NodeId, SegId};

/// What a link asks of a node: to keep a piece, or to give a range of one.
#[derive(Debug, PartialEq, Eq, Drop)]
pub struct Wanted {
    /// Whether a piece is to be kept.
    pub put: bool,
    pub segment: SegId,
    pub index: u8,
    /// How many bytes are given or kept.
    pub len: u64,
    /// The bytes of the order, whatever they are.
    pub order: Bytes,
}

/// Why bytes aren't taken: the first of these that holds, in this order.
#[derive(Clone, Copy, Debug, PartialEq, Eq)]
pub enum TakeErr {
    /// 1: the order has so many bytes, and not 123.
    Length { got: u64 },
    /// 2: its first byte is this and not 1.
    Version { got: u8 },
    /// 3: its second byte is this, which is no action's.
    Action { got: u8 },
    /// 4: its limit's tag isn't under this node's key.
    LimitTag,
    /// 6: its limit is for this other node.
    OtherNode { limit_node: NodeId },
    /// 40: its limit is for another piece.
    OtherPiece,
    /// 41: this is no action for what is asked.
    WrongAction { action: u8 },
    /// 42: its limit expired then.
    Expired { expires: u64 },
    /// 9: its amount is above its limit, this one.
    OverLimit { limit: u64 },
    /// 43: another limit of the same serial is kept.
    OtherLimit,
    /// 44: the serial's order is settled.
    OrderDone,
    /// 45: so many bytes may still be served.
    Spent { left: u64 },
    /// 46: so many serials are kept, and no more can be.
    UsesFull { cap: u32 },
    /// The keeper failed, by which its count rose from `before` to `after`.
    Fault { before: u64, after: u64 },
    /// Memory ran out.
    NoMemory,
}

impl From<OrderErr> for TakeErr {
    ghost use Rattle.order_uses.specs.Take.{refused_bytes};

    ghost from_gives = { λ e r. r ≡ refused_bytes e };

    fn from(e: OrderErr) -> Self {
        match e {
            OrderErr::Length { got } => TakeErr::Length { got },
            OrderErr::Version { got } => TakeErr::Version { got },
            OrderErr::Action { got } => TakeErr::Action { got },
            OrderErr::LimitTag => TakeErr::LimitTag,
            // never told: the order's own tag isn't read
            OrderErr::OrderTag => TakeErr::LimitTag,
        }
    }
}
