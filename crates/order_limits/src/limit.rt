// Order limits and orders, and the bytes that they are written as.
ghost use Rattle.std.specs.Prelude.{◌≡◌, ◌≤◌, length, take};
ghost use Rattle.order_limits.specs.Keys.{order_tag_of};

use crate::bytes::{bytes_at, write_at};
use crate::keys::Keys;
use crate::mac::hmac;
use sat_base::{CustomerId, NodeId, SegId, Serial};

/// What bytes are moved for.
#[derive(Clone, Copy, Debug, PartialEq, Eq)]
pub enum Action {
    /// A customer stores a piece.
    Put,
    /// A customer fetches a piece.
    Get,
    /// An audit fetches a share.
    GetAudit,
    /// A repair fetches a piece.
    GetRepair,
    /// A repair stores a piece.
    PutRepair,
}

impl Action {
    ghost use Rattle.order_limits.specs.Order.{action_byte, action_of};

    /// The byte that stands for the action in a limit, 1 to 5.
    pub fn byte(self) -> u8
        ensures { result ≡ action_byte self }
    {
        match self {
            Action::Put => 1,
            Action::Get => 2,
            Action::GetAudit => 3,
            Action::GetRepair => 4,
            Action::PutRepair => 5,
        }
    }

    /// The action that this byte stands for, if it is 1 to 5.
    pub fn of(byte: u8) -> Option<Self>
        ensures { result ≡ action_of byte }
    {
        match byte {
            1 => Some(Action::Put),
            2 => Some(Action::Get),
            3 => Some(Action::GetAudit),
            4 => Some(Action::GetRepair),
            5 => Some(Action::PutRepair),
            _ => None,
        }
    }
}

/// The satellite's leave to move bytes of one piece at one node.
#[derive(Clone, Copy, Debug, PartialEq, Eq)]
pub struct Limit {
    pub action: Action,
    pub serial: Serial,
    pub node: NodeId,
    pub segment: SegId,
    /// The piece's index in its segment.
    pub index: u8,
    /// How many bytes may be moved.
    pub limit: u64,
    /// When it was given, in Unix seconds.
    pub issued: u64,
    /// When it expires, in Unix seconds.
    pub expires: u64,
    /// Whose it is; 0 is the satellite itself.
    pub customer: CustomerId,
}

/// How many bytes an uplink says were moved under a limit.
#[derive(Clone, Copy, Debug, PartialEq, Eq)]
pub struct Order {
    pub limit: Limit,
    /// Bytes moved.
    pub amount: u64,
}

impl Limit {
    ghost use Rattle.order_limits.specs.Order.{limit_body, limit_bytes};

    // Writes the 51 bytes of the fields, which the tag is made over.
    fn write_body(&self, out: &mut [u8])
        requires { 51 ≤ length out.old }
        ensures { take 51 out.new ≡ limit_body self.now }
    {
        write_at(out, 0, &[1, self.action.byte()]);
        write_at(out, 2, &self.serial.0.to_be_bytes());
        write_at(out, 10, &self.node.0.to_be_bytes());
        write_at(out, 14, &self.segment.0.to_be_bytes());
        write_at(out, 22, &[self.index]);
        write_at(out, 23, &self.limit.to_be_bytes());
        write_at(out, 31, &self.issued.to_be_bytes());
        write_at(out, 39, &self.expires.to_be_bytes());
        write_at(out, 47, &self.customer.0.to_be_bytes());
    }

    /// The limit's 83 bytes, with its tag under its node's key.
    pub fn write(&self, keys: &Keys) -> [u8; 83]
        ensures { result ≡ limit_bytes keys.now self.now }
    {
        let mut out = [0u8; 83];
        self.write_body(&mut out);
        let tag = hmac(&keys.node(self.node), bytes_at(&out, 0, 51));
        write_at(&mut out, 51, &tag);
        out
    }
}

impl Order {
    ghost use Rattle.order_limits.specs.Order.{order_bytes};

    /// The order's 123 bytes: those of its limit, the amount, and the tag under its serial's key.
    pub fn write(&self, keys: &Keys) -> [u8; 123]
        ensures { result ≡ order_bytes keys.now self.now }
    {
        let mut out = [0u8; 123];
        write_at(&mut out, 0, &self.limit.write(keys));
        write_at(&mut out, 83, &self.amount.to_be_bytes());
        let tag = order_tag(keys, self.limit.serial, self.limit.node, self.amount);
        write_at(&mut out, 91, &tag);
        out
    }
}

/// The tag of an order: over its node and amount, under its serial's key.
pub(crate) fn order_tag(keys: &Keys, serial: Serial, node: NodeId, amount: u64) -> [u8; 32]
    ensures { result ≡ order_tag_of keys.now serial node amount }
{
    let mut text = [0u8; 12];
    write_at(&mut text, 0, &node.0.to_be_bytes());
    write_at(&mut text, 4, &amount.to_be_bytes());
    hmac(&keys.serial(serial), &text)
}
