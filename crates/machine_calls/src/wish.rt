// What a customer, a node or the operator asks.
use sat_base::{Bytes, CustomerId, Indexes, Month, NodeId, Rates, SegId};

/// What a request asks of the machine: a call without its moment and its random words.
#[derive(Drop)]
pub enum Wish {
    /// The operator adds a node, by its IPv4 address and the bytes that it says are free.
    AddNode {
        request: u64,
        addr: u32,
        port: u16,
        free: u64,
    },
    /// The operator adds a customer.
    AddCustomer {
        request: u64,
    },
    /// A customer asks for places for the pieces of a segment of `len` bytes.
    Begin {
        customer: CustomerId,
        request: u64,
        len: u64,
    },
    /// A customer has stored the pieces of these indexes.
    Commit {
        customer: CustomerId,
        request: u64,
        segment: SegId,
        indexes: Indexes,
    },
    /// A customer asks where the pieces of a segment lie.
    Get {
        customer: CustomerId,
        request: u64,
        segment: SegId,
    },
    /// A customer has no more use for a segment.
    Delete {
        customer: CustomerId,
        request: u64,
        segment: SegId,
    },
    /// A node presents the bytes of an order.
    Settle {
        node: NodeId,
        bytes: Bytes,
    },
    /// A node says how many bytes are free.
    SetFree {
        node: NodeId,
        free: u64,
    },
    /// A node asks to leave.
    Exit {
        node: NodeId,
    },
    /// A node asks what its operator is paid for a month.
    Statement {
        node: NodeId,
        month: Month,
    },
    /// The operator closes a month.
    CloseMonth {
        month: Month,
    },
    /// The operator sets what is paid from a month on.
    SetRates {
        month: Month,
        rates: Rates,
    },
    /// The operator stops the machine.
    Stop,
}
