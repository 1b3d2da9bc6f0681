// The numbers that name things.
ghost use Rattle.std.specs.Prelude.{◌≡◌, ◌≤◌, ◌+◌, ◌*◌, ◌^◌, ◌++◌, length};
ghost use Rattle.std.proofs.Common.{rules};
ghost use Rattle.record_rows.specs.Numbers.{be32, be64, IsU32, IsU64};
ghost use Rattle.record_rows.specs.Laws.Ids.{node_apart, node_order, customer_apart, customer_order, segment_apart, segment_order, serial_apart, serial_order};
ghost use Rattle.record_rows.specs.Laws.Order.{pair_order};

use crate::coded::{Coded, Ordered, Spelled, Unread};
use sat_base::{CustomerId, NoMemory, NodeId, SegId, Serial};
use std::alloc::Global;

impl Spelled for NodeId {
    ghost spelling = { λ id. be32 id.0 };

    fn put(&self, out: &mut Vec<u8>) -> Result<(), NoMemory> {
        self.0.put(out)
    }
}

impl Coded for NodeId {
    ghost fits = { λ id. IsU32 id.0 };

    fn take(alloc: Global, bytes: &[u8]) -> Result<(Self, usize), Unread> {
        let (number, size) = u32::take(alloc, bytes)?;
        Ok((NodeId(number), size))
    }

    ghost apart = { node_apart };

    ghost some = { (record { 0 = 0 }, Prim.search rules) };
}

impl Ordered for NodeId {
    ghost rank = { λ id. id.0 };

    ghost order = { node_order };
}

impl Spelled for CustomerId {
    ghost spelling = { λ id. be32 id.0 };

    fn put(&self, out: &mut Vec<u8>) -> Result<(), NoMemory> {
        self.0.put(out)
    }
}

impl Coded for CustomerId {
    ghost fits = { λ id. IsU32 id.0 };

    fn take(alloc: Global, bytes: &[u8]) -> Result<(Self, usize), Unread> {
        let (number, size) = u32::take(alloc, bytes)?;
        Ok((CustomerId(number), size))
    }

    ghost apart = { customer_apart };

    ghost some = { (record { 0 = 0 }, Prim.search rules) };
}

impl Ordered for CustomerId {
    ghost rank = { λ id. id.0 };

    ghost order = { customer_order };
}

impl Spelled for SegId {
    ghost spelling = { λ id. be64 id.0 };

    fn put(&self, out: &mut Vec<u8>) -> Result<(), NoMemory> {
        self.0.put(out)
    }
}

impl Coded for SegId {
    ghost fits = { λ id. IsU64 id.0 };

    fn take(alloc: Global, bytes: &[u8]) -> Result<(Self, usize), Unread> {
        let (number, size) = u64::take(alloc, bytes)?;
        Ok((SegId(number), size))
    }

    ghost apart = { segment_apart };

    ghost some = { (record { 0 = 0 }, Prim.search rules) };
}

impl Ordered for SegId {
    ghost rank = { λ id. id.0 };

    ghost order = { segment_order };
}

impl Spelled for Serial {
    ghost spelling = { λ id. be64 id.0 };

    fn put(&self, out: &mut Vec<u8>) -> Result<(), NoMemory> {
        self.0.put(out)
    }
}

impl Coded for Serial {
    ghost fits = { λ id. IsU64 id.0 };

    fn take(alloc: Global, bytes: &[u8]) -> Result<(Self, usize), Unread> {
        let (number, size) = u64::take(alloc, bytes)?;
        Ok((Serial(number), size))
    }

    ghost apart = { serial_apart };

    ghost some = { (record { 0 = 0 }, Prim.search rules) };
}

impl Ordered for Serial {
    ghost rank = { λ id. id.0 };

    ghost order = { serial_order };
}

/// First by the other part, and then by the node.
impl<A: Ordered> Ordered for (A, NodeId) {
    ghost rank = { λ id. A.rank id.0 * 2 ^ 32 + id.1.0 };

    ghost order = { pair_order (2 ^ 32) (λ node fits. fits) A.order node_order };
}
