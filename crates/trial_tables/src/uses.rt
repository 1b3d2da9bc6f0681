// What a storage node keeps of the orders that it serves under: bytes are counted until an order is spent, it is offered until
// it is settled, and both stand behind an opening.
use crate::orders::X_1000;
use order_limits::Keys;
use order_uses::{TakeErr, Uses, Wanted};
use sat_base::{Bytes, KeeperMem, NodeId, SegId, Serial};
use std::alloc::Global;

const NODE: NodeId = NodeId(7);

// A moment at which the order is good.
const NOW: u64 = 1772323200;

// A keeper without rows, whose calls of these numbers fail.
fn keeper(alloc: Global, failing: &[u64]) -> Option<KeeperMem> {
    let failing = Vec::from_slice(alloc, failing).ok()?;
    Some(KeeperMem::of(Vec::new(alloc), failing))
}

fn open(alloc: Global, keeper: KeeperMem) -> Option<Uses<KeeperMem>> {
    let key = Keys::new([0; 32]).node(NODE);
    match Uses::open(alloc, keeper, NODE, key, 2) {
        Ok(uses) => Some(uses),
        Err(_) => None,
    }
}

// What is answered where so many bytes of the piece are asked under the order.
fn take(alloc: Global, uses: &mut Uses<KeeperMem>, len: u64) -> Option<Result<(), TakeErr>> {
    let order = hex::decode(alloc, X_1000).ok()?;
    let wanted = Wanted {
        put: false,
        segment: SegId(5),
        index: 3,
        len,
        order: Bytes::of(order),
    };
    Some(uses.take(NOW, &wanted))
}

fn finish(uses: &mut Uses<KeeperMem>) -> bool {
    match uses.row(Serial(1)) {
        Some(_) => uses.finish(Serial(1)).is_ok(),
        None => false,
    }
}

fn counts_bytes(alloc: Global) -> Option<bool> {
    let mut uses = open(alloc, keeper(alloc, &[])?)?;
    let first = take(alloc, &mut uses, 600)? == Ok(()) && uses.due(NOW).is_none();
    let mut uses = open(alloc, uses.into_keeper())?;
    let above = take(alloc, &mut uses, 401)? == Err(TakeErr::Spent { left: 400 });
    let rest = take(alloc, &mut uses, 400)? == Ok(()) && uses.due(NOW).is_some();
    Some(first && above && rest)
}

fn settles_once(alloc: Global) -> Option<bool> {
    let mut uses = open(alloc, keeper(alloc, &[])?)?;
    let whole = take(alloc, &mut uses, 1000)? == Ok(()) && uses.due(NOW).is_some();
    let settled = finish(&mut uses) && uses.due(NOW).is_none();
    let mut uses = open(alloc, uses.into_keeper())?;
    let done = take(alloc, &mut uses, 1)? == Err(TakeErr::OrderDone);
    Some(whole && settled && done)
}

// The second call of the keeper, which is the first commit, fails.
fn tells_a_fault(alloc: Global) -> Option<bool> {
    let mut uses = open(alloc, keeper(alloc, &[2])?)?;
    let fault = TakeErr::Fault {
        before: 0,
        after: 1,
    };
    let failed = take(alloc, &mut uses, 1000)? == Err(fault) && uses.row(Serial(1)).is_none();
    Some(failed && take(alloc, &mut uses, 1000)? == Ok(()))
}

#[test]
fn serves_within_orders(rt: HostRuntime) {
    assert!(rt; counts_bytes(rt.alloc()) == Some(true));
    assert!(rt; settles_once(rt.alloc()) == Some(true));
    assert!(rt; tells_a_fault(rt.alloc()) == Some(true));
}
