// Orders and the rows of settled ones: tags by the standard, an order written and read, and pairs that settle once. The orders
// were made by a script outside of this project with its own HMAC.
use order_limits::{Action, Keys, Limit, Order, OrderErr, hmac, read_limit, read_order};
use sat_base::{CustomerId, Moment, NoMemory, NodeId, SegId, Serial};
use settlement::{Settlable, SettleErr, Settled, Settling};
use std::alloc::Global;

// A secret of 32 zero bytes.
const SECRET: &str = "0000000000000000000000000000000000000000000000000000000000000000";

// Node 7's order of 1000 bytes under serial 1, whose limit is 1000.
pub(crate) const X_1000: &str =
    "010200000000000000010000000700000000000000050300000000000003e80000000069a381800000000069a4d30000000009114613fcda4fcdf7bbfc78f4e04b9a75aaa4795b1f75c5bbf0adbd0499e2300200000000000003e8b6170ff0045dcea860e84cbe6cb0144ac3064a68089659ac44c3b76218384466";

// Node 8's order of 1000 bytes under serial 1.
const NODE_8: &str =
    "010200000000000000010000000800000000000000050300000000000003e80000000069a381800000000069a4d300000000097afbebdd8ec7d201c4fbe597a443c86b6cc1f0cfb526b575c5f4914068b96c1a00000000000003e88561ba7bac034bb351492ee1b7f8c6305d5e0f2f5e521ec6efbc5d150bc7d660";

// Node 7's order of 1000 bytes under serial 2.
const SERIAL_2: &str =
    "010200000000000000020000000700000000000000050300000000000003e80000000069a381800000000069a4d300000000097eee18c69cf147b731408e056236231e07905585cf60305c96972846065d5e1000000000000003e8784b18db49b693fb53cbd12df2745976430038434907fc97af06e70d632a39e5";

// The sample order, by its fields.
const SAMPLE: Order = Order {
    limit: Limit {
        action: Action::Get,
        serial: Serial(1),
        node: NodeId(7),
        segment: SegId(5),
        index: 3,
        limit: 1000,
        issued: 1772323200,
        expires: 1772409600,
        customer: CustomerId(9),
    },
    amount: 1000,
};

// The tag of RFC 4231, test case 2.
fn is_tag(alloc: Global, known: &str) -> bool {
    let tag = hmac(b"Jefe", b"what do ya want for nothing?");
    match hex::encode(alloc, tag) {
        Ok(text) => text.as_str() == known,
        Err(_) => false,
    }
}

#[test]
fn tags_by_the_standard(rt: HostRuntime) {
    let known = "5bdcc146bf60754e6a042426089575c75a003f089d2739839dec58b964ec3843";
    assert!(rt; is_tag(rt.alloc(), known));
}

fn is_written(alloc: Global, keys: &Keys) -> bool {
    match hex::encode(alloc, SAMPLE.write(keys)) {
        Ok(text) => text.as_str() == X_1000,
        Err(_) => false,
    }
}

fn reads_the_order(keys: &Keys) -> bool {
    let bytes = SAMPLE.write(keys);
    let limit = SAMPLE.limit.write(keys);
    bytes.starts_with(&limit) && read_order(keys, &bytes) == Ok(SAMPLE)
}

// What a node reads of bytes as a limit.
fn limit_at(keys: &Keys, node: u32, bytes: &[u8]) -> Result<Limit, OrderErr> {
    let key = keys.node(NodeId(node));
    read_limit(&key, bytes)
}

fn reads_the_limit(keys: &Keys) -> bool {
    let limit = SAMPLE.limit.write(keys);
    limit_at(keys, 7, &limit) == Ok(SAMPLE.limit)
        && limit_at(keys, 8, &limit) == Err(OrderErr::LimitTag)
}

fn refuses_an_order_as_limit(keys: &Keys) -> bool {
    let bytes = SAMPLE.write(keys);
    limit_at(keys, 7, &bytes) == Err(OrderErr::Length { got: 123 })
}

#[test]
fn writes_and_reads_orders(rt: HostRuntime) {
    let keys = Keys::new([0; 32]);
    assert!(rt; is_written(rt.alloc(), &keys) && reads_the_order(&keys));
    assert!(rt; reads_the_limit(&keys) && refuses_an_order_as_limit(&keys));
}

const NOW: u64 = 1772323200;

// Whether an order is new, is settled, and is known from then on.
fn settles(rows: &mut Settled, keys: &Keys, node: NodeId, bytes: &[u8]) -> bool {
    let now = Moment::of(NOW);
    matches!(rows.check(keys, node, now, bytes), Ok(Settlable::New(_)))
        && rows.settle(keys, node, now, bytes) == Ok(Settling::Settled { amount: 1000 })
        && rows.check(keys, node, now, bytes) == Ok(Settlable::Again { amount: 1000 })
}

fn settles_text(alloc: Global, rows: &mut Settled, keys: &Keys, node: u32, text: &str) -> bool {
    match hex::decode(alloc, text) {
        Ok(bytes) => settles(rows, keys, NodeId(node), &bytes),
        Err(_) => false,
    }
}

fn settles_each(alloc: Global, rows: &mut Settled, keys: &Keys) -> bool {
    settles_text(alloc, rows, keys, 7, SERIAL_2)
        && settles_text(alloc, rows, keys, 8, NODE_8)
        && settles_text(alloc, rows, keys, 7, X_1000)
}

fn next(rows: &Settled, after: Option<(Serial, NodeId)>) -> Option<(Serial, NodeId)> {
    rows.next_row(after).map(|row| (row.serial, row.node))
}

// Whether the rows are those of the three orders, one after another.
fn are_settled(rows: &Settled) -> bool {
    let first = next(rows, None);
    let second = next(rows, first);
    let third = next(rows, second);
    let want = [
        Some((Serial(1), NodeId(7))),
        Some((Serial(1), NodeId(8))),
        Some((Serial(2), NodeId(7))),
        None,
    ];
    [first, second, third, next(rows, third)] == want
}

fn refuses_no_bytes(rows: &mut Settled, keys: &Keys) -> bool {
    rows.settle(keys, NodeId(7), Moment::of(NOW), &[]) == Err(SettleErr::Length { got: 0 })
}

fn keeps_rows(alloc: Global, keys: &Keys) -> Result<bool, NoMemory> {
    let mut rows = Settled::new(alloc, 4);
    let empty = next(&rows, None).is_none();
    rows.reserve()?;
    let settled = settles_each(alloc, &mut rows, keys) && are_settled(&rows);
    Ok(empty && settled && refuses_no_bytes(&mut rows, keys))
}

fn keys() -> Option<Keys> {
    let secret: Result<[u8; 32], hex::FromHexError> = hex::FromHex::from_hex(SECRET);
    secret.ok().map(Keys::new)
}

#[test]
fn keeps_settled_rows(rt: HostRuntime) {
    let kept = match keys() {
        Some(keys) => keeps_rows(rt.alloc(), &keys),
        None => Ok(false),
    };
    assert!(rt; kept == Ok(true));
}
