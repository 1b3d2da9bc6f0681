// Requests, as texts.
use anyhow::Result;
use order_limits::{Action, Keys, LIFE, Limit, Order};
use sat_base::{CustomerId, NodeId, SegId, Serial};
use std::alloc::Global;

/// 2026-03-01.
pub const NOW: u64 = 1_772_323_200;

/// When that month is over.
pub const APRIL: u64 = 1_775_001_600;

// The secret of the store.
const SECRET: [u8; 32] = [0; 32];

fn post(alloc: Global, path: &str, key: &[u8; 32], body: &str) -> Result<Vec<u8>> {
    let key = hex::encode(alloc, key)?;
    let len = body.len();
    let text = format!(in alloc;
        "POST {path} HTTP/1.1\r\nx-key: {key}\r\ncontent-length: {len}\r\n\r\n{body}"
    )?;
    Ok(Vec::from_slice(alloc, text.as_bytes())?)
}

/// Adds a node.
pub fn node(alloc: Global) -> Result<Vec<u8>> {
    let key = Keys::new(SECRET).operator();
    let body = r#"{"request":1,"addr":"10.0.1.1","port":7001,"free":1000}"#;
    post(alloc, "/op/nodes", &key, body)
}

/// Adds a node of this number, whose address has it as third part, at a port.
pub fn node_at(alloc: Global, number: u8, port: u16) -> Result<Vec<u8>> {
    let body = format!(in alloc;
        "{{\"request\":{number},\"addr\":\"127.0.{number}.1\",\"port\":{port},\"free\":1000000}}"
    )?;
    post(alloc, "/op/nodes", &Keys::new(SECRET).operator(), &body)
}

/// Adds a customer.
pub fn customer(alloc: Global, request: u64) -> Result<Vec<u8>> {
    let body = format!(in alloc; "{{\"request\":{request}}}")?;
    post(alloc, "/op/customers", &Keys::new(SECRET).operator(), &body)
}

// The first customer asks.
fn post_segment(alloc: Global, path: &str, body: &str) -> Result<Vec<u8>> {
    post(
        alloc,
        path,
        &Keys::new(SECRET).customer(CustomerId(1)),
        body,
    )
}

/// The first customer begins a segment of a stripe.
pub fn begin(alloc: Global) -> Result<Vec<u8>> {
    post_segment(alloc, "/c/1/segments", r#"{"request":1,"len":512}"#)
}

/// It commits the first five pieces of it.
pub fn commit(alloc: Global) -> Result<Vec<u8>> {
    post_segment(
        alloc,
        "/c/1/segments/1/commit",
        r#"{"request":2,"pieces":[0,1,2,3,4]}"#,
    )
}

/// It asks for the pieces.
pub fn get(alloc: Global, request: u64) -> Result<Vec<u8>> {
    let body = format!(in alloc; "{{\"request\":{request}}}")?;
    post_segment(alloc, "/c/1/segments/1/get", &body)
}

/// Closes March.
pub fn close(alloc: Global) -> Result<Vec<u8>> {
    let body = r#"{"month":"2026-03"}"#;
    post(alloc, "/op/close", &Keys::new(SECRET).operator(), body)
}

/// Sets the rates from this month on.
pub fn rates(alloc: Global, month: &str) -> Result<Vec<u8>> {
    let body = format!(in alloc;
        "{{\"month\":\"{month}\",\"get\":1,\"audit\":2,\"repair\":3,\"storage\":4}}"
    )?;
    post(alloc, "/op/rates", &Keys::new(SECRET).operator(), &body)
}

/// The first node asks for its statement of March.
pub fn statement(alloc: Global) -> Result<Vec<u8>> {
    let key = hex::encode(alloc, Keys::new(SECRET).node(NodeId(1)))?;
    let text = format!(in alloc; "GET /n/1/statement/2026-03 HTTP/1.1\r\nx-key: {key}\r\n\r\n")?;
    Ok(Vec::from_slice(alloc, text.as_bytes())?)
}

/// The first node leaves.
pub fn leave(alloc: Global) -> Result<Vec<u8>> {
    post(alloc, "/n/1/exit", &Keys::new(SECRET).node(NodeId(1)), "{}")
}

/// Stops the machine.
pub fn stop(alloc: Global) -> Result<Vec<u8>> {
    post(alloc, "/op/stop", &Keys::new(SECRET).operator(), "{}")
}

/// Settles an order of this serial and amount for the first node.
pub fn settle(alloc: Global, serial: u64, amount: u64) -> Result<Vec<u8>> {
    let keys = Keys::new(SECRET);
    let node = NodeId(1);
    let limit = Limit {
        action: Action::Get,
        serial: Serial(serial),
        node,
        segment: SegId(5),
        index: 3,
        limit: 1000,
        issued: NOW,
        expires: NOW + LIFE,
        customer: CustomerId(9),
    };
    let order = Order { limit, amount }.write(&keys);
    let digits = hex::encode(alloc, order.as_slice())?;
    let body = format!(in alloc; "{{\"order\":\"{digits}\"}}")?;
    post(alloc, "/n/1/settle", &keys.node(node), &body)
}
