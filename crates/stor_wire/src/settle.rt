// The request by which an order is offered to the satellite.
ghost use Rattle.std.specs.Prelude.{◌≡◌, IfOk, string_bytes};
ghost use Rattle.serde_json.specs.View.{view};
ghost use Rattle.stor_wire.specs.Offering.{front_text, order_data, settle_text};

use sat_base::{Bytes, Items, NoMemory, NodeId};
use serde_json::{Value, json};
use std::alloc::{AllocError, Global};

/// A node, as it offers its orders, and where.
#[derive(Clone, Copy, Debug, PartialEq, Eq)]
pub struct Account {
    pub node: NodeId,
    /// The node's key.
    pub key: [u8; 32],
    /// The port of this machine at which the satellite answers.
    pub port: u16,
}

/// The bytes that offer an order to the satellite: `POST /n/NODE/settle` (RFC 9112), with the node's key in `x-key`, and a body in
/// JSON (RFC 8259).
pub fn settle_request(
    alloc: Global,
    account: &Account,
    order: &[u8; 123],
) -> Result<Bytes, NoMemory>
    ensures { IfOk result (λ bytes. bytes ≡ settle_text account.now order.now) }
{
    let body = order_value(alloc, order)?.to_string(alloc)?;
    let key = hex::encode(alloc, account.key.as_slice())?;
    let mut text = front_of(alloc, account.port, account.node, key.as_str(), body.len())?;
    text.push_str(body.as_str())?;
    Ok(Items::of(text.into_bytes()))
}

// The request line and the headers, and the empty line behind them.
fn front_of(
    alloc: Global,
    port: u16,
    node: NodeId,
    key: &str,
    size: usize,
) -> Result<String, AllocError>
    ensures { IfOk result (λ text. string_bytes text ≡ front_text port node key.now size) }
{
    let node = node.0;
    let mut text = format!(in alloc;
        "POST /n/{node}/settle HTTP/1.1\r\nhost: 127.0.0.1:{port}\r\nx-key: "
    )?;
    text.push_str(key)?;
    let rest = format!(in alloc;
        "\r\ncontent-type: application/json\r\ncontent-length: {size}\r\nconnection: close\r\n\r\n"
    )?;
    text.push_str(rest.as_str())?;
    Ok(text)
}

// The JSON of an order.
fn order_value(alloc: Global, order: &[u8; 123]) -> Result<Value, AllocError>
    ensures { IfOk result (λ v. view v ≡ order_data order.now) }
{
    let order = hex::encode(alloc, order.as_slice())?;
    json!(in alloc; {"order": order})
}
