// Reading limits and orders. The refusals are tested in the order in which they are declared.
ghost use Rattle.std.specs.Prelude.{◌≡◌, ◌≤◌, ◌+◌, length, IfOk};
ghost use Rattle.std.specs.Int.{w32, w64};
ghost use Rattle.order_limits.specs.Order.{IsGoodLimit, IsGoodOrder, IsOffer, FitsLimit, FitsOrder};
ghost use Rattle.order_limits.specs.Read.{number_in, fields_of, is_tag_of, limit_of, order_of, offer_of};

use crate::bytes::bytes_at;
use crate::keys::Keys;
use crate::limit::{Action, Limit, Order, order_tag};
use crate::mac::hmac;
use crate::same::is_same;
use sat_base::{CustomerId, NodeId, SegId, Serial};

/// Why bytes are no order, or no limit: the first of these that holds.
#[derive(Clone, Copy, Debug, PartialEq, Eq)]
pub enum OrderErr {
    /// There are so many bytes, and not 123, or not 83 of a limit.
    Length { got: u64 },
    /// The first byte is this and not 1.
    Version { got: u8 },
    /// The second byte is this, which is no action's.
    Action { got: u8 },
    /// The tag of the limit isn't that of its first 51 bytes under its node's key.
    LimitTag,
    /// The tag of the order isn't that of its node and amount under its serial's key.
    OrderTag,
}

// The number of four bytes at a place.
fn u32_at(bytes: &[u8], at: usize) -> u32
    requires { at + 4 ≤ length bytes.now }
    ensures { result ≡ number_in w32 at bytes.now }
{
    let b = bytes_at(bytes, at, 4);
    u32::from_be_bytes([b[0], b[1], b[2], b[3]])
}

// The number of eight bytes at a place.
fn u64_at(bytes: &[u8], at: usize) -> u64
    requires { at + 8 ≤ length bytes.now }
    ensures { result ≡ number_in w64 at bytes.now }
{
    let b = bytes_at(bytes, at, 8);
    u64::from_be_bytes([b[0], b[1], b[2], b[3], b[4], b[5], b[6], b[7]])
}

// The fields of a limit, whatever its tag.
#[tactic(auto, unfolding(crate::specs::Read::fields_of))]
fn fields(bytes: &[u8]) -> Result<Limit, OrderErr>
    requires { 51 ≤ length bytes.now }
    ensures exact { result ≡ fields_of bytes.now }
    ensures fits { IfOk result FitsLimit }
{
    let version = bytes[0];
    if version != 1 {
        return Err(OrderErr::Version { got: version });
    }
    let Some(action) = Action::of(bytes[1]) else {
        return Err(OrderErr::Action { got: bytes[1] });
    };
    Ok(Limit {
        action,
        serial: Serial(u64_at(bytes, 2)),
        node: NodeId(u32_at(bytes, 10)),
        segment: SegId(u64_at(bytes, 14)),
        index: bytes[22],
        limit: u64_at(bytes, 23),
        issued: u64_at(bytes, 31),
        expires: u64_at(bytes, 39),
        customer: CustomerId(u32_at(bytes, 47)),
    })
}

// Whether this is the tag of a text under a key.
fn is_tag(tag: &[u8], key: &[u8; 32], text: &[u8]) -> bool
    ensures { result ≡ is_tag_of tag.now key.now text.now }
{
    is_same(tag, &hmac(key, text))
}

/// Reads a limit of 83 bytes under the key of its node, as the node itself can.
///
/// The errors are the first four of [`OrderErr`], in their order.
pub fn read_limit(node_key: &[u8; 32], bytes: &[u8]) -> Result<Limit, OrderErr>
    // A limit is read exactly where the bytes are one.
    ensures found { IfOk result (λ limit. IsGoodLimit node_key.now bytes.now limit) }
    ensures only { (limit : Limit) → IsGoodLimit node_key.now bytes.now limit → result ≡ Ok limit }

    // Where they aren't, it is the first refusal that holds.
    ensures exact { result ≡ limit_of node_key.now bytes.now }
{
    checked_limit(node_key, bytes)
}

#[tactic(auto, unfolding(crate::specs::Read::limit_of))]
fn checked_limit(node_key: &[u8; 32], bytes: &[u8]) -> Result<Limit, OrderErr>
    ensures exact { result ≡ limit_of node_key.now bytes.now }
    ensures fits { IfOk result FitsLimit }
{
    if bytes.len() != 83 {
        return Err(OrderErr::Length {
            got: bytes.len() as u64,
        });
    }
    let body = bytes_at(bytes, 0, 51);
    let tag = bytes_at(bytes, 51, 32);
    let limit = fields(body)?;
    if !is_tag(tag, node_key, body) {
        return Err(OrderErr::LimitTag);
    }
    Ok(limit)
}

/// Reads an order of 123 bytes under the keys of the satellite.
///
/// The errors are those of [`OrderErr`], in their order.
pub fn read_order(keys: &Keys, bytes: &[u8]) -> Result<Order, OrderErr>
    // An order is read exactly where the bytes are one.
    ensures found { IfOk result (λ order. IsGoodOrder keys.now bytes.now order) }
    ensures only { (order : Order) → IsGoodOrder keys.now bytes.now order → result ≡ Ok order }

    // Where they aren't, it is the first refusal that holds.
    ensures exact { result ≡ order_of keys.now bytes.now }
{
    checked_order(keys, bytes)
}

#[tactic(auto, unfolding(crate::specs::Read::order_of))]
fn checked_order(keys: &Keys, bytes: &[u8]) -> Result<Order, OrderErr>
    ensures exact { result ≡ order_of keys.now bytes.now }
    ensures fits { IfOk result FitsOrder }
{
    if bytes.len() != 123 {
        return Err(OrderErr::Length {
            got: bytes.len() as u64,
        });
    }
    let body = bytes_at(bytes, 0, 51);
    let limit_tag = bytes_at(bytes, 51, 32);
    let amount = u64_at(bytes, 83);
    let tag = bytes_at(bytes, 91, 32);
    let limit = fields(body)?;
    if !is_tag(limit_tag, &keys.node(limit.node), body) {
        return Err(OrderErr::LimitTag);
    }
    if !is_same(tag, &order_tag(keys, limit.serial, limit.node, amount)) {
        return Err(OrderErr::OrderTag);
    }
    Ok(Order { limit, amount })
}

/// Reads an order of 123 bytes under the key of the node that its limit is for, as the node itself can. The order's own
/// tag, which needs its serial's key, isn't tested.
///
/// The errors are the first four of [`OrderErr`], in their order.
pub fn read_offer(node_key: &[u8; 32], bytes: &[u8]) -> Result<Order, OrderErr>
    // An order is read exactly where the bytes are one, with some tag of 32 bytes.
    ensures found { IfOk result (λ order. IsOffer node_key.now bytes.now order) }
    ensures only { (order : Order) → IsOffer node_key.now bytes.now order → result ≡ Ok order }

    // Where they aren't, it is the first refusal that holds.
    ensures exact { result ≡ offer_of node_key.now bytes.now }
{
    checked_offer(node_key, bytes)
}

#[tactic(auto, unfolding(crate::specs::Read::offer_of))]
fn checked_offer(node_key: &[u8; 32], bytes: &[u8]) -> Result<Order, OrderErr>
    ensures exact { result ≡ offer_of node_key.now bytes.now }
    ensures fits { IfOk result FitsOrder }
{
    if bytes.len() != 123 {
        return Err(OrderErr::Length {
            got: bytes.len() as u64,
        });
    }
    let body = bytes_at(bytes, 0, 51);
    let limit_tag = bytes_at(bytes, 51, 32);
    let amount = u64_at(bytes, 83);
    let limit = fields(body)?;
    if !is_tag(limit_tag, node_key, body) {
        return Err(OrderErr::LimitTag);
    }
    Ok(Order { limit, amount })
}
