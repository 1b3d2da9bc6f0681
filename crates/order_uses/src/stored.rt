// Uses as rows of a store.
ghost use Rattle.std.specs.Prelude.{◌≡◌, None, Ok, length, IfOk, IfSome};
ghost use Rattle.std.specs.Int.{w64};
ghost use Rattle.order_limits.specs.Part.{part};
ghost use Rattle.order_limits.specs.Read.{number_in};
ghost use Rattle.order_uses.specs.Opening.{HasSerial, IsUse};
ghost use Rattle.order_uses.specs.Reading.{flag_in, use_in, use_made};
ghost use Rattle.order_uses.specs.Rows.{flag, row_of_use, use_id};
ghost use Rattle.order_uses.specs.Uses.{IsUnderKey};
ghost use Rattle.order_uses.specs.View.{putting};

use crate::bytes::{are_bytes, number_at, order_bytes, part_at};
use crate::row::OrderUse;
use order_limits::{Order, read_offer};
use sat_base::{Change, Items, NoMemory, Row, Serial};
use std::alloc::Global;

// The kind of the rows.
const KIND: u8 = 50;

const ORDER_LEN: usize = 123;

const BODY_LEN: usize = 132;

fn flag(done: bool) -> u8
    ensures { result ≡ flag done }
{
    if done { 1 } else { 0 }
}

#[tactic(auto, unfolding(crate::specs::Rows::use_id))]
fn id_of(serial: Serial) -> [u8; 8]
    ensures { result ≡ use_id serial.0 }
{
    serial.0.to_be_bytes()
}

#[tactic(auto, unfolding(crate::specs::Rows::use_body))]
fn write_use(alloc: Global, one: &OrderUse) -> Result<Row, NoMemory>
    ensures { IfOk result (λ row. row ≡ row_of_use one.now) }
{
    let id = Vec::from_slice(alloc, &id_of(one.serial))?;
    let mut body = Vec::with_capacity(alloc, BODY_LEN)?;
    body.extend_from_slice(&one.order)?;
    body.extend_from_slice(&one.served.to_be_bytes())?;
    body.push(flag(one.done))?;
    Ok(Row {
        kind: KIND,
        id: Items::of(id),
        body: Items::of(body),
    })
}

/// The change that puts the row of a use.
pub(crate) fn put_change(alloc: Global, one: &OrderUse) -> Result<Vec<Change>, NoMemory>
    ensures { IfOk result (λ changes. changes.items ≡ putting one.now) }
{
    let mut changes = Vec::with_capacity(alloc, 1)?;
    changes.push(Change::Put(write_use(alloc, one)?))?;
    Ok(changes)
}

// What a flag says.
fn flag_of(byte: u8) -> Option<bool>
    ensures { result ≡ flag_in byte }
{
    match byte {
        0 => Some(false),
        1 => Some(true),
        _ => None,
    }
}

// The use of an order that was read.
fn make_use(id: &[u8], order: [u8; 123], served: u64, done: bool, offer: &Order) -> Option<OrderUse>
    ensures { result ≡ use_made id.now order served done (Ok offer.now) }
{
    let serial = offer.limit.serial;
    let own = id_of(serial);
    if id == own.as_slice() && served <= offer.amount && offer.amount <= offer.limit.limit {
        return Some(OrderUse {
            serial,
            order,
            served,
            done,
        });
    }
    None
}

#[tactic(auto, unfolding(crate::specs::Reading::use_in))]
fn use_of(key: &[u8; 32], row: &Row) -> Option<OrderUse>
    ensures { result ≡ use_in key.now row.now }
{
    let body = row.body.as_slice();
    if row.kind != KIND || body.len() != BODY_LEN {
        return None;
    }
    let done = flag_of(body[131])?;
    let order = order_bytes(part_at(body, 0, ORDER_LEN));
    let served = number_at(body, ORDER_LEN);
    match read_offer(key, &order) {
        Ok(offer) => make_use(row.id.as_slice(), order, served, done, &offer),
        Err(_) => None,
    }
}

/// The use that a row is of, where it is one under the key.
pub(crate) fn read_use(key: &[u8; 32], row: &Row) -> Option<OrderUse>
    ensures found { IfSome result (λ one. IsUnderKey key.now one × (row.now ≡ row_of_use one)) }
    ensures serial { IfSome result HasSerial }
    ensures only { result ≡ None → IsUse key.now row.now → ⊥ }
{
    are_bytes(row.body.as_slice());
    use_of(key, row)
}
