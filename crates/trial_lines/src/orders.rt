// Orders, by their fields or as bytes.
use crate::fields::{Fields, LineErr};
use order_limits::{Action, Keys, Limit, Order};
use sat_base::{CustomerId, NodeId, SegId, Serial};
use std::alloc::Global;

// The bytes of an order: `hex BYTES`, or `order` with its fields, whose tags are made with the store's keys.
pub(crate) fn order(
    alloc: Global,
    keys: &Keys,
    fields: &mut Fields<'_>,
) -> Result<Vec<u8>, LineErr> {
    match fields.word()? {
        "hex" if !fields.is_done() => bytes(alloc, fields),
        "order" => Ok(Vec::from_slice(alloc, &order_of(fields)?.write(keys))?),
        _ => Err(LineErr::Bad),
    }
}

// `-` is none.
fn bytes(alloc: Global, fields: &mut Fields<'_>) -> Result<Vec<u8>, LineErr> {
    if fields.rest() == "-" {
        fields.word()?;
        return Ok(Vec::new(alloc));
    }
    fields.hex(alloc)
}

// The limit's fields, and AMOUNT.
fn order_of(fields: &mut Fields<'_>) -> Result<Order, LineErr> {
    Ok(Order {
        limit: limit(fields)?,
        amount: fields.number()?,
    })
}

// ACTION SERIAL NODE SEGMENT INDEX LIMIT ISSUED EXPIRES CUSTOMER.
fn limit(fields: &mut Fields<'_>) -> Result<Limit, LineErr> {
    Ok(Limit {
        action: Action::of(fields.number()?).ok_or(LineErr::Bad)?,
        serial: Serial(fields.number()?),
        node: NodeId(fields.number()?),
        segment: SegId(fields.number()?),
        index: fields.number()?,
        limit: fields.number()?,
        issued: fields.number()?,
        expires: fields.number()?,
        customer: CustomerId(fields.number()?),
    })
}
