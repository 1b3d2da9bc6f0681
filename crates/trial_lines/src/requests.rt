// Requests, one a line: the name, the moment, and then the fields in their order.
ghost use Rattle.std.specs.Prelude.{◌≡◌, length, IfOk};
ghost use Rattle.machine_step.specs.Step.{IsAsked};

use crate::fields::{Fields, LineErr};
use crate::months::on_months;
use crate::orders::order;
use machine_calls::{Call, Wish, are_bytes};
use order_limits::Keys;
use sat_base::{CustomerId, Items, Moment, NodeId, SegId, Words64};
use std::alloc::Global;

// The request that a line says. Orders are made with the store's keys.
pub(crate) fn request(alloc: Global, keys: &Keys, fields: &mut Fields<'_>) -> Result<Call, LineErr>
    ensures { IfOk result IsAsked }
{
    let call = first_request(alloc, keys, fields)?;
    whole(fields, call)
}

// What was read of a line, unless more of it is left.
fn whole<T: Drop>(fields: &Fields<'_>, read: T) -> Result<T, LineErr>
    ensures { IfOk result (λ same. same ≡ read) }
{
    match fields.end() {
        Ok(()) => Ok(read),
        Err(e) => Err(e),
    }
}

// The request that the next words say.
fn first_request(alloc: Global, keys: &Keys, fields: &mut Fields<'_>) -> Result<Call, LineErr>
    ensures { IfOk result IsAsked }
{
    match fields.word()? {
        "add-node" => add_node(alloc, fields),
        "add-customer" => add_customer(alloc, fields),
        "begin" => begin(alloc, fields),
        "commit" => commit(alloc, fields),
        "get" => get(alloc, fields),
        "delete" => delete(alloc, fields),
        "settle" => settle(alloc, keys, fields),
        "set-free" => set_free(alloc, fields),
        "exit" => exit(alloc, fields),
        "stop" => Ok(Call::of_wish(alloc, Moment::of(0), Wish::Stop)),
        word => on_months(alloc, word, fields),
    }
}

pub(crate) fn moment(fields: &mut Fields<'_>) -> Result<Moment, LineErr> {
    Ok(Moment::of(fields.number()?))
}

// NOW REQUEST ADDR PORT FREE.
fn add_node(alloc: Global, fields: &mut Fields<'_>) -> Result<Call, LineErr>
    ensures { IfOk result IsAsked }
{
    let now = moment(fields)?;
    let wish = Wish::AddNode {
        request: fields.number()?,
        addr: fields.number()?,
        port: fields.number()?,
        free: fields.number()?,
    };
    Ok(Call::of_wish(alloc, now, wish))
}

// NOW REQUEST.
fn add_customer(alloc: Global, fields: &mut Fields<'_>) -> Result<Call, LineErr>
    ensures { IfOk result IsAsked }
{
    let now = moment(fields)?;
    let wish = Wish::AddCustomer {
        request: fields.number()?,
    };
    Ok(Call::of_wish(alloc, now, wish))
}

// NOW CUSTOMER REQUEST LEN WORDS.
fn begin(alloc: Global, fields: &mut Fields<'_>) -> Result<Call, LineErr>
    ensures { IfOk result IsAsked }
{
    let now = moment(fields)?;
    let wish = Wish::Begin {
        customer: CustomerId(fields.number()?),
        request: fields.number()?,
        len: fields.number()?,
    };
    let words = words(alloc, 128, fields)?;
    Ok(Call::Asked { now, words, wish })
}

// So many words, by a generator from a start, `from START`, or as a list of numbers that come round again.
pub(crate) fn words(
    alloc: Global,
    count: usize,
    fields: &mut Fields<'_>,
) -> Result<Words64, LineErr>
    ensures { IfOk result (λ words. length words ≡ count) }
{
    let mut words = vec![in alloc; 0u64; count]?;
    let mut list = *fields;
    if fields.word()? == "from" {
        let mut state: u64 = fields.number()?;
        for word in words.as_mut_slice() {
            state = state
                .wrapping_mul(6_364_136_223_846_793_005)
                .wrapping_add(1_442_695_040_888_963_407);
            *word = state ^ (state >> 33);
        }
    } else {
        let numbers = list.numbers(alloc)?;
        if numbers.is_empty() {
            return Err(LineErr::Bad);
        }
        for (word, number) in words.as_mut_slice().iter_mut().zip(numbers.iter().cycle()) {
            *word = *number;
        }
    }
    Ok(Items::of(words))
}

// NOW CUSTOMER REQUEST SEGMENT INDEXES.
fn commit(alloc: Global, fields: &mut Fields<'_>) -> Result<Call, LineErr>
    ensures { IfOk result IsAsked }
{
    let now = moment(fields)?;
    let wish = Wish::Commit {
        customer: CustomerId(fields.number()?),
        request: fields.number()?,
        segment: SegId(fields.number()?),
        indexes: Items::of(fields.numbers(alloc)?),
    };
    Ok(Call::of_wish(alloc, now, wish))
}

// NOW CUSTOMER REQUEST SEGMENT.
fn get(alloc: Global, fields: &mut Fields<'_>) -> Result<Call, LineErr>
    ensures { IfOk result IsAsked }
{
    let now = moment(fields)?;
    let wish = Wish::Get {
        customer: CustomerId(fields.number()?),
        request: fields.number()?,
        segment: SegId(fields.number()?),
    };
    Ok(Call::of_wish(alloc, now, wish))
}

// NOW CUSTOMER REQUEST SEGMENT.
fn delete(alloc: Global, fields: &mut Fields<'_>) -> Result<Call, LineErr>
    ensures { IfOk result IsAsked }
{
    let now = moment(fields)?;
    let wish = Wish::Delete {
        customer: CustomerId(fields.number()?),
        request: fields.number()?,
        segment: SegId(fields.number()?),
    };
    Ok(Call::of_wish(alloc, now, wish))
}

// NOW NODE ORDER.
fn settle(alloc: Global, keys: &Keys, fields: &mut Fields<'_>) -> Result<Call, LineErr>
    ensures { IfOk result IsAsked }
{
    let now = moment(fields)?;
    let node = NodeId(fields.number()?);
    let bytes = Items::of(order(alloc, keys, fields)?);
    are_bytes(bytes.as_slice());
    Ok(Call::of_wish(alloc, now, Wish::Settle { node, bytes }))
}

// NOW NODE FREE.
fn set_free(alloc: Global, fields: &mut Fields<'_>) -> Result<Call, LineErr>
    ensures { IfOk result IsAsked }
{
    let now = moment(fields)?;
    let wish = Wish::SetFree {
        node: NodeId(fields.number()?),
        free: fields.number()?,
    };
    Ok(Call::of_wish(alloc, now, wish))
}

// NOW NODE.
fn exit(alloc: Global, fields: &mut Fields<'_>) -> Result<Call, LineErr>
    ensures { IfOk result IsAsked }
{
    let now = moment(fields)?;
    let wish = Wish::Exit {
        node: NodeId(fields.number()?),
    };
    Ok(Call::of_wish(alloc, now, wish))
}
