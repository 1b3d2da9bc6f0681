// What a body says under a route.
ghost use Rattle.std.specs.Prelude.{◌≡◌, codes, option_map, option_and_then, IfOk};
ghost use Rattle.serde_json.specs.Find.{get, as_str, as_array};
ghost use Rattle.serde_json.specs.View.{view as data_of, items_view};
ghost use Rattle.http_edge.specs.Fields.{Gives, body_of, wish_in, node_in, begin_in, commit_in, settle_in, free_in, close_in, rates_in, number_at, whole_of, port_at, addr_at, order_at, pieces_at};
ghost use Rattle.http_edge.specs.Wishes.{IsRouteWithin, IsWishWithin};

use crate::errors::EdgeErr;
use crate::months::{month_from, rates_from};
use crate::order::order_of;
use crate::pieces::indexes_of;
use crate::routes::Route;
use address_text::address;
use machine_calls::Wish;
use sat_base::{Bytes, CustomerId, Indexes, NodeId, SegId};
use serde_json::Value;
use std::alloc::Global;

/// The wish of a body under a route.
pub(crate) fn wish_of(alloc: Global, route: Route, body: &[u8]) -> Result<Wish, EdgeErr>
    requires { IsRouteWithin route }
    ensures wish { Gives result (body_of route body.now) }
    ensures within { IfOk result IsWishWithin }
{
    match Value::from_slice(alloc, body) {
        Ok(value) => wish_from(alloc, route, &value),
        Err(e) => {
            if e.is_memory() {
                return Err(EdgeErr::NoMemory);
            }
            Err(EdgeErr::Json)
        }
    }
}

fn wish_from(alloc: Global, route: Route, value: &Value) -> Result<Wish, EdgeErr>
    requires { IsRouteWithin route }
    ensures wish { Gives result (wish_in route (data_of value.now)) }
    ensures within { IfOk result IsWishWithin }
{
    match route {
        Route::AddNode => node_from(value),
        Route::AddCustomer => Ok(Wish::AddCustomer {
            request: request_of(value)?,
        }),
        Route::Begin { customer } => begin_from(customer, value),
        Route::Commit { customer, segment } => commit_from(alloc, customer, segment, value),
        Route::Get { customer, segment } => Ok(Wish::Get {
            customer,
            request: request_of(value)?,
            segment,
        }),
        Route::Delete { customer, segment } => Ok(Wish::Delete {
            customer,
            request: request_of(value)?,
            segment,
        }),
        Route::Settle { node } => settle_from(alloc, node, value),
        Route::SetFree { node } => free_from(node, value),
        Route::Exit { node } => Ok(Wish::Exit { node }),
        Route::Statement { node, month } => Ok(Wish::Statement { node, month }),
        Route::CloseMonth => close_from(value),
        Route::SetRates => set_rates_from(value),
        Route::Stop => Ok(Wish::Stop),
    }
}

fn node_from(value: &Value) -> Result<Wish, EdgeErr>
    ensures wish { result ≡ node_in (data_of value.now) }
    ensures within { IfOk result IsWishWithin }
{
    let request = request_of(value)?;
    let addr = addr_of(value)?;
    let port = port_of(value)?;
    let free = number_of(value, "free", 5)?;
    Ok(Wish::AddNode {
        request,
        addr,
        port,
        free,
    })
}

fn begin_from(customer: CustomerId, value: &Value) -> Result<Wish, EdgeErr>
    ensures wish { result ≡ begin_in customer (data_of value.now) }
    ensures within { IfOk result IsWishWithin }
{
    let request = request_of(value)?;
    let len = number_of(value, "len", 2)?;
    Ok(Wish::Begin {
        customer,
        request,
        len,
    })
}

fn commit_from(
    alloc: Global,
    customer: CustomerId,
    segment: SegId,
    value: &Value,
) -> Result<Wish, EdgeErr>
    ensures wish { Gives result (commit_in customer segment (data_of value.now)) }
    ensures within { IfOk result IsWishWithin }
{
    let request = request_of(value)?;
    let indexes = pieces_in(alloc, value)?;
    Ok(Wish::Commit {
        customer,
        request,
        segment,
        indexes,
    })
}

fn settle_from(alloc: Global, node: NodeId, value: &Value) -> Result<Wish, EdgeErr>
    ensures wish { Gives result (settle_in node (data_of value.now)) }
    ensures within { IfOk result IsWishWithin }
{
    let bytes = order_in(alloc, value)?;
    Ok(Wish::Settle { node, bytes })
}

fn free_from(node: NodeId, value: &Value) -> Result<Wish, EdgeErr>
    ensures wish { result ≡ free_in node (data_of value.now) }
    ensures within { IfOk result IsWishWithin }
{
    let free = number_of(value, "free", 5)?;
    Ok(Wish::SetFree { node, free })
}

fn close_from(value: &Value) -> Result<Wish, EdgeErr>
    ensures wish { result ≡ close_in (data_of value.now) }
    ensures within { IfOk result IsWishWithin }
{
    let month = month_from(value)?;
    Ok(Wish::CloseMonth { month })
}

fn set_rates_from(value: &Value) -> Result<Wish, EdgeErr>
    ensures wish { result ≡ rates_in (data_of value.now) }
    ensures within { IfOk result IsWishWithin }
{
    let month = month_from(value)?;
    let rates = rates_from(value)?;
    Ok(Wish::SetRates { month, rates })
}

fn request_of(value: &Value) -> Result<u64, EdgeErr>
    ensures { result ≡ number_at 1 (codes "request") (data_of value.now) }
{
    number_of(value, "request", 1)
}

fn number_of(value: &Value, name: &str, place: u8) -> Result<u64, EdgeErr>
    ensures { result ≡ number_at place name.now (data_of value.now) }
{
    match whole_number(value, name) {
        Some(n) => Ok(n),
        None => Err(EdgeErr::Field { place }),
    }
}

/// The field of that name, where it is a whole number from 0 to 2^64 - 1.
pub(crate) fn whole_number(value: &Value, name: &str) -> Option<u64>
    ensures { result ≡ option_and_then whole_of (get name.now (data_of value.now)) }
{
    value.get(name)?.as_u64()
}

/// The field of that name, where it is a text.
pub(crate) fn text_of<'a>(value: &'a Value, name: &str) -> Option<&'a str>
    ensures { option_map (λ s. s.now) result ≡ option_and_then as_str (get name.now (data_of value.now)) }
{
    value.get(name)?.as_str()
}

fn port_of(value: &Value) -> Result<u16, EdgeErr>
    ensures { result ≡ port_at (data_of value.now) }
{
    match whole_number(value, "port") {
        Some(port) if port >= 1 && port <= 65535 => Ok(port as u16),
        _ => Err(EdgeErr::Field { place: 7 }),
    }
}

fn addr_of(value: &Value) -> Result<u32, EdgeErr>
    ensures { result ≡ addr_at (data_of value.now) }
{
    let Some(text) = text_of(value, "addr") else {
        return Err(EdgeErr::Field { place: 6 });
    };
    match address(text.as_bytes()) {
        Some(addr) => Ok(addr),
        None => Err(EdgeErr::Field { place: 6 }),
    }
}

fn order_in(alloc: Global, value: &Value) -> Result<Bytes, EdgeErr>
    ensures { Gives result (order_at (data_of value.now)) }
{
    match text_of(value, "order") {
        Some(text) => order_of(alloc, text),
        None => Err(EdgeErr::Field { place: 4 }),
    }
}

fn pieces_in(alloc: Global, value: &Value) -> Result<Indexes, EdgeErr>
    ensures { Gives result (pieces_at (data_of value.now)) }
{
    match pieces_array(value) {
        Some(items) => indexes_of(alloc, items),
        None => Err(EdgeErr::Field { place: 3 }),
    }
}

// The field of pieces, where it is an array.
fn pieces_array(value: &Value) -> Option<&Vec<Value>>
    ensures { option_map (λ v. items_view v.now.items) result ≡ option_and_then as_array (get (codes "pieces") (data_of value.now)) }
{
    value.get("pieces")?.as_array()
}
