// What a head alone says.
ghost use Rattle.std.specs.Prelude.{◌≡◌, All, length, map, codes};
ghost use Rattle.httparse.specs.Spans.{IsRequestWithin, IsRequestAt, IsHeaderWithin, header_bytes};
ghost use Rattle.httparse.specs.Grammar.{RequestHead};
ghost use Rattle.http_parts.specs.Headers.{value_named, values_named};
ghost use Rattle.http_edge.specs.Demands.{Demands, method_of, of_headers, of_lengths, of_route, is_key_of, key_of, IsSmall};
ghost use Rattle.http_edge.specs.Wishes.{IsDemandWithin, IsRouteWithin};

use crate::errors::EdgeErr;
use crate::routes::{Route, route_of};
use http_parts::{MAX_BODY, count_named, first_named, holds_key};
use httparse::spans::{HeaderSpan, RequestSpans};
use order_limits::Keys;
use sat_base::{Month, NodeId, is_numeral, value_up_to};

/// What a head alone says.
#[derive(Clone, Copy)]
pub(crate) enum Demand {
    Refused(EdgeErr),
    /// The route, and how long the body is.
    Body(Route, usize),
    /// A node's statement of a month: no body is read.
    Statement(NodeId, Month),
}

/// What the head says: in the order of the errors, and the route and the length of the body where it says none.
pub(crate) fn demand_of(
    keys: &Keys,
    buf: &[u8],
    headers: &[HeaderSpan],
    spans: RequestSpans,
) -> Demand
    requires { IsRequestWithin buf.now headers.now spans }
    ensures small { IsSmall result }
    ensures within { IsDemandWithin result }
    ensures says { (h : RequestHead) → IsRequestAt buf.now headers.now spans h → Demands keys.now h result }
{
    let Some(route) = route_of(spans.path.of(buf)) else {
        return Demand::Refused(EdgeErr::NoRoute);
    };
    if spans.method.of(buf) != method_of(route) {
        return Demand::Refused(EdgeErr::BadMethod);
    }
    after_route(keys, route, buf, &headers[..spans.headers])
}

// The method of a route.
fn method_of(route: Route) -> &'static [u8]
    ensures { result.now ≡ method_of route }
{
    match route {
        Route::Statement { .. } => b"GET",
        _ => b"POST",
    }
}

// What the headers say, in the order of the errors.
fn after_route(keys: &Keys, route: Route, buf: &[u8], headers: &[HeaderSpan]) -> Demand
    requires headers { All (IsHeaderWithin (length buf.now)) headers.now }
    requires route { IsRouteWithin route }
    ensures small { IsSmall result }
    ensures within { IsDemandWithin result }
    ensures says { result ≡ of_headers keys.now route (map (header_bytes buf.now) headers.now) }
{
    if !has_key(buf, headers, &caller_key(keys, route)) {
        return Demand::Refused(EdgeErr::Key);
    }
    if first_named(buf, headers, b"transfer-encoding").is_some() {
        return Demand::Refused(EdgeErr::Transfer);
    }
    on_route(route, buf, headers)
}

// What is left to read under a route.
fn on_route(route: Route, buf: &[u8], headers: &[HeaderSpan]) -> Demand
    requires headers { All (IsHeaderWithin (length buf.now)) headers.now }
    requires route { IsRouteWithin route }
    ensures small { IsSmall result }
    ensures within { IsDemandWithin result }
    ensures says { result ≡ of_route route (values_named (codes "content-length") (map (header_bytes buf.now) headers.now)) }
{
    match route {
        Route::Statement { node, month } => Demand::Statement(node, month),
        _ => with_length(route, buf, headers),
    }
}

// Whether the first x-key header is the key.
fn has_key(buf: &[u8], headers: &[HeaderSpan], key: &[u8; 32]) -> bool
    requires { All (IsHeaderWithin (length buf.now)) headers.now }
    ensures { result ≡ is_key_of key.now (value_named (codes "x-key") (map (header_bytes buf.now) headers.now)) }
{
    match first_named(buf, headers, b"x-key") {
        Some(value) => holds_key(value, key),
        None => false,
    }
}

// The key of the caller whom the route names.
fn caller_key(keys: &Keys, route: Route) -> [u8; 32]
    ensures { result ≡ key_of keys.now route }
{
    match route {
        Route::Begin { customer }
        | Route::Commit { customer, .. }
        | Route::Get { customer, .. }
        | Route::Delete { customer, .. } => keys.customer(customer),
        Route::Settle { node }
        | Route::SetFree { node }
        | Route::Exit { node }
        | Route::Statement { node, .. } => keys.node(node),
        Route::AddNode | Route::AddCustomer | Route::CloseMonth | Route::SetRates | Route::Stop =>
            keys.operator(),
    }
}

// What the Content-Length headers say.
fn with_length(route: Route, buf: &[u8], headers: &[HeaderSpan]) -> Demand
    requires headers { All (IsHeaderWithin (length buf.now)) headers.now }
    requires route { IsRouteWithin route }
    ensures small { IsSmall result }
    ensures within { IsDemandWithin result }
    ensures says { result ≡ of_lengths route (values_named (codes "content-length") (map (header_bytes buf.now) headers.now)) }
{
    let Some(length) = first_named(buf, headers, b"content-length") else {
        return Demand::Refused(EdgeErr::NoLength);
    };
    if count_named(buf, headers, b"content-length") != 1 {
        return Demand::Refused(EdgeErr::BadLength);
    }
    if !is_numeral(length) {
        return Demand::Refused(EdgeErr::BadLength);
    }
    match value_up_to(length, MAX_BODY) {
        Some(length) => Demand::Body(route, length as usize),
        None => Demand::Refused(EdgeErr::BodySize),
    }
}
