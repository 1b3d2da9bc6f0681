// The routes of the paths. A number in a path is one to twenty digits, with a value that its type has.
ghost use Rattle.std.specs.Prelude.{◌≡◌, ◌≤◌, IfSome, IfNone, option_map};
ghost use Rattle.http_edge.specs.Paths.{IsPath};
ghost use Rattle.http_edge.specs.RouteSteps.{route_at, customer_at, segment_at, node_at, statement_at, operator_at, numbered_of};
ghost use Rattle.http_edge.specs.Wishes.{IsRouteWithin};
ghost use Rattle.http_edge.specs.declared.routes.Route.{Route};

use month_text::month_of_text;
use sat_base::{CustomerId, Month, NodeId, SegId, cut, number};

/// What a path names.
#[derive(Clone, Copy)]
pub(crate) enum Route {
    Begin {
        customer: CustomerId,
    },
    Commit {
        customer: CustomerId,
        segment: SegId,
    },
    Get {
        customer: CustomerId,
        segment: SegId,
    },
    Delete {
        customer: CustomerId,
        segment: SegId,
    },
    Settle {
        node: NodeId,
    },
    SetFree {
        node: NodeId,
    },
    Exit {
        node: NodeId,
    },
    Statement {
        node: NodeId,
        month: Month,
    },
    AddNode,
    AddCustomer,
    CloseMonth,
    SetRates,
    Stop,
}

/// The route of a path.
pub(crate) fn route_of(path: &[u8]) -> Option<Route>
    ensures found { IfSome result (λ r. IsPath r path.now) }
    ensures none { IfNone result ((r : Route) → IsPath r path.now → ⊥) }
    ensures within { IfSome result IsRouteWithin }
{
    find_route(path)
}

fn find_route(path: &[u8]) -> Option<Route>
    ensures route { result ≡ route_at path.now }
    ensures within { IfSome result IsRouteWithin }
{
    if let Some(rest) = path.strip_prefix(b"/c/") {
        return customer_route(rest);
    }
    if let Some(rest) = path.strip_prefix(b"/n/") {
        return node_route(rest);
    }
    operator_route(path)
}

// The number before the first slash, and what stands behind the slash.
fn numbered(text: &[u8], most: u64) -> Option<(u64, &[u8])>
    ensures value { option_map (λ p. (p.0, p.1.now)) result ≡ numbered_of most text.now }
    ensures small { IfSome result (λ p. p.0 ≤ most) }
{
    let (digits, rest) = cut(text, b'/')?;
    match number(digits, most) {
        Some(n) => Some((n, rest)),
        None => None,
    }
}

fn customer_route(rest: &[u8]) -> Option<Route>
    ensures route { result ≡ customer_at rest.now }
    ensures within { IfSome result IsRouteWithin }
{
    let (customer, word) = numbered(rest, 4_294_967_295)?;
    if word == b"segments".as_slice() {
        return Some(Route::Begin {
            customer: CustomerId(customer as u32),
        });
    }
    match word.strip_prefix(b"segments/") {
        Some(rest) => segment_route(CustomerId(customer as u32), rest),
        None => None,
    }
}

fn segment_route(customer: CustomerId, rest: &[u8]) -> Option<Route>
    ensures route { result ≡ segment_at customer.0 rest.now }
    ensures within { IfSome result IsRouteWithin }
{
    let (segment, word) = numbered(rest, u64::MAX)?;
    let segment = SegId(segment);
    if word == b"commit".as_slice() {
        Some(Route::Commit { customer, segment })
    } else if word == b"get".as_slice() {
        Some(Route::Get { customer, segment })
    } else if word == b"delete".as_slice() {
        Some(Route::Delete { customer, segment })
    } else {
        None
    }
}

fn node_route(rest: &[u8]) -> Option<Route>
    ensures route { result ≡ node_at rest.now }
    ensures within { IfSome result IsRouteWithin }
{
    let (node, word) = numbered(rest, 4_294_967_295)?;
    let node = NodeId(node as u32);
    if word == b"settle".as_slice() {
        Some(Route::Settle { node })
    } else if word == b"free".as_slice() {
        Some(Route::SetFree { node })
    } else if word == b"exit".as_slice() {
        Some(Route::Exit { node })
    } else {
        statement_route(node, word)
    }
}

fn statement_route(node: NodeId, word: &[u8]) -> Option<Route>
    ensures route { result ≡ statement_at node.0 word.now }
    ensures within { IfSome result IsRouteWithin }
{
    let month = match word.strip_prefix(b"statement/") {
        Some(text) => month_of_text(text)?,
        None => return None,
    };
    Some(Route::Statement { node, month })
}

fn operator_route(path: &[u8]) -> Option<Route>
    ensures route { result ≡ operator_at path.now }
    ensures within { IfSome result IsRouteWithin }
{
    if path == b"/op/nodes".as_slice() {
        Some(Route::AddNode)
    } else if path == b"/op/customers".as_slice() {
        Some(Route::AddCustomer)
    } else if path == b"/op/close".as_slice() {
        Some(Route::CloseMonth)
    } else if path == b"/op/rates".as_slice() {
        Some(Route::SetRates)
    } else if path == b"/op/stop".as_slice() {
        Some(Route::Stop)
    } else {
        None
    }
}
