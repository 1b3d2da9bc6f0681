// Offers, as the JSON of their answers.
ghost use Rattle.std.specs.Prelude.{◌≡◌, ◌<◌, ◌^◌, map, IfOk, string_bytes, unwrap_or};
ghost use Rattle.order_limits.specs.Order.{action_of};
ghost use Rattle.serde_json.specs.Data.{Data};
ghost use Rattle.serde_json.specs.View.{view, items_view, items_of};
ghost use Rattle.hex.specs.Hex.{encode_lower};
ghost use Rattle.order_limits.specs.Keys.{serial_key};
ghost use Rattle.http_edge.specs.Answers.{dotted, grant_of, spot_data, place_data, offer_data};

use crate::replies::hex_text;
use order_limits::{Action, Grant, Keys, LIFE};
use sat_base::{At, Offer, Place};
use serde_json::{Value, json};
use std::alloc::{AllocError, Global};

/// The JSON of an offer, with the limit of each place.
pub(crate) fn offer_value(alloc: Global, keys: &Keys, offer: &Offer) -> Result<Value, AllocError>
    ensures { IfOk result (λ v. view v ≡ offer_data keys.now offer.now) }
{
    let offers = place_values(alloc, keys, offer)?;
    let serial_key = hex_text(alloc, &keys.serial(offer.serial))?;
    let issued = offer.issued.seconds();
    let expires = issued + LIFE;
    let piece_length = offer.piece_len;
    let segment = offer.segment.0;
    let serial = offer.serial.0;
    json!(in alloc; {
        "expires": expires,
        "issued": issued,
        "offers": offers,
        "piece_length": piece_length,
        "segment": segment,
        "serial": serial,
        "serial_key": serial_key
    })
}

// The JSON of each place, in order.
fn place_values(alloc: Global, keys: &Keys, offer: &Offer) -> Result<Vec<Value>, AllocError>
    ensures { IfOk result (λ values. map view values.items ≡ map (place_data keys.now offer.now) offer.now.places) }
{
    let mut values = Vec::new(alloc);
    for place in offer.places.as_slice() {
        let value = place_value(alloc, keys, offer, *place)?;
        values.push(value)?;
    }
    Ok(values)
}

fn place_value(alloc: Global, keys: &Keys, offer: &Offer, place: Place) -> Result<Value, AllocError>
    ensures { IfOk result (λ v. view v ≡ place_data keys.now offer.now place) }
{
    let at = At {
        index: place.index,
        node: place.node,
    };
    let limit = hex_text(alloc, &grant_of(offer).at(at).write(keys))?;
    spot_value(alloc, place, &limit)
}

fn spot_value(alloc: Global, place: Place, limit: &str) -> Result<Value, AllocError>
    ensures { IfOk result (λ v. view v ≡ spot_data place limit.now) }
{
    let addr = dotted_text(alloc, place.addr)?;
    let node = place.node.0;
    json!(in alloc; {
        "addr": addr,
        "index": place.index,
        "limit": limit,
        "node": node,
        "port": place.port
    })
}

// What is offered at each place.
fn grant_of(offer: &Offer) -> Grant
    ensures { result ≡ grant_of offer.now }
{
    Grant {
        action: offered_action(offer.action),
        serial: offer.serial,
        segment: offer.segment,
        limit: offer.piece_len,
        issued: offer.issued,
        customer: offer.customer,
    }
}

// The action of an offer's byte. An offer is for a put or a get.
fn offered_action(byte: u8) -> Action
    ensures { result ≡ unwrap_or (action_of byte) Action.Get }
{
    match Action::of(byte) {
        Some(action) => action,
        None => Action::Get,
    }
}

// An IPv4 address as four numbers joined by dots.
fn dotted_text(alloc: Global, addr: u32) -> Result<String, AllocError>
    ensures { IfOk result (λ text. string_bytes text ≡ dotted addr) }
{
    let first = addr / 16777216;
    let second = addr / 65536 % 256;
    let third = addr / 256 % 256;
    let fourth = addr % 256;
    format!(in alloc; "{first}.{second}.{third}.{fourth}")
}
