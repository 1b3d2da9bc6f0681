// The indexes of pieces in a body.
ghost use Rattle.std.specs.Prelude.{◌≡◌, option_and_then, IfSome, ◌≤◌};
ghost use Rattle.serde_json.specs.View.{view as data_of, items_view};
ghost use Rattle.http_edge.specs.Fields.{Gives, needed, byte_of, bytes_of, pieces_of};

use crate::errors::EdgeErr;
use sat_base::{Indexes, Items};
use serde_json::Value;
use std::alloc::Global;

/// The indexes that the items of an array are, at most 256.
pub(crate) fn indexes_of(alloc: Global, items: &[Value]) -> Result<Indexes, EdgeErr>
    ensures { Gives result (needed 3 (pieces_of (items_view items.now))) }
{
    if items.len() > 256 {
        return Err(EdgeErr::Field { place: 3 });
    }
    bytes(alloc, items)
}

fn bytes(alloc: Global, items: &[Value]) -> Result<Indexes, EdgeErr>
    ensures { Gives result (needed 3 (bytes_of (items_view items.now))) }
{
    let mut indexes = Vec::new(alloc);
    for item in items {
        let Some(index) = byte(item) else {
            return Err(EdgeErr::Field { place: 3 });
        };
        match indexes.push(index) {
            Ok(()) => {}
            Err(_) => return Err(EdgeErr::NoMemory),
        }
    }
    Ok(Items::of(indexes))
}

// A whole number from 0 to 255.
fn byte(value: &Value) -> Option<u8>
    ensures { result ≡ byte_of (data_of value.now) }
{
    match value.as_u64() {
        Some(n) if n <= 255 => Some(n as u8),
        _ => None,
    }
}
