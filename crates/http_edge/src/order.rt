// The bytes of an order in a body.
ghost use Rattle.http_edge.specs.Fields.{Gives, needed, order_bytes};

use crate::errors::EdgeErr;
use sat_base::{Bytes, Items};
use std::alloc::Global;

/// The bytes that a text of at most 1024 hex digits, of either case, stands for.
pub(crate) fn order_of(alloc: Global, text: &str) -> Result<Bytes, EdgeErr>
    ensures { Gives result (needed 4 (order_bytes text.now)) }
{
    if text.len() > 1024 {
        return Err(EdgeErr::Field { place: 4 });
    }
    match hex::decode(alloc, text) {
        Ok(bytes) => Ok(Items::of(bytes)),
        Err(hex::FromHexError::OutOfMemory) => Err(EdgeErr::NoMemory),
        Err(_) => Err(EdgeErr::Field { place: 4 }),
    }
}
