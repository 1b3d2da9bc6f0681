// What was done, as replies say it.
use sat_base::{CustomerId, Done, Items, Moment, NodeId, Offer, Place, SegId, Serial};
use std::alloc::Global;
use trial_lines::{Fields, LineErr};

/// What was done, as replies say it.
pub fn done(alloc: Global, fields: &mut Fields<'_>) -> Result<Done, LineErr> {
    match fields.word()? {
        "node" => Ok(Done::NodeAdded {
            node: NodeId(fields.number()?),
        }),
        "customer" => Ok(Done::CustomerAdded {
            customer: CustomerId(fields.number()?),
        }),
        "offer" => Ok(Done::Offer(offer(alloc, fields)?)),
        "committed" => Ok(Done::Committed {
            segment: SegId(fields.number()?),
        }),
        "deleted" => Ok(Done::Deleted {
            segment: SegId(fields.number()?),
        }),
        _ => Err(LineErr::Bad),
    }
}

// CUSTOMER SEGMENT SERIAL ACTION PIECE-LEN ISSUED PLACES.
fn offer(alloc: Global, fields: &mut Fields<'_>) -> Result<Offer, LineErr> {
    Ok(Offer {
        customer: CustomerId(fields.number()?),
        segment: SegId(fields.number()?),
        serial: Serial(fields.number()?),
        action: fields.number()?,
        piece_len: fields.number()?,
        issued: Moment::of(fields.number()?),
        places: Items::of(places(alloc, fields)?),
    })
}

// Each is INDEX:NODE:ADDR:PORT.
fn places(alloc: Global, fields: &mut Fields<'_>) -> Result<Vec<Place>, LineErr> {
    let mut list = fields.list()?;
    let mut places = Vec::new(alloc);
    for _ in 0..u64::MAX {
        if list.is_done() {
            break;
        }
        places.push(place(&mut list)?)?;
    }
    Ok(places)
}

fn place(fields: &mut Fields<'_>) -> Result<Place, LineErr> {
    let mut parts = fields.parts()?;
    let place = Place {
        index: parts.number()?,
        node: NodeId(parts.number()?),
        addr: parts.number()?,
        port: parts.number()?,
    };
    parts.end()?;
    Ok(place)
}
