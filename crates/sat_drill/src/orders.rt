// Orders that a customer gives to nodes.
ghost use Rattle.std.specs.Prelude.{IfOk};
ghost use Rattle.sat_base.specs.Moments.{IsMoment};
ghost use Rattle.machine_step.specs.Step.{IsWellFormed};
ghost use Rattle.machine_step.specs.Tables.{Tables};

use machine_calls::{Call, Wish, are_bytes};
use order_limits::{Action, Grant, Keys, Order};
use sat_base::{At, Items, Moment, NoMemory, NodeId, Offer, Place};
use std::alloc::Global;

/// An order that a node can present.
#[derive(Clone, Copy)]
pub(crate) struct Presented {
    pub node: NodeId,
    pub order: [u8; 123],
}

/// The order of a place of an offer, for all that its limit lets the node move.
pub(crate) fn order_at(keys: &Keys, action: Action, offer: &Offer, place: &Place) -> Presented {
    let grant = Grant {
        action,
        serial: offer.serial,
        segment: offer.segment,
        limit: offer.piece_len,
        issued: offer.issued,
        customer: offer.customer,
    };
    let at = At {
        index: place.index,
        node: place.node,
    };
    let order = Order {
        limit: grant.at(at),
        amount: offer.piece_len,
    };
    let order = order.write(keys);
    Presented {
        node: place.node,
        order,
    }
}

/// The call by which a node presents its order. It fails only where memory runs out.
pub(crate) fn settle_call(
    alloc: Global,
    now: Moment,
    presented: &Presented,
) -> Result<Call, NoMemory>
    requires { IsMoment now }
    ensures { (t : Tables) → IfOk result (IsWellFormed t) }
{
    are_bytes(&presented.order);
    let wish = Wish::Settle {
        node: presented.node,
        bytes: Items::of(Vec::from_slice(alloc, &presented.order)?),
    };
    Ok(Call::of_wish(alloc, now, wish))
}
