// Kept requests, part by part.
ghost use Rattle.std.specs.Prelude.{◌≡◌, ◌≤◌, ◌++◌, ◌∷◌, [], All, length, IsSome, refl};
ghost use Rattle.std.proofs.Common.{rules, sym};
ghost use Rattle.sat_base.specs.declared.limits.TheConstants as limits;
ghost use Rattle.sat_base.specs.declared.requests.Asked.TheVariants as asks;
ghost use Rattle.sat_base.specs.declared.requests.Done.TheVariants as dones;
ghost use Rattle.sat_base.specs.Limits.{IsAskedWithin, IsDoneWithin};
ghost use Rattle.order_limits.specs.Order.{action_of};
ghost use Rattle.record_rows.specs.Requests.{asked_bytes, place_bytes, offer_bytes, done_bytes};
ghost use Rattle.record_rows.specs.Fits.{PlaceFits, IsOfferWithin, IsAsked, IsDone};
ghost use Rattle.record_rows.specs.Numbers.{be8, be32, be64};
ghost use Rattle.record_rows.specs.Laws.Apart.{four_first};
ghost use Rattle.record_rows.specs.Laws.Requests.{place_apart, some_place, offer_apart, some_offer, asked_apart, done_apart};

use crate::coded::{Coded, Spelled, Unread};
use crate::made::{Made, take_made};
use order_limits::Action;
use sat_base::{
    Asked, CustomerId, Done, Items, Moment, NoMemory, NodeId, Offer, Place, SegId, Serial,
};
use std::alloc::Global;

type PlaceFields = (u8, (NodeId, (u32, u16)));

impl Made for Place {
    type Fields = PlaceFields;

    ghost fields = { λ place. (place.index, (place.node, (place.addr, place.port))) };

    ghost bytes_of = { place_bytes };

    fn of(given: PlaceFields) -> Option<Self> {
        let (index, (node, (addr, port))) = given;
        Some(Place {
            index,
            node,
            addr,
            port,
        })
    }

    ghost spelled = { λ x. refl };
}

impl Spelled for Place {
    ghost spelling = { place_bytes };

    fn put(&self, out: &mut Vec<u8>) -> Result<(), NoMemory> {
        (self.index, (self.node, (self.addr, self.port))).put(out)
    }
}

impl Coded for Place {
    ghost fits = { PlaceFits };

    fn take(alloc: Global, bytes: &[u8]) -> Result<(Self, usize), Unread> {
        take_made(alloc, bytes)
    }

    ghost apart = { place_apart };

    ghost some = { some_place };
}

// What is ordered, and where.
type Ordered = (CustomerId, (SegId, (Serial, u8)));

type OfferFields = (Ordered, (u64, (Moment, Items<Place>)));

impl Made for Offer {
    type Fields = OfferFields;

    ghost fields = { λ o. ((o.customer, (o.segment, (o.serial, o.action))), (o.piece_len, (o.issued, o.places))) };

    ghost bytes_of = { offer_bytes };

    ghost allows = { λ o. IsSome (action_of o.action) };

    fn of(given: OfferFields) -> Option<Self> {
        let (ordered, (piece_len, (issued, places))) = given;
        let (customer, (segment, (serial, action))) = ordered;
        if Action::of(action).is_none() {
            return None;
        }
        Some(Offer {
            customer,
            segment,
            serial,
            action,
            piece_len,
            issued,
            places,
        })
    }

    ghost spelled = { λ o. sym (four_first (be32 o.customer.0) (be64 o.segment.0) (be64 o.serial.0) (be8 o.action) _) };
}

impl Spelled for Offer {
    ghost spelling = { offer_bytes };

    ghost is_short = { λ offer. length offer.places ≤ limits.PLACES };

    fn put(&self, out: &mut Vec<u8>) -> Result<(), NoMemory> {
        let behind = (self.piece_len, (self.issued, &self.places));
        (
            self.customer,
            (self.segment, (self.serial, (self.action, behind))),
        )
            .put(out)
    }
}

impl Coded for Offer {
    ghost fits = { IsOfferWithin };

    fn take(alloc: Global, bytes: &[u8]) -> Result<(Self, usize), Unread> {
        take_made(alloc, bytes)
    }

    ghost apart = { offer_apart };

    ghost some = { some_offer };
}

impl Spelled for Asked {
    ghost spelling = { asked_bytes };

    ghost is_short = { IsAskedWithin };

    fn put(&self, out: &mut Vec<u8>) -> Result<(), NoMemory> {
        match self {
            Asked::Node { addr, port, free } => (1u8, (addr, (port, free))).put(out),
            Asked::Customer => 2u8.put(out),
            Asked::Begin { len } => (3u8, len).put(out),
            Asked::Commit { segment, indexes } => (4u8, (segment, indexes)).put(out),
            Asked::Get { segment } => (5u8, segment).put(out),
            Asked::Delete { segment } => (6u8, segment).put(out),
        }
    }
}

impl Coded for Asked {
    ghost fits = { IsAsked };

    #[tactic(auto, using(crate::proofs::Joins::tagged))]
    fn take(alloc: Global, bytes: &[u8]) -> Result<(Self, usize), Unread> {
        let (kind, front) = u8::take(alloc, bytes)?;
        let rest = &bytes[front..];
        match kind {
            1 => {
                let ((addr, (port, free)), size) = <(u32, (u16, u64))>::take(alloc, rest)?;
                Ok((Asked::Node { addr, port, free }, front + size))
            }
            2 => Ok((Asked::Customer, front)),
            3 => {
                let (len, size) = u64::take(alloc, rest)?;
                Ok((Asked::Begin { len }, front + size))
            }
            4 => {
                let ((segment, indexes), size) = <(SegId, Items<u8>)>::take(alloc, rest)?;
                Ok((Asked::Commit { segment, indexes }, front + size))
            }
            5 => {
                let (segment, size) = SegId::take(alloc, rest)?;
                Ok((Asked::Get { segment }, front + size))
            }
            6 => {
                let (segment, size) = SegId::take(alloc, rest)?;
                Ok((Asked::Delete { segment }, front + size))
            }
            _ => Err(Unread::Form),
        }
    }

    ghost apart = { asked_apart };

    ghost some = { (asks.Customer, (tt, tt)) };
}

impl Spelled for Done {
    ghost spelling = { done_bytes };

    ghost is_short = { IsDoneWithin };

    fn put(&self, out: &mut Vec<u8>) -> Result<(), NoMemory> {
        match self {
            Done::NodeAdded { node } => (1u8, node).put(out),
            Done::CustomerAdded { customer } => (2u8, customer).put(out),
            Done::Offer(offer) => (3u8, offer).put(out),
            Done::Committed { segment } => (4u8, segment).put(out),
            Done::Deleted { segment } => (5u8, segment).put(out),
        }
    }
}

impl Coded for Done {
    ghost fits = { IsDone };

    #[tactic(auto, using(crate::proofs::Joins::tagged))]
    fn take(alloc: Global, bytes: &[u8]) -> Result<(Self, usize), Unread> {
        let (kind, front) = u8::take(alloc, bytes)?;
        let rest = &bytes[front..];
        match kind {
            1 => {
                let (node, size) = NodeId::take(alloc, rest)?;
                Ok((Done::NodeAdded { node }, front + size))
            }
            2 => {
                let (customer, size) = CustomerId::take(alloc, rest)?;
                Ok((Done::CustomerAdded { customer }, front + size))
            }
            3 => {
                let (offer, size) = Offer::take(alloc, rest)?;
                Ok((Done::Offer(offer), front + size))
            }
            4 => {
                let (segment, size) = SegId::take(alloc, rest)?;
                Ok((Done::Committed { segment }, front + size))
            }
            5 => {
                let (segment, size) = SegId::take(alloc, rest)?;
                Ok((Done::Deleted { segment }, front + size))
            }
            _ => Err(Unread::Form),
        }
    }

    ghost apart = { done_apart };

    ghost some = { (dones.NodeAdded (record { 0 = 0 }), (tt, Prim.search rules)) };
}
