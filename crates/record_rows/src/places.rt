// Where pieces lie.
ghost use Rattle.std.specs.Prelude.{◌≡◌, ◌≤◌, ◌<◌, ◌++◌, ◌∷◌, [], List, All, length, true, refl};
ghost use Rattle.std.proofs.Common.{rules};
ghost use Rattle.sat_base.specs.declared.limits.TheConstants as limits;
ghost use Rattle.sat_base.specs.declared.records.At.{At};
ghost use Rattle.segment_core.specs.Places.{IsByIndex};
ghost use Rattle.record_rows.specs.Numbers.{listed};
ghost use Rattle.record_rows.specs.Plans.{at_bytes};
ghost use Rattle.record_rows.specs.Fits.{AtFits, PlacesFit};
ghost use Rattle.record_rows.specs.Laws.Records.{at_apart, places_apart, no_places};

use crate::coded::{Coded, Spelled, Unread};
use crate::made::{Made, take_made};
use sat_base::{At, Items, NoMemory, NodeId};
use segment_core::are_places;
use std::alloc::Global;
use std::marker::Model;

impl Made for At {
    type Fields = (u8, NodeId);

    ghost fields = { λ at. (at.index, at.node) };

    ghost bytes_of = { at_bytes };

    fn of(given: (u8, NodeId)) -> Option<Self> {
        let (index, node) = given;
        Some(At { index, node })
    }

    ghost spelled = { λ x. refl };
}

impl Spelled for At {
    ghost spelling = { at_bytes };

    fn put(&self, out: &mut Vec<u8>) -> Result<(), NoMemory> {
        (self.index, self.node).put(out)
    }
}

impl Coded for At {
    ghost fits = { AtFits };

    fn take(alloc: Global, bytes: &[u8]) -> Result<(Self, usize), Unread> {
        take_made(alloc, bytes)
    }

    ghost apart = { at_apart };

    ghost some = { (record { index = 0; node = record { 0 = 0 } }, Prim.search rules) };
}

/// Places of pieces by rising index, which is below 128. Contracts see the list.
#[derive(Drop)]
pub(crate) struct Places {
    places: Items<At>,
}

impl Model for Places {
    ghost Value = { List At };

    ghost view = { λ places. places.places };
}

impl Places {
    /// The places.
    pub(crate) fn into_items(self) -> Items<At>
        ensures { result ≡ self }
    {
        let Places { places } = self;
        places
    }
}

impl Made for Places {
    type Fields = Items<At>;

    ghost fields = { λ places. places };

    ghost bytes_of = { listed at_bytes };

    ghost allows = { λ places. IsByIndex places × All (λ at. at.index < limits.PLACES) places };

    fn of(given: Items<At>) -> Option<Self> {
        if are_places(given.as_slice()) {
            Some(Places { places: given })
        } else {
            None
        }
    }

    ghost spelled = { λ x. refl };
}

impl Spelled for Places {
    ghost spelling = { listed at_bytes };

    ghost is_short = { λ places. length places ≤ limits.PLACES };

    fn put(&self, out: &mut Vec<u8>) -> Result<(), NoMemory> {
        self.places.put(out)
    }
}

impl Coded for Places {
    ghost fits = { PlacesFit };

    fn take(alloc: Global, bytes: &[u8]) -> Result<(Self, usize), Unread> {
        take_made(alloc, bytes)
    }

    ghost apart = { places_apart };

    ghost some = { no_places };
}
