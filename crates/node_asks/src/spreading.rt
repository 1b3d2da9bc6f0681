// Fresh pieces are put at their targets.
ghost use Rattle.std.specs.Prelude.{◌≡◌, ◌≤◌, ◌-◌, ◌^◌, ◌∷◌, [], true, not, length, map, All, IfOk, OnErr, OnOk};
ghost use Rattle.std.specs.List.{AllZip};
ghost use Rattle.sat_base.specs.Outside.{CountsExactly, with_end};
ghost use Rattle.sat_base.specs.Nodes.{AsksSome, Stores};
ghost use Rattle.bw_decode.specs.Near.{Rises};
ghost use Rattle.repair_core.specs.Indexes.{has_index, place_indexes};
ghost use Rattle.node_asks.specs.Asks.{pieces_of, put_ask, piece_len_of};
ghost use Rattle.node_asks.specs.Spreading.{IsFresh, Spreads, CountsLeftOut, stored_as};

use crate::asking::Asking;
use crate::asks::put_ask;
use order_limits::Keys;
use repair_core::RepairPlan;
use sat_base::{Indexes, Items, NoMemory, Nodes, Place, Scheme, Share, Stored};
use std::alloc::Global;

// Whether a target keeps its piece.
fn put_at<N: Nodes>(
    alloc: Global,
    asking: &Asking<'_>,
    nodes: &mut N,
    place: &Place,
    piece: &Share,
) -> Result<bool, NoMemory>
    requires { asking.now.plan.now.len ≤ 2 ^ 40 }
    ensures told { IfOk result (λ kept. Stores (N.held nodes.old) (put_ask asking.now.keys.now asking.now.scheme.now asking.now.plan.now place.now)
        piece.now.bytes (stored_as kept) (N.held nodes.new)) }
    ensures asks { OnOk result (N.asks nodes.new
        ≡ with_end (N.asks nodes.old) (put_ask asking.now.keys.now asking.now.scheme.now asking.now.plan.now place.now ∷ [])) }
    ensures err { OnErr result (N.asks nodes.new ≡ N.asks nodes.old) }
    ensures faults { IfOk result (λ kept. CountsExactly (not kept) (N.faults nodes.old) (N.faults nodes.new)) }
    ensures counts { N.faults nodes.old ≤ N.faults nodes.new }
    ensures last { N.faults nodes.old ≡ 2 ^ 64 - 1 → N.faults nodes.new ≡ 2 ^ 64 - 1 }
{
    let ask = put_ask(asking.keys, asking.scheme, asking.plan, place);
    match nodes.put(alloc, &ask, piece.bytes.as_slice()) {
        Stored::Kept => Ok(true),
        Stored::NoAnswer => Ok(false),
        Stored::NoMemory => Err(NoMemory),
    }
}

/// Puts each fresh piece at its target, one after the other, and tells the indexes that are kept. `targets` are where
/// the plan's targets lie, in its order, and `fresh` has a whole piece for each.
///
/// Each target that isn't told raised the nodes' count. It fails only where memory runs out; then some of the pieces may
/// have been put.
pub fn spread<N: Nodes>(
    alloc: Global,
    keys: &Keys,
    scheme: &Scheme,
    nodes: &mut N,
    plan: &RepairPlan,
    targets: &[Place],
    fresh: &[Share],
) -> Result<Indexes, NoMemory>
    requires targets { pieces_of targets.now ≡ plan.now.targets }
    requires rising { Rises (place_indexes plan.now.targets) }
    requires len { plan.now.len ≤ 2 ^ 40 }
    requires fresh { AllZip (IsFresh (piece_len_of scheme.now plan.now)) targets.now fresh.now }
    ensures rising { IfOk result Rises }
    ensures among { IfOk result (All (λ index. has_index (place_indexes plan.now.targets) index ≡ true)) }
    ensures spread { IfOk result (Spreads (N.held nodes.old) plan.now.segment targets.now fresh.now (N.held nodes.new)) }
    ensures left_out { IfOk result (λ kept. CountsLeftOut (length targets.now) (length kept) (N.faults nodes.old) (N.faults nodes.new)) }
    ensures asks { OnOk result (N.asks nodes.new ≡ with_end (N.asks nodes.old) (map (put_ask keys.now scheme.now plan.now) targets.now)) }
    ensures err { OnErr result (AsksSome (N.asks nodes.old) (map (put_ask keys.now scheme.now plan.now) targets.now) (N.asks nodes.new)) }
    ensures counts { N.faults nodes.old ≤ N.faults nodes.new }
    ensures last { N.faults nodes.old ≡ 2 ^ 64 - 1 → N.faults nodes.new ≡ 2 ^ 64 - 1 }
{
    let asking = Asking { keys, scheme, plan };
    let mut kept = Vec::new(alloc);
    for (i, place) in targets.iter().enumerate() {
        if put_at(alloc, &asking, nodes, place, &fresh[i])? {
            kept.push(place.index)?;
        }
    }
    Ok(Items::of(kept))
}
