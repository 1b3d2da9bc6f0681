// Rounds of two parts.
ghost use Rattle.std.specs.Prelude.{◌≡◌, ◌≤◌, IsSomeAnd};
ghost use Rattle.node_rounds.specs.Askable.{IsStoreOf};
ghost use Rattle.node_rounds.specs.Asked.{nodes_view};
ghost use Rattle.node_rounds.specs.Parts.{kit_view};
ghost use Rattle.node_rounds.specs.Works.{Rounds};

use crate::kit::{Kit, RoundStore};
use crate::parts::{RoundContext, part};
use crate::upkeep::{Upkeep, end_of};
use bw_decode::Scratch;
use sat_base::{Clock, Keeper, Nodes, Point, Ticks, Words};
use sat_book::Book;
use sat_sessions::{BookPass, Round, RoundEnd};
use std::alloc::Global;
use std::sync::Wait;
use turnstile::Desk;

// A round makes at most so many entries: two plans and their ends.
const ENTRIES: usize = 4;

// Makes one part of a round, and the second one where the first didn't end it. Room for all places is made first.
fn round<K: Keeper, N: Nodes, T: Clock, W: Words, I: Ticks, F: Fn(Point), R: Wait>(
    rt: &R,
    desk: &Desk<Book<K>>,
    pass: BookPass<K>,
    context: &RoundContext<F>,
    scratch: &mut Scratch,
    first: Upkeep,
    second: Upkeep,
    kit: &mut Kit<N, T, W, I>,
) -> (BookPass<K>, Round)
    requires desk { pass.desk ≡ desk.now }
    requires base { IsSomeAnd pass.base (λ origin. IsStoreOf origin.opening context.now.store.now.keys context.now.store.now.scheme) }
    requires points { context.now.store.now.scheme.n ≤ scratch.old.points }
    requires gate { F.IsAlwaysCallable context.now.gate.now }
    ensures rounds { Rounds context.now.store.now.keys context.now.store.now.scheme first second
        (kit_view (nodes_view N.held N.asks N.faults) T.coming W.left W.faults I.about kit.old) pass result.1
        (kit_view (nodes_view N.held N.asks N.faults) T.coming W.left W.faults I.about kit.new) result.0 }
    ensures points { scratch.new.points ≡ scratch.old.points }
{
    let mut places = Vec::new(context.alloc);
    if places.reserve(ENTRIES).is_err() {
        let end = RoundEnd::NoMemory;
        return (pass, Round { places, end });
    }
    let (pass, went) = part(rt, desk, pass, context, scratch, first, kit, &mut places);
    if let Some(end) = went {
        return (pass, Round { places, end });
    }
    let (pass, went) = part(rt, desk, pass, context, scratch, second, kit, &mut places);
    let end = end_of(went);
    (pass, Round { places, end })
}

/// Asks a silent node again, and then audits a stripe of a segment: it enters the plan of a recheck, fetches the one share
/// and enters its end; then it draws two words, enters the plan of an audit, passes the gate, asks for all shares at once,
/// judges them and enters the end of the audit.
///
/// What it did is told by `Rounds`: its entries stand in this order, at moments and with words of the kit's own; each
/// ask has its place's node, address and port, the stripe's range and the order of its plan under the store's keys; and
/// it ends early only for a cause that its end names. The decoder's room was made for the store's scheme, or for one with
/// at least as many shares. `gate` passes a point.
pub fn audit_round<K: Keeper, N: Nodes, T: Clock, W: Words, I: Ticks, F: Fn(Point), R: Wait>(
    rt: &R,
    alloc: Global,
    desk: &Desk<Book<K>>,
    pass: BookPass<K>,
    store: &RoundStore,
    scratch: &mut Scratch,
    kit: &mut Kit<N, T, W, I>,
    gate: &F,
) -> (BookPass<K>, Round)
    requires desk { pass.desk ≡ desk.now }
    requires base { IsSomeAnd pass.base (λ origin. IsStoreOf origin.opening store.now.keys store.now.scheme) }
    requires points { store.now.scheme.n ≤ scratch.old.points }
    requires gate { F.IsAlwaysCallable gate.now }
    ensures rounds { Rounds store.now.keys store.now.scheme Upkeep.Recheck Upkeep.Audit
        (kit_view (nodes_view N.held N.asks N.faults) T.coming W.left W.faults I.about kit.old) pass result.1
        (kit_view (nodes_view N.held N.asks N.faults) T.coming W.left W.faults I.about kit.new) result.0 }
    ensures points { scratch.new.points ≡ scratch.old.points }
{
    let context = RoundContext { alloc, store, gate };
    let (first, second) = (Upkeep::Recheck, Upkeep::Audit);
    round(rt, desk, pass, &context, scratch, first, second, kit)
}

/// Repairs a segment, and then moves a piece of a node that leaves: for each of the two it draws 128 words, enters the
/// plan, passes the gate, asks the sources window by window, makes fresh pieces, puts them at their targets and enters the
/// end. The second follows also where nothing was to be repaired.
///
/// What it did is told by `Rounds`, as for [`audit_round`]. A target is told as placed only where it kept its piece.
pub fn repair_round<K: Keeper, N: Nodes, T: Clock, W: Words, I: Ticks, F: Fn(Point), R: Wait>(
    rt: &R,
    alloc: Global,
    desk: &Desk<Book<K>>,
    pass: BookPass<K>,
    store: &RoundStore,
    scratch: &mut Scratch,
    kit: &mut Kit<N, T, W, I>,
    gate: &F,
) -> (BookPass<K>, Round)
    requires desk { pass.desk ≡ desk.now }
    requires base { IsSomeAnd pass.base (λ origin. IsStoreOf origin.opening store.now.keys store.now.scheme) }
    requires points { store.now.scheme.n ≤ scratch.old.points }
    requires gate { F.IsAlwaysCallable gate.now }
    ensures rounds { Rounds store.now.keys store.now.scheme Upkeep.Repair Upkeep.Exit
        (kit_view (nodes_view N.held N.asks N.faults) T.coming W.left W.faults I.about kit.old) pass result.1
        (kit_view (nodes_view N.held N.asks N.faults) T.coming W.left W.faults I.about kit.new) result.0 }
    ensures points { scratch.new.points ≡ scratch.old.points }
{
    let context = RoundContext { alloc, store, gate };
    let (first, second) = (Upkeep::Repair, Upkeep::Exit);
    round(rt, desk, pass, &context, scratch, first, second, kit)
}
