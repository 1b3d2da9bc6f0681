// One part of a round: a plan is entered, its nodes are asked, and its end is entered.
ghost use Rattle.std.specs.Prelude.{◌≡◌, ◌+◌, ◌≤◌, length, vec_capacity, IsSomeAnd};
ghost use Rattle.node_rounds.specs.Askable.{IsStoreOf};
ghost use Rattle.node_rounds.specs.Asked.{nodes_view};
ghost use Rattle.node_rounds.specs.Parts.{kit_view};
ghost use Rattle.node_rounds.specs.Works.{Does};

use crate::asking::ask;
use crate::entering::{finish, plan};
use crate::kit::{Kit, RoundStore};
use crate::upkeep::{Upkeep, is_plan_of, went_at};
use bw_decode::Scratch;
use sat_base::{Clock, Keeper, Nodes, Point, Ticks, Words};
use sat_book::Book;
use sat_sessions::{BookPass, RoundEnd};
use std::alloc::Global;
use std::sync::Wait;
use turnstile::Desk;

// What all parts of a round go by. `gate` passes a point: a worker's method may not hand on a gate, which threads share.
#[derive(Drop)]
pub(crate) struct RoundContext<'a, F> {
    pub alloc: Global,
    pub store: &'a RoundStore,
    pub gate: &'a F,
}

// Passes the gate before nodes are asked. A recheck has none.
fn pass_gate<F: Fn(Point)>(pass: &F, kind: Upkeep)
    requires { F.IsAlwaysCallable pass.now }
{
    match kind {
        Upkeep::Recheck => {}
        Upkeep::Audit => pass(Point::AuditFetch),
        Upkeep::Repair | Upkeep::Exit => pass(Point::RepairFetch),
    }
}

// Makes one part of a round, with room for two places. It tells why the round ends, where it does.
pub(crate) fn part<K: Keeper, N: Nodes, T: Clock, W: Words, I: Ticks, F: Fn(Point), R: Wait>(
    rt: &R,
    desk: &Desk<Book<K>>,
    pass: BookPass<K>,
    context: &RoundContext<F>,
    scratch: &mut Scratch,
    kind: Upkeep,
    kit: &mut Kit<N, T, W, I>,
    places: &mut Vec<u64>,
) -> (BookPass<K>, Option<RoundEnd>)
    requires desk { pass.desk ≡ desk.now }
    requires base { IsSomeAnd pass.base (λ origin. IsStoreOf origin.opening context.now.store.now.keys context.now.store.now.scheme) }
    requires points { context.now.store.now.scheme.n ≤ scratch.old.points }
    requires gate { F.IsAlwaysCallable context.now.gate.now }
    requires room { length places.old.items + 2 ≤ vec_capacity places.old }
    ensures does { Does context.now.store.now.keys context.now.store.now.scheme kind
        (kit_view (nodes_view N.held N.asks N.faults) T.coming W.left W.faults I.about kit.old) pass result.1
        (kit_view (nodes_view N.held N.asks N.faults) T.coming W.left W.faults I.about kit.new) result.0 places.old places.new }
    ensures points { scratch.new.points ≡ scratch.old.points }
{
    let (pass, answered) = plan(rt, context.alloc, desk, pass, kind, kit, places);
    let reply = match answered {
        Ok(reply) => reply,
        Err(end) => return (pass, Some(end)),
    };
    if !is_plan_of(kind, &reply) {
        return (pass, went_at(&reply));
    }
    pass_gate(context.gate, kind);
    let found = match ask(context.alloc, context.store, scratch, &mut kit.nodes, reply) {
        Ok(found) => found,
        Err(_) => return (pass, Some(RoundEnd::NoMemory)),
    };
    finish(rt, desk, pass, context.store, found, &mut kit.clock, places)
}
