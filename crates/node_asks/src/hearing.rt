// Nodes are asked for their shares of one stripe.
ghost use Rattle.std.specs.Prelude.{◌≡◌, ◌≤◌, ◌<◌, ◌-◌, ◌^◌, length, map, take, IfOk, OnErr, OnOk};
ghost use Rattle.sat_base.specs.Outside.{CountsExactly, with_end};
ghost use Rattle.sat_base.specs.Nodes.{Fetches, FetchesWithin, AsksSome, CountsUnanswered, fetch_asks, is_unanswered};
ghost use Rattle.audit_core.specs.Heard.{heard_indexes};
ghost use Rattle.node_asks.specs.Answers.{places_in, answers_in};
ghost use Rattle.node_asks.specs.Asks.{pieces_of, audit_asks, recheck_ask};
ghost use Rattle.node_asks.specs.Hearing.{IsHeard, fetched_in};

use crate::answers::{Answered, paired};
use crate::asks::{audit_ask, recheck_ask};
use audit_core::{AuditPlan, Heard, RecheckPlan};
use order_limits::Keys;
use sat_base::{Ask, Fetched, Items, NoMemory, Nodes, Place, Scheme};
use std::alloc::Global;

// Each place's ask, in order.
fn audit_asks(
    alloc: Global,
    keys: &Keys,
    scheme: &Scheme,
    plan: &AuditPlan,
    places: &[Place],
) -> Result<Vec<Ask>, NoMemory>
    requires { plan.now.stripe < 2 ^ 40 }
    ensures { IfOk result (λ asks. asks.items ≡ audit_asks keys.now scheme.now plan.now places.now) }
{
    let asks = places
        .iter()
        .map(|place| audit_ask(keys, scheme, plan, place))
        .collect(alloc)?;
    Ok(asks)
}

// What is heard of each place's piece.
fn heard_of(alloc: Global, all: Vec<Answered>) -> Result<Vec<Heard>, NoMemory>
    ensures indexes { IfOk result (λ heard. heard_indexes heard.items ≡ map (λ place. place.index) (places_in all.items)) }
    ensures answers { IfOk result (λ heard. fetched_in heard.items ≡ answers_in all.items) }
{
    let mut heard = Vec::new(alloc);
    for one in all {
        heard.push(Heard {
            index: one.place.index,
            what: one.what,
        })?;
    }
    Ok(heard)
}

/// Asks the nodes of an audit for their shares of its stripe, all at once, and tells what is heard, by the indexes of
/// the plan. `places` are where the plan's pieces lie, in its order.
///
/// Each piece that nothing was heard of raised the nodes' count. It fails only where memory runs out; then some of the asks
/// may have been made.
pub fn hear<N: Nodes>(
    alloc: Global,
    keys: &Keys,
    scheme: &Scheme,
    nodes: &mut N,
    plan: &AuditPlan,
    places: &[Place],
) -> Result<Items<Heard>, NoMemory>
    requires places { pieces_of places.now ≡ plan.now.asked }
    requires stripe { plan.now.stripe < 2 ^ 40 }
    ensures heard { IfOk result (IsHeard (N.held nodes.old) (audit_asks keys.now scheme.now plan.now places.now) places.now) }
    ensures silent { IfOk result (λ heard. CountsUnanswered (fetched_in heard) (N.faults nodes.old) (N.faults nodes.new)) }
    ensures asks { OnOk result (N.asks nodes.new ≡ with_end (N.asks nodes.old) (audit_asks keys.now scheme.now plan.now places.now)) }
    ensures err { OnErr result (AsksSome (N.asks nodes.old) (audit_asks keys.now scheme.now plan.now places.now) (N.asks nodes.new)) }
    ensures counts { N.faults nodes.old ≤ N.faults nodes.new }
    ensures last { N.faults nodes.old ≡ 2 ^ 64 - 1 → N.faults nodes.new ≡ 2 ^ 64 - 1 }
    ensures held { N.held nodes.new ≡ N.held nodes.old }
{
    let asks = audit_asks(alloc, keys, scheme, plan, places)?;
    let answers = nodes.fetch_all(alloc, asks.as_slice())?;
    let all = paired(alloc, places, answers)?;
    Ok(Items::of(heard_of(alloc, all)?))
}

/// Asks the node of a recheck for its share again. `place` is where the plan's piece lies.
pub fn hear_one<N: Nodes>(
    alloc: Global,
    keys: &Keys,
    scheme: &Scheme,
    nodes: &mut N,
    plan: &RecheckPlan,
    place: &Place,
) -> Fetched
    requires node { place.now.node ≡ plan.now.node }
    requires index { place.now.index ≡ plan.now.index }
    requires stripe { plan.now.stripe < 2 ^ 40 }
    ensures told { Fetches (N.held nodes.old) (recheck_ask keys.now scheme.now plan.now place.now) result }
    ensures within { FetchesWithin (recheck_ask keys.now scheme.now plan.now place.now) result }
    ensures asks { N.asks nodes.new ≡ with_end (N.asks nodes.old) (fetch_asks (recheck_ask keys.now scheme.now plan.now place.now) result) }
    ensures faults { CountsExactly (is_unanswered result) (N.faults nodes.old) (N.faults nodes.new) }
    ensures held { N.held nodes.new ≡ N.held nodes.old }
{
    nodes.fetch(alloc, &recheck_ask(keys, scheme, plan, place))
}
