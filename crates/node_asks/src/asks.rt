// One ask: its node, its range and its order.
ghost use Rattle.std.specs.Prelude.{◌≡◌, ◌≤◌, ◌<◌, ◌*◌, ◌^◌};
ghost use Rattle.node_asks.specs.Asks.{at_of, ask_of, grant_of, audit_grant, audit_ask, recheck_ask, piece_len_of, repair_grant, window_ask, put_ask};

use audit_core::{AuditPlan, RecheckPlan};
use order_limits::{Action, Grant, Keys, Order};
use repair_core::RepairPlan;
use sat_base::{Ask, At, CustomerId, Moment, Place, Scheme, SegId, Serial};

// What the satellite moves is its own.
const OWN: CustomerId = CustomerId(0);

fn at_of(place: &Place) -> At
    ensures { result ≡ at_of place.now }
{
    At {
        index: place.index,
        node: place.node,
    }
}

fn ask_of(keys: &Keys, grant: &Grant, place: &Place, offset: u64, len: u64) -> Ask
    ensures { result ≡ ask_of keys.now grant.now place.now offset len }
{
    let order = Order {
        limit: grant.at(at_of(place)),
        amount: grant.limit,
    };
    let order = order.write(keys);
    Ask {
        node: place.node,
        addr: place.addr,
        port: place.port,
        segment: grant.segment,
        index: place.index,
        offset,
        len,
        order,
    }
}

// A node is asked for its share of a stripe, which is all that the order lets it move.
fn share_ask(keys: &Keys, grant: &Grant, place: &Place, stripe: u64) -> Ask
    requires stripe { stripe < 2 ^ 40 }
    requires share { grant.now.limit ≤ 1024 }
    ensures { result ≡ ask_of keys.now grant.now place.now (stripe * grant.now.limit) grant.now.limit }
{
    ask_of(keys, grant, place, stripe * grant.limit, grant.limit)
}

fn grant_of(action: Action, serial: Serial, segment: SegId, limit: u64, issued: Moment) -> Grant
    ensures { result ≡ grant_of action serial segment limit issued }
{
    Grant {
        action,
        serial,
        segment,
        limit,
        issued,
        customer: OWN,
    }
}

pub(crate) fn audit_grant(scheme: &Scheme, plan: &AuditPlan) -> Grant
    ensures { result ≡ audit_grant scheme.now plan.now }
{
    let limit = u64::from(scheme.share);
    grant_of(
        Action::GetAudit,
        plan.serial,
        plan.segment,
        limit,
        plan.issued,
    )
}

pub(crate) fn audit_ask(keys: &Keys, scheme: &Scheme, plan: &AuditPlan, place: &Place) -> Ask
    requires { plan.now.stripe < 2 ^ 40 }
    ensures { result ≡ audit_ask keys.now scheme.now plan.now place.now }
{
    share_ask(keys, &audit_grant(scheme, plan), place, plan.stripe)
}

pub(crate) fn recheck_ask(keys: &Keys, scheme: &Scheme, plan: &RecheckPlan, place: &Place) -> Ask
    requires { plan.now.stripe < 2 ^ 40 }
    ensures { result ≡ recheck_ask keys.now scheme.now plan.now place.now }
{
    let share = u64::from(scheme.share);
    let grant = grant_of(
        Action::GetAudit,
        plan.serial,
        plan.segment,
        share,
        plan.issued,
    );
    share_ask(keys, &grant, place, plan.stripe)
}

pub(crate) fn repair_grant(action: Action, scheme: &Scheme, plan: &RepairPlan) -> Grant
    requires { plan.now.len ≤ 2 ^ 40 }
    ensures { result ≡ repair_grant action scheme.now plan.now }
{
    let limit = scheme.piece_len(plan.len);
    grant_of(action, plan.serial, plan.segment, limit, plan.issued)
}

pub(crate) fn put_ask(keys: &Keys, scheme: &Scheme, plan: &RepairPlan, place: &Place) -> Ask
    requires { plan.now.len ≤ 2 ^ 40 }
    ensures { result ≡ put_ask keys.now scheme.now plan.now place.now }
{
    let grant = repair_grant(Action::PutRepair, scheme, plan);
    ask_of(keys, &grant, place, 0, grant.limit)
}

pub(crate) fn window_ask(
    keys: &Keys,
    scheme: &Scheme,
    plan: &RepairPlan,
    from: u64,
    number: u64,
    place: &Place,
) -> Ask
    requires len { plan.now.len ≤ 2 ^ 40 }
    requires from { from ≤ 2 ^ 40 }
    requires number { number ≤ 2 ^ 40 }
    ensures { result ≡ window_ask keys.now scheme.now plan.now from number place.now }
{
    let share = u64::from(scheme.share);
    let grant = repair_grant(Action::GetRepair, scheme, plan);
    ask_of(keys, &grant, place, from * share, number * share)
}
