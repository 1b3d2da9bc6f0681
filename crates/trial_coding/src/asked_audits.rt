// Shares that audits and rechecks ask for.
ghost use Rattle.std.specs.Prelude.{◌≡◌, IfOk};
ghost use Rattle.node_asks.specs.Asks.{pieces_of};

use crate::places::{SEGMENT, Wanted, are_asked, keys, nodes, pieces_at, place, places, scheme};
use audit_core::{AuditPlan, Heard, RecheckPlan};
use node_asks::{hear, hear_one};
use order_limits::Action;
use sat_base::{Fetched, Items, MemNodes, Moment, NoMemory, Place, Serial};
use std::alloc::Global;
use std::test::Fail;

// An audit of stripe 1 at these places.
fn plan(alloc: Global, places: &[Place]) -> Result<AuditPlan, NoMemory>
    ensures asked { IfOk result (λ plan. plan.asked ≡ pieces_of places.now) }
    ensures stripe { IfOk result (λ plan. plan.stripe ≡ 1) }
{
    Ok(AuditPlan {
        plan: 9,
        segment: SEGMENT,
        version: 1,
        stripe: 1,
        serial: Serial(7),
        issued: Moment::of(5),
        asked: pieces_at(alloc, places)?,
    })
}

// What is to be heard of a place.
#[derive(Clone, Copy)]
enum Told<'a> {
    Share(&'a [u8]),
    Missing,
    NoAnswer,
}

fn is_told(what: &Fetched, told: Told<'_>) -> bool {
    match (what, told) {
        (Fetched::Share(bytes), Told::Share(wanted)) => bytes.as_slice() == wanted,
        (Fetched::Missing, Told::Missing) => true,
        (Fetched::NoAnswer, Told::NoAnswer) => true,
        _ => false,
    }
}

// Whether each place is told of, in order.
fn are_told(heard: &[Heard], told: &[(u8, Told<'_>)]) -> bool {
    heard.len() == told.len()
        && heard.iter().zip(told).all(|(one, (index, told))| one.index == *index
            && is_told(&one.what, *told))
}

// What is heard of these places.
fn heard(alloc: Global, nodes: &mut MemNodes, indexes: &[u8]) -> Result<Items<Heard>, NoMemory> {
    let places = places(alloc, indexes)?;
    let plan = plan(alloc, places.as_slice())?;
    let places = places.as_slice();
    hear(alloc, &keys(), &scheme(1), nodes, &plan, places)
}

#[test]
fn hears_of_each_place(rt: HostRuntime) -> Result<(), Fail> {
    let alloc = rt.alloc();
    // the third call fails, the piece of index 5 isn't held, and that of index 4 ends before the stripe
    let held: &[(u8, &[u8])] = &[
        (0, &[1, 10, 3]),
        (1, &[1, 11, 3]),
        (2, &[1, 12, 3]),
        (3, &[1, 13, 3]),
        (4, &[1]),
    ];
    let told: &[(u8, Told<'_>)] = &[
        (0, Told::Share(&[10])),
        (1, Told::Share(&[11])),
        (2, Told::NoAnswer),
        (3, Told::Share(&[13])),
        (4, Told::Share(&[])),
        (5, Told::Missing),
    ];
    let wanted = Wanted {
        action: Action::GetAudit,
        offset: 1,
        len: 1,
        limit: 1,
    };
    let indexes: &[u8] = &[0, 1, 2, 3, 4, 5];
    let mut nodes = nodes(alloc, held, &[3])?;
    let heard = heard(alloc, &mut nodes, indexes)?;
    let good = are_told(heard.as_slice(), told) && are_asked(nodes.asks(), indexes, wanted);
    assert!(rt; good);
    Ok(())
}

// What is heard of the place of a recheck of stripe 2.
fn heard_again(alloc: Global, nodes: &mut MemNodes) -> Fetched {
    let place = place(3);
    let plan = RecheckPlan {
        plan: 9,
        serial: Serial(7),
        issued: Moment::of(5),
        node: place.node,
        segment: SEGMENT,
        index: place.index,
        stripe: 2,
        expect: [0; 32],
    };
    hear_one(alloc, &keys(), &scheme(2), nodes, &plan, &place)
}

#[test]
fn hears_of_the_place_of_a_recheck(rt: HostRuntime) -> Result<(), Fail> {
    let alloc = rt.alloc();
    let mut nodes = nodes(alloc, &[(3, &[1, 2, 3, 4, 5, 6])], &[2])?;
    let first = is_told(&heard_again(alloc, &mut nodes), Told::Share(&[5, 6]));
    let second = is_told(&heard_again(alloc, &mut nodes), Told::NoAnswer);
    let wanted = Wanted {
        action: Action::GetAudit,
        offset: 4,
        len: 2,
        limit: 2,
    };
    assert!(rt; first && second && are_asked(nodes.asks(), &[3, 3], wanted));
    Ok(())
}
