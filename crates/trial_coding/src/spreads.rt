// Fresh pieces that repairs put.
ghost use Rattle.std.specs.Prelude.{◌≡◌, ◌≤◌, IfOk};
ghost use Rattle.std.specs.List.{AllZip};
ghost use Rattle.node_asks.specs.Asks.{pieces_of};
ghost use Rattle.node_asks.specs.Spreading.{IsFresh};

use crate::asked_repairs::plan;
use crate::places::{Wanted, are_asked, keys, nodes, places, rise, scheme};
use node_asks::spread;
use order_limits::Action;
use repair_core::RepairPlan;
use sat_base::{Held, Indexes, Items, MemNodes, NoMemory, Place, Share};
use std::alloc::Global;
use std::test::Fail;

// A piece of so many bytes for each place, in order.
fn fresh_at(alloc: Global, places: &[Place], len: u64, byte: u8) -> Result<Vec<Share>, NoMemory>
    requires { len ≤ 1024 }
    ensures { IfOk result (λ fresh. AllZip (IsFresh len) places.now fresh.items) }
{
    let mut fresh = Vec::new(alloc);
    for place in places {
        let bytes = Items::of(vec![in alloc; byte; len as usize]?);
        fresh.push(Share {
            index: place.index,
            bytes,
        })?;
    }
    Ok(fresh)
}

// The targets that are kept of a plan of three bytes whose targets are these. None where they don't rise.
fn kept(
    alloc: Global,
    nodes: &mut MemNodes,
    plan: &RepairPlan,
    targets: &[Place],
) -> Result<Option<Indexes>, NoMemory>
    requires targets { pieces_of targets.now ≡ plan.now.targets }
    requires len { plan.now.len ≡ 3 }
{
    let scheme = scheme(1);
    let rises = rise(alloc, &plan.targets, scheme.n)?;
    let len = scheme.piece_len(3);
    if !rises || len != 2 {
        return Ok(None);
    }
    let fresh = fresh_at(alloc, targets, len, 9)?;
    let fresh = fresh.as_slice();
    let kept = spread(alloc, &keys(), &scheme, nodes, plan, targets, fresh)?;
    Ok(Some(kept))
}

// Whether of two targets, the first of which gives no answer, the other is kept.
fn keeps_the_second(alloc: Global, nodes: &mut MemNodes) -> Result<bool, NoMemory> {
    let targets = places(alloc, &[4, 5])?;
    let plan = plan(alloc, 3, &[], targets.as_slice())?;
    Ok(match kept(alloc, nodes, &plan, targets.as_slice())? {
        Some(kept) => kept.as_slice() == [5].as_slice(),
        None => false,
    })
}

// Whether the second target alone holds a piece, of two bytes.
fn is_held(held: &[Held]) -> bool {
    match held {
        [held] => held.index == 5 && held.bytes.as_slice().len() == 2,
        _ => false,
    }
}

#[test]
fn tells_the_targets_that_are_kept(rt: HostRuntime) -> Result<(), Fail> {
    let alloc = rt.alloc();
    let mut nodes = nodes(alloc, &[], &[1])?;
    let kept = keeps_the_second(alloc, &mut nodes)?;
    let wanted = Wanted {
        action: Action::PutRepair,
        offset: 0,
        len: 2,
        limit: 2,
    };
    let good = kept && is_held(nodes.held()) && are_asked(nodes.asks(), &[4, 5], wanted);
    assert!(rt; good);
    Ok(())
}
