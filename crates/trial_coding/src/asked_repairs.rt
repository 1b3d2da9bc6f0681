// Pieces that repairs ask for, window by window.
ghost use Rattle.std.specs.Prelude.{◌≡◌, IfOk};
ghost use Rattle.node_asks.specs.Asks.{pieces_of};

use crate::places::{SEGMENT, Wanted, are_asked, keys, nodes, pieces_at, places, rise, scheme};
use bw_decode::Scratch;
use node_asks::{Heeded, remake};
use order_limits::Action;
use repair_core::{Remade, RepairPlan};
use rs_stripe::encode_piece;
use sat_base::{Bytes, MemNodes, Moment, NoMemory, Place, Scheme, Serial};
use std::alloc::Global;
use std::test::Fail;

/// A repair of a segment of so many bytes, from these places to those.
pub fn plan(
    alloc: Global,
    len: u64,
    sources: &[Place],
    targets: &[Place],
) -> Result<RepairPlan, NoMemory>
    ensures len { IfOk result (λ plan. plan.len ≡ len) }
    ensures sources { IfOk result (λ plan. plan.sources ≡ pieces_of sources.now) }
    ensures targets { IfOk result (λ plan. plan.targets ≡ pieces_of targets.now) }
{
    let sources = pieces_at(alloc, sources)?;
    let targets = pieces_at(alloc, targets)?;
    Ok(RepairPlan {
        plan: 9,
        segment: SEGMENT,
        version: 1,
        serial: Serial(7),
        issued: Moment::of(5),
        len,
        sources,
        targets,
    })
}

// What comes of a plan whose sources lie at these places. None where its pieces don't rise.
fn heed(
    alloc: Global,
    scheme: &Scheme,
    nodes: &mut MemNodes,
    plan: &RepairPlan,
    places: &[Place],
) -> Result<Option<Heeded>, NoMemory>
    requires { pieces_of places.now ≡ plan.now.sources }
{
    let sources_rise = rise(alloc, &plan.sources, scheme.n)?;
    let targets_rise = rise(alloc, &plan.targets, scheme.n)?;
    if plan.len > 1 << 40 || !sources_rise || !targets_rise {
        return Ok(None);
    }
    let mut scratch = Scratch::new(alloc, scheme)?;
    let heeded = remake(alloc, &keys(), &mut scratch, scheme, nodes, plan, places)?;
    Ok(Some(heeded))
}

// What comes of a segment of so many bytes with these sources, whose one target has index 4. None where they don't rise.
fn remade(
    alloc: Global,
    scheme: &Scheme,
    nodes: &mut MemNodes,
    len: u64,
    sources: &[u8],
) -> Result<Option<Heeded>, NoMemory> {
    let sources = places(alloc, sources)?;
    let targets = places(alloc, &[4])?;
    let plan = plan(alloc, len, sources.as_slice(), targets.as_slice())?;
    heed(alloc, scheme, nodes, &plan, sources.as_slice())
}

// What is to come of three bytes whose two stripes have shares of one byte.
#[derive(Clone, Copy)]
struct Case<'a> {
    held: &'a [(u8, &'a [u8])],
    failing: &'a [u64],
    blamed: Option<&'a [u8]>,
    answered: &'a [u8],
    missing: &'a [u8],
}

// Whether one piece was made fresh, that of index 4, and these sources are blamed.
fn is_fresh(made: &Remade, blamed: &[u8]) -> bool {
    let fresh: &[u8] = &[0x0d, 0x14];
    match made.fresh.as_slice() {
        [piece] => {
            piece.index == 4 && piece.bytes.as_slice() == fresh && made.blamed.as_slice() == blamed
        }
        _ => false,
    }
}

fn is_heeded(heeded: &Heeded, case: Case<'_>) -> bool {
    let made = match (&heeded.made, case.blamed) {
        (Some(made), Some(blamed)) => is_fresh(made, blamed),
        (None, None) => true,
        _ => false,
    };
    made && heeded.answered.as_slice() == case.answered && heeded.missing.as_slice() == case.missing
}

// Whether the case comes out as it is to, each source being asked once.
fn comes_out(alloc: Global, case: Case<'_>) -> Result<bool, NoMemory> {
    let mut nodes = nodes(alloc, case.held, case.failing)?;
    let heeded = remade(alloc, &scheme(1), &mut nodes, 3, &[0, 1, 2, 3])?;
    let wanted = Wanted {
        action: Action::GetRepair,
        offset: 0,
        len: 2,
        limit: 2,
    };
    Ok(match heeded {
        Some(heeded) => {
            is_heeded(&heeded, case) && are_asked(nodes.asks(), &[0, 1, 2, 3], wanted)
        }
        None => false,
    })
}

const FIRST: (u8, &[u8]) = (0, &[1, 4]);

const SECOND: (u8, &[u8]) = (1, &[2, 0]);

const THIRD: (u8, &[u8]) = (2, &[7, 12]);

const ALTERED: (u8, &[u8]) = (3, &[4, 9]);

#[test]
fn tells_what_came_of_each_source(rt: HostRuntime) -> Result<(), Fail> {
    let altered = Case {
        held: &[FIRST, SECOND, THIRD, ALTERED],
        failing: &[],
        blamed: Some(&[3]),
        answered: &[0, 1, 2, 3],
        missing: &[],
    };
    let missing = Case {
        held: &[FIRST, SECOND, THIRD],
        failing: &[],
        blamed: Some(&[]),
        answered: &[0, 1, 2],
        missing: &[3],
    };
    let silent = Case {
        held: &[FIRST, SECOND, THIRD, ALTERED],
        failing: &[4],
        blamed: Some(&[]),
        answered: &[0, 1, 2],
        missing: &[],
    };
    // nothing is made of too few
    let too_few = Case {
        held: &[FIRST],
        failing: &[],
        blamed: None,
        answered: &[0],
        missing: &[1, 2, 3],
    };
    for case in [altered, missing, silent, too_few] {
        let good = comes_out(rt.alloc(), case)?;
        assert!(rt;
            good,
            "answered {:?}, missing {:?}",
            case.answered, case.missing
        );
    }
    Ok(())
}

// A segment of so many bytes.
fn segment(alloc: Global, len: u64) -> Result<Vec<u8>, NoMemory> {
    Ok((0..len).map(|i| (i % 251) as u8).collect(alloc)?)
}

// The pieces of the indexes 0 to 4 of a segment.
fn five_pieces(alloc: Global, scheme: &Scheme, segment: &[u8]) -> Result<Vec<Bytes>, NoMemory> {
    let mut pieces = Vec::new(alloc);
    for index in 0..scheme.n.min(5) {
        if segment.len() <= 1 << 40 {
            pieces.push(encode_piece(alloc, scheme, segment, index)?)?;
        }
    }
    Ok(pieces)
}

// Whether all that was made fresh is this.
fn is_made(heeded: &Heeded, fresh: &[u8]) -> bool {
    match &heeded.made {
        Some(made) => made
            .fresh
            .as_slice()
            .iter()
            .all(|piece| piece.bytes.as_slice() == fresh),
        None => false,
    }
}

// Whether the sources 0 and 2 alone answer throughout, where the second ask and the seventh fail, and the fifth piece is
// made of the first four.
fn drops_the_silent(alloc: Global, len: u64, pieces: &[Bytes]) -> Result<bool, NoMemory> {
    let [first, second, third, fourth, fifth] = pieces else {
        return Ok(false);
    };
    let held: &[(u8, &[u8])] = &[
        (0, first.as_slice()),
        (1, second.as_slice()),
        (2, third.as_slice()),
        (3, fourth.as_slice()),
    ];
    let mut nodes = nodes(alloc, held, &[2, 7])?;
    let Some(heeded) = remade(alloc, &scheme(1024), &mut nodes, len, &[0, 1, 2, 3])? else {
        return Ok(false);
    };
    Ok(
        heeded.answered.as_slice() == [0, 2].as_slice()
            && nodes.asks().len() == 7
            && is_made(&heeded, fifth.as_slice()),
    )
}

// A source of two windows is silent in the second one.
#[test]
fn asks_in_the_next_window_who_answered(rt: HostRuntime) -> Result<(), Fail> {
    let alloc = rt.alloc();
    let len = 17 * 2 * 1024;
    let segment = segment(alloc, len)?;
    let pieces = five_pieces(alloc, &scheme(1024), segment.as_slice())?;
    let good = drops_the_silent(alloc, len, pieces.as_slice())?;
    assert!(rt; good);
    Ok(())
}
