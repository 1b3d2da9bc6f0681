// How repairs end.
ghost use Rattle.std.specs.Prelude.{◌≡◌, true, false, All, IsTrue, IfOk};
ghost use Rattle.bw_decode.specs.Near.{Rises};
ghost use Rattle.repair_core.specs.Indexes.{has_index};
ghost use Rattle.node_asks.specs.Ending.{Told};

use crate::places::{SEGMENT, pieces_at, places, scheme};
use node_asks::conclude;
use repair_core::{RepairOutcome, RepairPlan};
use sat_base::{Indexes, Items, Moment, NoMemory, Serial};
use std::alloc::Global;
use std::test::Fail;
use trial_indexes::{are_among, are_apart, are_rising, indexes_of};

fn listed(alloc: Global, indexes: &[u8]) -> Result<Indexes, NoMemory> {
    Ok(Items::of(Vec::from_slice(alloc, indexes)?))
}

// What is told of a repair: the sources that were altered, that answered in every window and that hold no piece, and the
// targets that are kept.
#[derive(Drop)]
struct Tale {
    blamed: Indexes,
    answered: Indexes,
    placed: Indexes,
    missing: Indexes,
}

// Whether indexes rise and stand in others.
fn are_of(indexes: &[u8], others: &[u8]) -> bool
    ensures rising { IsTrue result → Rises indexes.now }
    ensures among { IsTrue result → All (λ index. has_index others.now index ≡ true) indexes.now }
{
    are_rising(indexes, 6) && are_among(indexes, others)
}

// Whether a repair from these sources to these targets can have ended as it is told.
fn is_told(sources: &[u8], targets: &[u8], tale: &Tale) -> bool
    ensures sources { IsTrue result → Rises sources.now }
    ensures blamed_rise { IsTrue result → Rises tale.now.blamed }
    ensures answered_rise { IsTrue result → Rises tale.now.answered }
    ensures placed_rise { IsTrue result → Rises tale.now.placed }
    ensures missing_rise { IsTrue result → Rises tale.now.missing }
    ensures blamed { IsTrue result → All (λ index. has_index sources.now index ≡ true) tale.now.blamed }
    ensures answered { IsTrue result → All (λ index. has_index sources.now index ≡ true) tale.now.answered }
    ensures placed { IsTrue result → All (λ index. has_index targets.now index ≡ true) tale.now.placed }
    ensures missing { IsTrue result → All (λ index. has_index sources.now index ≡ true) tale.now.missing }
    ensures silent { IsTrue result → All (λ index. has_index tale.now.missing index ≡ false) tale.now.answered }
    ensures apart { IsTrue result → All (λ index. has_index tale.now.missing index ≡ false) tale.now.blamed }
{
    let blamed = tale.blamed.as_slice();
    let answered = tale.answered.as_slice();
    let missing = tale.missing.as_slice();
    are_rising(sources, 6)
        && are_of(blamed, sources)
        && are_of(answered, sources)
        && are_of(tale.placed.as_slice(), targets)
        && are_of(missing, sources)
        && are_apart(answered, missing)
        && are_apart(blamed, missing)
}

// A repair of sources 0 to 3 to a target 4.
fn plan(alloc: Global) -> Result<RepairPlan, NoMemory> {
    let sources = pieces_at(alloc, places(alloc, &[0, 1, 2, 3])?.as_slice())?;
    let targets = pieces_at(alloc, places(alloc, &[4])?.as_slice())?;
    Ok(RepairPlan {
        plan: 9,
        segment: SEGMENT,
        version: 1,
        serial: Serial(7),
        issued: Moment::of(5),
        len: 3,
        sources,
        targets,
    })
}

// Whether a repair by the plan can have ended as it is told.
fn can_end(alloc: Global, plan: &RepairPlan, tale: &Tale) -> Result<bool, NoMemory>
    ensures { IfOk result (λ fine. IsTrue fine
        → Told plan.now tale.now.blamed tale.now.answered tale.now.placed tale.now.missing) }
{
    let sources = indexes_of(alloc, plan.sources.as_slice())?;
    let targets = indexes_of(alloc, plan.targets.as_slice())?;
    Ok(is_told(sources.as_slice(), targets.as_slice(), tale))
}

// Whether it is mended. None where it can't have ended as it is told.
fn is_mended(alloc: Global, tale: Tale) -> Result<Option<bool>, NoMemory> {
    let plan = plan(alloc)?;
    if !can_end(alloc, &plan, &tale)? {
        return Ok(None);
    }
    let Tale {
        blamed,
        answered,
        placed,
        missing,
    } = tale;
    let outcome = conclude(alloc, &scheme(1), plan, &blamed, &answered, placed, missing)?;
    Ok(Some(matches!(outcome, RepairOutcome::Mended(_))))
}

// The sources that answered, were altered and hold no piece, and whether such a repair is mended, if it can have ended so.
type Case<'a> = (&'a [u8], &'a [u8], &'a [u8], Option<bool>);

const CASES: [Case<'static>; 6] = [
    (&[0, 1, 2, 3], &[3], &[], Some(true)),
    (&[0, 2], &[], &[1, 3], Some(true)),
    (&[0, 2], &[2], &[1, 3], Some(false)),
    (&[2], &[], &[], Some(false)),
    // one that is blamed need not have answered in every window
    (&[0, 1], &[3], &[2], Some(true)),
    // a source can't answer and be missing
    (&[0, 1], &[], &[1], None),
];

// Whether a repair ends as the case says.
fn ends_so(alloc: Global, case: Case<'_>) -> Result<bool, NoMemory> {
    let (answered, blamed, missing, mended) = case;
    let tale = Tale {
        blamed: listed(alloc, blamed)?,
        answered: listed(alloc, answered)?,
        placed: listed(alloc, &[4])?,
        missing: listed(alloc, missing)?,
    };
    Ok(is_mended(alloc, tale)? == mended)
}

#[test]
fn two_sound_sources_mend(rt: HostRuntime) -> Result<(), Fail> {
    for case in CASES {
        let good = ends_so(rt.alloc(), case)?;
        assert!(rt;
            good,
            "answered {:?}, altered {:?}, missing {:?}",
            case.0, case.1, case.2
        );
    }
    Ok(())
}
