// A segment is made afresh from its sources, window by window.
ghost use Rattle.std.specs.Prelude.{◌≡◌, ◌≤◌, ◌<◌, ◌++◌, ◌∷◌, [], ◌&&◌, ◌^◌, ◌-◌, not, length, map, filter, All, IfOk, OnErr, OnOk};
ghost use Rattle.std.specs.List.{cons_option};
ghost use Rattle.sat_base.specs.Nodes.{FetchesAll, AsksSome, CountsUnanswered};
ghost use Rattle.sat_base.specs.Outside.{with_end};
ghost use Rattle.bw_decode.specs.Near.{Rises};
ghost use Rattle.repair_core.specs.Indexes.{has_index, place_indexes};
ghost use Rattle.node_asks.specs.Answers.{places_in, answers_in, shares_in, sharing_in, lacking_in};
ghost use Rattle.node_asks.specs.Asks.{pieces_of, window_ask};
ghost use Rattle.node_asks.specs.Remaking.{Remakes, StopsAsking, IsSorted, blamed_of};

use crate::answers::{Answered, paired};
use crate::asking::Asking;
use crate::asks::window_ask;
use bw_decode::Scratch;
use order_limits::Keys;
use repair_core::{Rebuilder, Remade, RepairPlan};
use sat_base::{Ask, Fetched, Indexes, Items, NoMemory, Nodes, Place, Scheme, Share};
use std::alloc::Global;

/// So many bytes of a source's piece are asked for at once, or what whole shares fit into them.
pub const WINDOW: u64 = 16384;

/// What came of asking the sources of a repair.
#[derive(Drop)]
pub struct Heeded {
    /// What was made of their shares. None where in some window fewer than `k` came, or no stripe was near them.
    pub made: Option<Remade>,
    /// The sources that gave a share in every window that was asked, by rising index.
    pub answered: Indexes,
    /// The sources that hold no such piece, and aren't blamed, by rising index.
    pub missing: Indexes,
}

// The sources that are still asked, and the indexes of those that hold no such piece.
#[derive(Drop)]
struct Sources {
    still: Vec<Place>,
    gone: Vec<u8>,
}

// What the sources answered to a window: their shares, and what is left of them.
#[derive(Drop)]
struct Sorted {
    shares: Vec<Share>,
    sources: Sources,
}

// So many stripes, from one on.
#[derive(Clone, Copy)]
struct Window {
    from: u64,
    number: u64,
}

// Each place's ask for a window.
fn window_asks(
    alloc: Global,
    asking: &Asking<'_>,
    window: Window,
    still: &[Place],
) -> Result<Vec<Ask>, NoMemory>
    requires len { asking.now.plan.now.len ≤ 2 ^ 40 }
    requires from { window.from ≤ 2 ^ 40 }
    requires number { window.number ≤ 2 ^ 40 }
    ensures { IfOk result (λ asks. asks.items
        ≡ map (window_ask asking.now.keys.now asking.now.scheme.now asking.now.plan.now window.from window.number) still.now) }
{
    let (keys, scheme, plan) = (asking.keys, asking.scheme, asking.plan);
    let asks = still
        .iter()
        .map(|place| window_ask(keys, scheme, plan, window.from, window.number, place))
        .collect(alloc)?;
    Ok(asks)
}

impl Sorted {
    // Takes the answer of one more place.
    fn add(&mut self, one: Answered) -> Result<(), NoMemory>
        ensures shares { OnOk result (self.new.shares.items ≡ self.old.shares.items ++ shares_in (one ∷ [])) }
        ensures still { OnOk result (self.new.sources.still.items ≡ self.old.sources.still.items ++ sharing_in (one ∷ [])) }
        ensures gone { OnOk result (self.new.sources.gone.items ≡ self.old.sources.gone.items ++ lacking_in (one ∷ [])) }
    {
        let Answered { place, what } = one;
        let index = place.index;
        match what {
            Fetched::Share(bytes) => {
                self.shares.push(Share { index, bytes })?;
                self.sources.still.push(place)?;
            }
            Fetched::Missing => self.sources.gone.push(index)?,
            Fetched::NoAnswer | Fetched::NoMemory => {}
        }
        Ok(())
    }
}

// Sorts the answers of a window, behind what was gone before.
fn sort(alloc: Global, all: Vec<Answered>, gone: Vec<u8>) -> Result<Sorted, NoMemory>
    ensures shares { IfOk result (λ sorted. sorted.shares.items ≡ shares_in all.items) }
    ensures still { IfOk result (λ sorted. sorted.sources.still.items ≡ sharing_in all.items) }
    ensures gone { IfOk result (λ sorted. sorted.sources.gone.items ≡ gone.items ++ lacking_in all.items) }
{
    let mut sorted = Sorted {
        shares: Vec::new(alloc),
        sources: Sources {
            still: Vec::new(alloc),
            gone,
        },
    };
    for one in all {
        sorted.add(one)?;
    }
    Ok(sorted)
}

// Asks the sources that are left for a window, all at once, and sorts what they answer.
fn next_window<N: Nodes>(
    alloc: Global,
    asking: &Asking<'_>,
    nodes: &mut N,
    window: Window,
    sources: Sources,
) -> Result<Sorted, NoMemory>
    requires len { asking.now.plan.now.len ≤ 2 ^ 40 }
    requires from { window.from ≤ 2 ^ 40 }
    requires number { window.number ≤ 2 ^ 40 }
    ensures answered { IfOk result (IsSorted (N.held nodes.old)
        (map (window_ask asking.now.keys.now asking.now.scheme.now asking.now.plan.now window.from window.number) sources.still.items)
        sources (N.faults nodes.old) (N.faults nodes.new)) }
    ensures asks { OnOk result (N.asks nodes.new ≡ with_end (N.asks nodes.old)
        (map (window_ask asking.now.keys.now asking.now.scheme.now asking.now.plan.now window.from window.number) sources.still.items)) }
    ensures err { OnErr result (AsksSome (N.asks nodes.old)
        (map (window_ask asking.now.keys.now asking.now.scheme.now asking.now.plan.now window.from window.number) sources.still.items)
        (N.asks nodes.new)) }
    ensures counts { N.faults nodes.old ≤ N.faults nodes.new }
    ensures last { N.faults nodes.old ≡ 2 ^ 64 - 1 → N.faults nodes.new ≡ 2 ^ 64 - 1 }
    ensures held { N.held nodes.new ≡ N.held nodes.old }
{
    let asks = window_asks(alloc, asking, window, sources.still.as_slice())?;
    let answers = nodes.fetch_all(alloc, asks.as_slice())?;
    let Sources { still, gone } = sources;
    let all = paired(alloc, still.as_slice(), answers)?;
    sort(alloc, all, gone)
}

// The blamed of what was made, if it was.
fn blamed_of(made: &Option<Remade>) -> &[u8]
    ensures { result.now ≡ blamed_of made.now }
{
    match made {
        Some(remade) => remade.blamed.as_slice(),
        None => &[],
    }
}

// The sources that are gone and not blamed, in order.
fn missing_of(
    alloc: Global,
    plan: &RepairPlan,
    gone: &[u8],
    blamed: &[u8],
) -> Result<Vec<u8>, NoMemory>
    ensures { IfOk result (λ missing. missing.items
        ≡ filter (λ index. has_index gone.now index && not (has_index blamed.now index)) (place_indexes plan.now.sources)) }
{
    let missing = plan
        .sources
        .as_slice()
        .iter()
        .map(|source| source.index)
        .filter(|index| gone.contains(index) && !blamed.contains(index))
        .collect(alloc)?;
    Ok(missing)
}

// What is handed back of an end.
fn handed_back(
    alloc: Global,
    plan: &RepairPlan,
    made: Option<Remade>,
    sources: &Sources,
) -> Result<Heeded, NoMemory>
    ensures made { IfOk result (λ heeded. heeded.made ≡ made) }
    ensures answered { IfOk result (λ heeded. heeded.answered ≡ map (λ place. place.index) sources.now.still.items) }
    ensures missing { IfOk result (λ heeded. heeded.missing
        ≡ filter (λ index. has_index sources.now.gone.items index && not (has_index (blamed_of made) index)) (place_indexes plan.now.sources)) }
{
    let answered = sources
        .still
        .as_slice()
        .iter()
        .map(|place| place.index)
        .collect(alloc)?;
    let missing = missing_of(alloc, plan, sources.gone.as_slice(), blamed_of(&made))?;
    Ok(Heeded {
        made,
        answered: Items::of(answered),
        missing: Items::of(missing),
    })
}

/// Asks the sources of a repair for their pieces, window by window, and makes the fresh pieces of the targets. In each
/// window all sources are asked at once that gave their share in every window before. It ends at the first window that
/// can't be rebuilt. `sources` are where the plan's sources lie, in its order.
///
/// Each source that gave no answer raised the nodes' count. The decoder's room was made for this scheme, or for one with
/// at least as many shares. It fails only where memory runs out; then some of the asks may have been made.
pub fn remake<N: Nodes>(
    alloc: Global,
    keys: &Keys,
    scratch: &mut Scratch,
    scheme: &Scheme,
    nodes: &mut N,
    plan: &RepairPlan,
    sources: &[Place],
) -> Result<Heeded, NoMemory>
    requires room { scheme.now.n ≤ scratch.old.points }
    requires sources { pieces_of sources.now ≡ plan.now.sources }
    requires rising { Rises (place_indexes plan.now.sources) }
    requires below { All (λ index. index < scheme.now.n) (place_indexes plan.now.sources) }
    requires targets { All (λ index. index < scheme.now.n) (place_indexes plan.now.targets) }
    requires len { plan.now.len ≤ 2 ^ 40 }
    ensures remade { IfOk result (Remakes (N.held nodes.old) (N.asks nodes.old) (N.asks nodes.new) keys.now scheme.now plan.now sources.now
        (N.faults nodes.old) (N.faults nodes.new)) }
    ensures err { OnErr result (StopsAsking (N.held nodes.old) (N.asks nodes.old) (N.asks nodes.new) keys.now scheme.now plan.now sources.now) }
    ensures counts { N.faults nodes.old ≤ N.faults nodes.new }
    ensures last { N.faults nodes.old ≡ 2 ^ 64 - 1 → N.faults nodes.new ≡ 2 ^ 64 - 1 }
    ensures held { N.held nodes.new ≡ N.held nodes.old }
    ensures points { scratch.new.points ≡ scratch.old.points }
{
    let asking = Asking { keys, scheme, plan };
    let stripes = scheme.stripes(plan.len);
    let size = WINDOW / u64::from(scheme.share);
    let mut rebuilder = Rebuilder::new(alloc, scheme, plan, size)?;
    let mut left = Sources {
        still: Vec::from_slice(alloc, sources)?,
        gone: Vec::new(alloc),
    };
    while rebuilder.done() < stripes {
        let from = rebuilder.done();
        let number = size.min(stripes - from);
        let sorted = next_window(alloc, &asking, nodes, Window { from, number }, left)?;
        left = sorted.sources;
        let shares = sorted.shares;
        match rebuilder.window(scratch, scheme, shares.as_slice()) {
            Ok(next) => rebuilder = next,
            Err(_) => return handed_back(alloc, plan, None, &left),
        }
    }
    handed_back(alloc, plan, Some(rebuilder.finish()), &left)
}
