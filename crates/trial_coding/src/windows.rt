// Segments that are rebuilt in windows.
ghost use Rattle.std.specs.Prelude.{◌≡◌, ◌≤◌, ◌^◌, IfOk};
ghost use Rattle.sat_base.specs.Scheme.{stripe_count};
ghost use Rattle.repair_core.specs.Kept.{IsKept};

use crate::repairs::{NONE, Pieces, plan, shares};
use crate::schemes::scheme;
use bw_decode::Scratch;
use repair_core::{Rebuilder, Remade, WindowErr};
use sat_base::{NoMemory, Scheme, Share};
use std::alloc::Global;
use std::process::Abort;
use trial_indexes::{are_among, are_rising, indexes_in};

/// What the windows of a rebuilding have in common.
#[derive(Drop)]
pub struct Repair<'a> {
    pub scheme: Scheme,
    pub sources: &'a [u8],
    pub count: u64,
}

/// The next window, whose shares come in order from the sources.
pub fn next(
    rt: &impl Abort,
    alloc: Global,
    repair: &Repair,
    rebuilder: Rebuilder,
    scratch: &mut Scratch,
    shares: &[Share],
) -> Result<Result<Rebuilder, WindowErr>, NoMemory>
    requires room { repair.now.scheme.n ≤ scratch.old.points }
    requires kept { IsKept repair.now.scheme.k repair.now.scheme.share repair.now.scheme.n repair.now.count repair.now.sources.now rebuilder }
    ensures kept { IfOk result (λ next. IfOk next (IsKept repair.now.scheme.k repair.now.scheme.share repair.now.scheme.n
        repair.now.count repair.now.sources.now)) }
    ensures points { scratch.new.points ≡ scratch.old.points }
{
    let indexes = indexes_in(alloc, shares)?;
    assert!(rt; are_rising(indexes.as_slice(), repair.scheme.n), "shares");
    assert!(rt; are_among(indexes.as_slice(), repair.sources), "sources");
    assert!(rt; rebuilder.done() < repair.count, "no window is left");
    Ok(rebuilder.window(scratch, &repair.scheme, shares))
}

/// A segment of `len` bytes whose sources are these, and whose one target has index 4.
pub fn begin(
    rt: &impl Abort,
    alloc: Global,
    repair: &Repair,
    len: u64,
    window: u64,
) -> Result<Rebuilder, NoMemory>
    requires len { len ≤ 2 ^ 40 }
    requires count { repair.now.count ≡ stripe_count repair.now.scheme.k repair.now.scheme.share len }
    ensures kept { IfOk result (IsKept repair.now.scheme.k repair.now.scheme.share repair.now.scheme.n
        repair.now.count repair.now.sources.now) }
{
    let targets = [4];
    assert!(rt; are_rising(repair.sources, repair.scheme.n), "sources");
    assert!(rt; are_rising(&targets, repair.scheme.n), "targets");
    assert!(rt; window >= 1);
    let plan = plan(alloc, len, repair.sources, &targets)?;
    Rebuilder::new(alloc, &repair.scheme, &plan, window)
}

// The window of these pieces.
fn next_of(
    rt: &impl Abort,
    alloc: Global,
    repair: &Repair,
    rebuilder: Rebuilder,
    scratch: &mut Scratch,
    pieces: Pieces,
) -> Result<Result<Rebuilder, WindowErr>, NoMemory>
    requires room { repair.now.scheme.n ≤ scratch.old.points }
    requires kept { IsKept repair.now.scheme.k repair.now.scheme.share repair.now.scheme.n repair.now.count repair.now.sources.now rebuilder }
    ensures kept { IfOk result (λ next. IfOk next (IsKept repair.now.scheme.k repair.now.scheme.share repair.now.scheme.n
        repair.now.count repair.now.sources.now)) }
    ensures points { scratch.new.points ≡ scratch.old.points }
{
    let shares = shares(alloc, pieces)?;
    next(rt, alloc, repair, rebuilder, scratch, shares.as_slice())
}

fn remade_in(
    rt: &impl Abort,
    alloc: Global,
    scratch: &mut Scratch,
    repair: &Repair,
    len: u64,
    windows: &[Pieces],
) -> Result<Result<Remade, WindowErr>, NoMemory>
    requires room { repair.now.scheme.n ≤ scratch.old.points }
    requires len { len ≤ 2 ^ 40 }
    requires count { repair.now.count ≡ stripe_count repair.now.scheme.k repair.now.scheme.share len }
{
    let mut rebuilder = begin(rt, alloc, repair, len, 1)?;
    for pieces in windows {
        match next_of(rt, alloc, repair, rebuilder, scratch, pieces)? {
            Ok(next) => rebuilder = next,
            Err(err) => return Ok(Err(err)),
        }
    }
    assert!(rt; rebuilder.done() == repair.count, "a window is left");
    Ok(Ok(rebuilder.finish()))
}

// Rebuilds a segment of 3 bytes from four sources, in windows of one stripe.
fn remade(
    rt: &impl Abort,
    alloc: Global,
    windows: &[Pieces],
) -> Result<Result<Remade, WindowErr>, NoMemory> {
    let scheme = scheme(rt, 2, 2, 3, 6, 1);
    let repair = Repair {
        scheme,
        sources: &[0, 1, 2, 3],
        count: scheme.stripes(3),
    };
    let mut scratch = Scratch::new(alloc, &scheme)?;
    remade_in(rt, alloc, &mut scratch, &repair, 3, windows)
}

// Whether these are blamed, and the fresh piece is the one.
fn is_remade(made: &Remade, blamed: &[u8]) -> bool {
    let fresh = made.fresh.as_slice();
    if fresh.len() != 1 || fresh[0].index != 4 {
        return false;
    }
    made.blamed.as_slice() == blamed && fresh[0].bytes.as_slice() == [13, 20].as_slice()
}

fn blames(
    rt: &impl Abort,
    alloc: Global,
    windows: &[Pieces],
    blamed: &[u8],
) -> Result<bool, NoMemory> {
    Ok(match remade(rt, alloc, windows)? {
        Ok(made) => is_remade(&made, blamed),
        Err(_) => false,
    })
}

const FIRST: Pieces<'static> = &[(0, &[1]), (1, &[2]), (2, &[7]), (3, &[4])];

const ALTERED: Pieces<'static> = &[(0, &[4]), (1, &[0]), (2, &[12]), (3, &[9])];

const SILENT: Pieces<'static> = &[(0, &[4]), (1, &[0]), (2, &[12])];

const LONG: Pieces<'static> = &[(0, &[4]), (1, &[0]), (2, &[12, 12]), (3, &[8])];

const EMPTY: Pieces<'static> = &[(0, &[1]), (1, &[]), (2, &[7]), (3, &[4])];

// Two windows, and who is blamed.
static BLAMES: [([Pieces<'static>; 2], &[u8]); 4] = [
    ([FIRST, ALTERED], &[3]),
    ([FIRST, SILENT], NONE),
    ([FIRST, LONG], &[2]),
    ([EMPTY, SILENT], &[1]),
];

#[test]
fn rebuilds_in_windows(rt: HostRuntime) {
    for (windows, blamed) in &BLAMES {
        let right = blames(&rt, rt.alloc(), windows, blamed);
        assert!(rt; right == Ok(true), "{blamed:?}");
    }
}

fn refusal(
    rt: &impl Abort,
    alloc: Global,
    windows: &[Pieces],
) -> Result<Option<WindowErr>, NoMemory> {
    Ok(remade(rt, alloc, windows)?.err())
}

#[test]
fn refuses_windows(rt: HostRuntime) {
    let few = refusal(&rt, rt.alloc(), &[FIRST, &[(2, &[12])]]);
    assert!(rt; few == Ok(Some(WindowErr::Few { answered: 1 })));
    let unclear: Pieces = &[(0, &[4]), (1, &[1]), (2, &[12])];
    let unclear = refusal(&rt, rt.alloc(), &[FIRST, unclear]);
    assert!(rt; unclear == Ok(Some(WindowErr::Unclear { stripe: 1 })));
}
