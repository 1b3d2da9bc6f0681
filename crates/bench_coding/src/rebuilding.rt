// The pieces of a segment, rebuilt in windows of 64 stripes.
ghost use Rattle.std.specs.Prelude.{◌≡◌, ◌≤◌, IfOk};
ghost use Rattle.repair_core.specs.Indexes.{place_indexes};
ghost use Rattle.repair_core.specs.Kept.{IsKept};

use anyhow::{Result, anyhow, bail};
use bw_decode::Scratch;
use repair_core::{Rebuilder, Remade, RepairPlan};
use rs_stripe::encode_piece;
use sat_base::{At, Items, Moment, NodeId, Scheme, SegId, Serial, Share};
use std::alloc::{AllocError, Global};
use std::time::{Clock, Instant};
use trial_indexes::{are_among, are_rising, indexes_in};

// The stripes of a window, and of a segment: a short one, and one whose pieces have 4 MiB.
const WINDOW: u64 = 64;

const SHORT: u64 = 150;

const LONGEST: u64 = 16384;

const STRIPE: usize = 7424;

// How many sources there are, how many targets, and how many sources are altered.
#[derive(Clone, Copy)]
struct Case {
    sources: u8,
    targets: u8,
    altered: u8,
}

const CASES: [Case; 3] = [
    Case {
        sources: 80,
        targets: 5,
        altered: 0,
    },
    Case {
        sources: 80,
        targets: 5,
        altered: 5,
    },
    Case {
        sources: 35,
        targets: 45,
        altered: 0,
    },
];

// So many indexes, from one on.
fn indexes(alloc: Global, from: u8, count: u8) -> Result<Vec<u8>, AllocError> {
    let mut indexes = Vec::new(alloc);
    for k in 0..count {
        indexes.push(k.saturating_add(from))?;
    }
    Ok(indexes)
}

// Places of these indexes.
fn places(alloc: Global, indexes: &[u8]) -> Result<Items<At>, AllocError>
    ensures { IfOk result (λ places. place_indexes places ≡ indexes.now) }
{
    let mut places = Vec::new(alloc);
    for index in indexes {
        places.push(At {
            index: *index,
            node: NodeId(7),
        })?;
    }
    Ok(Items::of(places))
}

// Bytes that another program can make too.
fn sample(alloc: Global, seed: u64, len: usize) -> Result<Vec<u8>, AllocError> {
    let mut bytes = Vec::with_capacity(alloc, len)?;
    let mut state = (seed % 65536) as u32;
    for _ in 0..len {
        state = state.wrapping_mul(1664525).wrapping_add(1013904223);
        bytes.push((state >> 24) as u8)?;
    }
    Ok(bytes)
}

// The sources' shares of stripes. Of those below `altered` one byte of each share is changed.
fn shares(
    alloc: Global,
    scheme: &Scheme,
    sources: &[u8],
    stripes: &[u8],
    altered: u8,
) -> Result<Vec<Share>> {
    let mut shares = Vec::new(alloc);
    for index in sources {
        if *index >= scheme.n || stripes.len() > 1 << 40 {
            bail!("no such share");
        }
        let Ok(bytes) = encode_piece(alloc, scheme, stripes, *index) else {
            bail!("out of memory");
        };
        let mut bytes = bytes.into_vec();
        for i in 0..bytes.len() {
            if *index < altered && i % 256 == 7 {
                bytes[i] ^= 1;
            }
        }
        shares.push(Share {
            index: *index,
            bytes: Items::of(bytes),
        })?;
    }
    Ok(shares)
}

// What the windows have in common.
#[derive(Drop)]
struct Repair<'a> {
    scheme: Scheme,
    sources: &'a [u8],
    count: u64,
}

fn begin(alloc: Global, repair: &Repair, targets: &[u8]) -> Result<Rebuilder>
    ensures { IfOk result (λ rebuilder. IsKept repair.now.scheme.k repair.now.scheme.share repair.now.scheme.n
        repair.now.count repair.now.sources.now rebuilder) }
{
    let len = repair.count.saturating_mul(STRIPE as u64);
    if len > 1 << 40 || repair.scheme.stripes(len) != repair.count {
        bail!("the segment is too long");
    }
    if !are_rising(repair.sources, repair.scheme.n) || !are_rising(targets, repair.scheme.n) {
        bail!("no such pieces");
    }
    let plan = RepairPlan {
        plan: 1,
        segment: SegId(1),
        version: 1,
        serial: Serial(1),
        issued: Moment::of(1),
        len,
        sources: places(alloc, repair.sources)?,
        targets: places(alloc, targets)?,
    };
    match Rebuilder::new(alloc, &repair.scheme, &plan, WINDOW) {
        Ok(rebuilder) => Ok(rebuilder),
        Err(_) => bail!("out of memory"),
    }
}

fn next(
    alloc: Global,
    repair: &Repair,
    rebuilder: Rebuilder,
    scratch: &mut Scratch,
    shares: &[Share],
) -> Result<Rebuilder>
    requires room { repair.now.scheme.n ≤ scratch.old.points }
    requires kept { IsKept repair.now.scheme.k repair.now.scheme.share repair.now.scheme.n repair.now.count repair.now.sources.now rebuilder }
    ensures kept { IfOk result (IsKept repair.now.scheme.k repair.now.scheme.share repair.now.scheme.n
        repair.now.count repair.now.sources.now) }
    ensures points { scratch.new.points ≡ scratch.old.points }
{
    let indexes = indexes_in(alloc, shares)?;
    if !are_rising(indexes.as_slice(), repair.scheme.n)
        || !are_among(indexes.as_slice(), repair.sources)
        || rebuilder.done() >= repair.count
    {
        bail!("no such window");
    }
    match rebuilder.window(scratch, &repair.scheme, shares) {
        Ok(rebuilder) => Ok(rebuilder),
        Err(err) => Err(anyhow!("refused: {err:?}")),
    }
}

// The FNV-1a sum of the indexes that are blamed and of the fresh pieces.
fn sum_of(made: &Remade) -> u64 {
    let mut sum = 0xcbf2_9ce4_8422_2325u64;
    for index in made.blamed.as_slice() {
        sum = (sum ^ u64::from(*index)).wrapping_mul(0x0100_0000_01b3);
    }
    for piece in made.fresh.as_slice() {
        for byte in piece.bytes.as_slice() {
            sum = (sum ^ u64::from(*byte)).wrapping_mul(0x0100_0000_01b3);
        }
    }
    sum
}

// The check sum of a case, and the nanoseconds of its windows.
fn rebuild(clock: &impl Clock, alloc: Global, case: Case, count: u64) -> Result<(u64, u128)> {
    let Ok(scheme) = Scheme::check(29, 35, 80, 110, 256) else {
        bail!("no scheme");
    };
    let sources = indexes(alloc, 0, case.sources)?;
    let targets = indexes(alloc, case.sources, case.targets)?;
    let repair = Repair {
        scheme,
        sources: sources.as_slice(),
        count,
    };
    let Ok(mut scratch) = Scratch::new(alloc, &scheme) else {
        bail!("out of memory");
    };
    let mut rebuilder = begin(alloc, &repair, targets.as_slice())?;
    let mut spent = 0u128;
    'windows: for number in 0..count.div_ceil(WINDOW) {
        let stripes = WINDOW.min(count.saturating_sub(rebuilder.done()));
        let bytes = sample(alloc, number, stripes as usize * STRIPE)?;
        let shares = shares(
            alloc,
            &scheme,
            sources.as_slice(),
            bytes.as_slice(),
            case.altered,
        )?;
        let start = Instant::now(clock)?;
        rebuilder = next(alloc, &repair, rebuilder, &mut scratch, shares.as_slice())?;
        spent = spent.saturating_add(start.elapsed(clock)?.as_nanos());
    }
    if rebuilder.done() != count {
        bail!("a window is left");
    }
    Ok((sum_of(&rebuilder.finish()), spent))
}

// Prints the check sum of a case, and the nanoseconds of its windows where the segment is the longest.
fn tell(rt: &HostRuntime, case: Case, count: u64) -> Result<()> {
    let (sum, spent) = rebuild(rt, rt.alloc(), case, count)?;
    println!(rt;
        "sources {} targets {} altered {} sum {sum}",
        case.sources, case.targets, case.altered
    )?;
    if count == LONGEST {
        println!(rt; "piece {} nanoseconds {spent}", count * 256)?;
    }
    Ok(())
}

/// Prints the check sum of each case over a short segment.
pub fn check(rt: &HostRuntime) -> Result<()> {
    for case in CASES {
        tell(rt, case, SHORT)?;
    }
    Ok(())
}

/// Rebuilds a segment whose pieces have 4 MiB, in the case of this number.
pub fn time(rt: &HostRuntime, number: usize) -> Result<()> {
    match CASES.get(number) {
        Some(case) => tell(rt, *case, LONGEST),
        None => bail!("no such case"),
    }
}
