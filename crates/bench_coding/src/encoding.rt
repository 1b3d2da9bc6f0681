// The parity pieces of segments.
ghost use Rattle.std.specs.Prelude.{◌≡◌, ◌*◌, ◌≤◌, ◌^◌, length};

use anyhow::{Result, bail};
use rs_stripe::{Encoder, encode_piece, encode_pieces};
use sat_base::{Bytes, Scheme};
use std::alloc::{AllocError, Global};
use std::time::{Clock, Instant};

// The cases: the bytes of a share, the stripes of the segment, and the rounds of a turn.
const CASES: [(u64, u64, u64); 3] = [(256, 1, 200), (256, 256, 2), (1024, 64, 2)];

const TURNS: usize = 5;

// How the parity pieces are made.
#[derive(Clone, Copy, PartialEq, Eq)]
enum Way {
    // Each by itself.
    Single,
    // All by one call.
    Together,
    // The shares of a lone stripe, by an encoder that was made before.
    Kept,
}

// What is encoded.
#[derive(Drop)]
struct Work {
    scheme: Scheme,
    segment: Vec<u8>,
    parity: Vec<u8>,
}

// The bytes that the other encoder uses too.
fn sample(alloc: Global, len: u64) -> Result<Vec<u8>, AllocError> {
    let mut bytes = Vec::new(alloc);
    let mut state = 1u32;
    for _ in 0..len {
        state = state.wrapping_mul(1664525).wrapping_add(1013904223);
        bytes.push((state >> 24) as u8)?;
    }
    Ok(bytes)
}

fn begin(alloc: Global, share: u64, stripes: u64) -> Result<Work> {
    let Ok(scheme) = Scheme::check(29, 35, 80, 110, share) else {
        bail!("no scheme");
    };
    let len = share.wrapping_mul(stripes).wrapping_mul(29);
    Ok(Work {
        scheme,
        segment: sample(alloc, len)?,
        parity: (scheme.k..scheme.n).collect(alloc)?,
    })
}

// The sum of all bytes.
fn sum_of(pieces: &[Bytes]) -> u64 {
    let mut sum = 0u64;
    for piece in pieces {
        for byte in piece.as_slice() {
            sum = sum.wrapping_add(u64::from(*byte));
        }
    }
    sum
}

fn single(alloc: Global, work: &Work) -> Result<Vec<Bytes>> {
    let segment = work.segment.as_slice();
    let mut pieces = Vec::new(alloc);
    for index in work.scheme.k..work.scheme.n {
        if segment.len() > 1 << 40 {
            bail!("the segment is too long");
        }
        match encode_piece(alloc, &work.scheme, segment, index) {
            Ok(piece) => pieces.push(piece)?,
            Err(_) => bail!("out of memory"),
        }
    }
    Ok(pieces)
}

fn together(alloc: Global, work: &Work) -> Result<Vec<Bytes>> {
    let segment = work.segment.as_slice();
    if segment.len() > 1 << 40 {
        bail!("the segment is too long");
    }
    match encode_pieces(alloc, &work.scheme, segment, work.parity.as_slice()) {
        Ok(pieces) => Ok(pieces),
        Err(_) => bail!("out of memory"),
    }
}

// Writes so many shares of the stripe, one after another.
fn write_shares(encoder: &mut Encoder, stripe: &[u8], count: usize, shares: &mut [u8])
    requires stripe { length stripe.now ≤ encoder.old.k * encoder.old.size }
    requires count { count ≤ length encoder.old.indexes }
    ensures k { encoder.new.k ≡ encoder.old.k }
    ensures size { encoder.new.size ≡ encoder.old.size }
    ensures indexes { encoder.new.indexes ≡ encoder.old.indexes }
{
    encoder.hold(stripe);
    let size = encoder.size();
    for place in 0..count {
        let start = place.wrapping_mul(size);
        if start <= shares.len() && shares.len() - start >= size {
            encoder.write_share(place, &mut shares[start..start + size]);
        }
    }
}

// The shares of the stripe, one after another, and the nanoseconds of so many rounds.
fn kept(clock: &impl Clock, alloc: Global, work: &Work, rounds: u64) -> Result<(Vec<Bytes>, u128)> {
    let stripe = work.segment.as_slice();
    if stripe.len() > usize::from(work.scheme.k) * usize::from(work.scheme.share) {
        bail!("more than a stripe");
    }
    let count = work.parity.len();
    let Ok(mut encoder) = Encoder::new(alloc, &work.scheme, work.parity.as_slice()) else {
        bail!("out of memory");
    };
    let mut shares = Vec::from_elem(alloc, 0, count.saturating_mul(encoder.size()))?;
    let start = Instant::now(clock)?;
    'rounds: for _ in 0..rounds {
        write_shares(&mut encoder, stripe, count, shares.as_mut_slice());
    }
    let spent = start.elapsed(clock)?.as_nanos();
    let mut pieces = Vec::new(alloc);
    pieces.push(Bytes::of(shares))?;
    Ok((pieces, spent))
}

// What a way makes, and the nanoseconds of so many rounds, of which there is at least one.
fn turn(
    clock: &impl Clock,
    alloc: Global,
    work: &Work,
    way: Way,
    rounds: u64,
) -> Result<(u64, u128)> {
    if way == Way::Kept {
        let (pieces, spent) = kept(clock, alloc, work, rounds)?;
        return Ok((sum_of(pieces.as_slice()), spent));
    }
    let mut pieces = Vec::new(alloc);
    let start = Instant::now(clock)?;
    for _ in 0..rounds {
        pieces = if way == Way::Single {
            single(alloc, work)?
        } else {
            together(alloc, work)?
        };
    }
    let spent = start.elapsed(clock)?.as_nanos();
    Ok((sum_of(pieces.as_slice()), spent))
}

// The least nanoseconds of each way, of which the first so many are tried in turns. All make the same bytes.
fn best_of(
    clock: &impl Clock,
    alloc: Global,
    work: &Work,
    count: usize,
    turns: usize,
    rounds: u64,
) -> Result<(u64, [u128; 3])> {
    let ways = [Way::Single, Way::Together, Way::Kept];
    let (sum, _) = turn(clock, alloc, work, Way::Single, 1)?;
    let mut best = [u128::MAX; 3];
    for _ in 0..turns {
        for (way, least) in ways.iter().zip(best.iter_mut()).take(count) {
            let (same, spent) = turn(clock, alloc, work, *way, rounds)?;
            if same != sum {
                bail!("the check sums differ");
            }
            *least = spent.min(*least);
        }
    }
    Ok((sum, best))
}

/// Prints the check sum of each case, and with its time also the input's bytes, and in nanoseconds how long its rounds took.
pub fn run(rt: &HostRuntime, timing: bool) -> Result<()> {
    let alloc = rt.alloc();
    for (share, stripes, rounds) in CASES {
        let work = begin(alloc, share, stripes)?;
        let count = if stripes == 1 { 3 } else { 2 };
        let (turns, rounds) = if timing { (TURNS, rounds) } else { (1, 1) };
        let (sum, best) = best_of(rt, alloc, &work, count, turns, rounds)?;
        println!(rt; "share {share} stripes {stripes} sum {sum}")?;
        if timing {
            let bytes = work.segment.len();
            let [single, together, kept] = best;
            print!(rt; "bytes {bytes} rounds {rounds} single {single} together {together}")?;
            if count == 3 {
                print!(rt; " kept {kept}")?;
            }
            println!(rt)?;
        }
    }
    Ok(())
}
