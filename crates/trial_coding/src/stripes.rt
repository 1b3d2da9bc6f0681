// Stripes beside the decoding of each of their columns by itself.
ghost use Rattle.std.specs.Prelude.{◌≡◌, ◌≤◌, ◌<◌, ◌*◌, length, All};
ghost use Rattle.bw_decode.specs.Altered.{indexes_of};
ghost use Rattle.bw_decode.specs.Near.{Rises};

use crate::plain::decode_columns;
use crate::random::Random;
use crate::schemes::scheme;
use bw_decode::stripe::stripe;
use bw_decode::{Nearness, Scratch};
use rs_stripe::encode_share;
use sat_base::{Bytes, NoMemory, Scheme, Share};
use std::alloc::Global;
use std::process::Abort;
use trial_indexes::{are_rising, indexes_in};

// How many of 256 answers are given, are altered, and of these, have another length.
#[derive(Clone, Copy)]
struct Rates {
    given: u8,
    altered: u8,
    cut: u8,
}

// Changes about half of the bytes.
fn alter(bytes: &mut [u8], random: &mut Random) {
    for byte in bytes {
        if random.byte() < 128 {
            *byte ^= random.byte();
        }
    }
}

// An answer, altered or not.
fn random_answer(
    alloc: Global,
    scheme: &Scheme,
    stripe: &[u8],
    index: u8,
    rates: Rates,
    random: &mut Random,
) -> Result<Share, NoMemory>
    requires stripe { length stripe.now ≡ scheme.now.k * scheme.now.share }
    requires index { index < scheme.now.n }
{
    let mut bytes = Vec::from_elem(alloc, 0, usize::from(scheme.share))?;
    encode_share(scheme, stripe, index, bytes.as_mut_slice());
    if random.byte() < rates.altered {
        alter(bytes.as_mut_slice(), random);
        if random.byte() < rates.cut {
            bytes.push(0)?;
        }
    }
    let bytes = Bytes::of(bytes);
    Ok(Share { index, bytes })
}

fn random_answers(
    alloc: Global,
    scheme: &Scheme,
    stripe: &[u8],
    rates: Rates,
    random: &mut Random,
) -> Result<Vec<Share>, NoMemory>
    requires { length stripe.now ≡ scheme.now.k * scheme.now.share }
{
    let mut answers = Vec::new(alloc);
    for index in 0..scheme.n {
        if random.byte() <= rates.given {
            answers.push(random_answer(alloc, scheme, stripe, index, rates, random)?)?;
        }
    }
    Ok(answers)
}

/// The decoding, which tells only what it says.
pub fn decode(
    scratch: &mut Scratch,
    scheme: &Scheme,
    answers: &[Share],
    out: &mut [u8],
    blamed: &mut [bool],
) -> Nearness
    requires room { scheme.now.n ≤ scratch.old.points }
    requires rising { Rises (indexes_of answers.now) }
    requires below { All (λ index. index < scheme.now.n) (indexes_of answers.now) }
    requires out { length out.old ≡ scheme.now.k * scheme.now.share }
    requires blamed { length blamed.old ≡ length answers.now }
    ensures { scratch.new.points ≡ scratch.old.points }
{
    stripe(scratch, scheme, answers, out, blamed)
}

// What a decoding says, and what it writes of at most 128 bytes and marks.
#[derive(Clone, Copy, PartialEq, Eq)]
struct Said {
    found: Nearness,
    out: [u8; 128],
    blamed: [bool; 128],
}

fn decoded(scratch: &mut Scratch, scheme: &Scheme, answers: &[Share]) -> Said
    requires room { scheme.now.n ≤ scratch.old.points }
    requires rising { Rises (indexes_of answers.now) }
    requires below { All (λ index. index < scheme.now.n) (indexes_of answers.now) }
    requires few { length answers.now ≤ 128 }
    requires small { scheme.now.k * scheme.now.share ≤ 128 }
    ensures { scratch.new.points ≡ scratch.old.points }
{
    let len = usize::from(scheme.k) * usize::from(scheme.share);
    let (mut out, mut blamed) = ([0; 128], [false; 128]);
    let marks = &mut blamed[..answers.len()];
    let found = decode(scratch, scheme, answers, &mut out[..len], marks);
    Said { found, out, blamed }
}

fn decoded_by_columns(
    rt: &impl Abort,
    scratch: &mut Scratch,
    scheme: &Scheme,
    answers: &[Share],
    points: &[u8],
) -> Said
    requires room { length points.now ≤ scratch.old.points }
    requires rising { Rises points.now }
    requires below { All (λ index. index < scheme.now.n) points.now }
    requires answers { length answers.now ≡ length points.now }
    requires few { length answers.now ≤ 128 }
    requires small { scheme.now.k * scheme.now.share ≤ 128 }
{
    let len = usize::from(scheme.k) * usize::from(scheme.share);
    let (mut out, mut blamed) = ([0; 128], [false; 128]);
    let marks = &mut blamed[..answers.len()];
    let found = decode_columns(rt, scratch, scheme, answers, points, &mut out[..len], marks);
    Said { found, out, blamed }
}

// Both decodings say the same of the answers. It tells what they say.
fn said_alike(
    rt: &impl Abort,
    scratch: &mut Scratch,
    scheme: &Scheme,
    answers: &[Share],
    points: &[u8],
) -> Nearness
    requires room { scheme.now.n ≤ scratch.old.points }
    requires rising { Rises (indexes_of answers.now) }
    requires below { All (λ index. index < scheme.now.n) (indexes_of answers.now) }
    requires points { points.now ≡ indexes_of answers.now }
    requires few { length answers.now ≤ scheme.now.n }
    requires small { scheme.now.k * scheme.now.share ≤ 128 }
{
    let one = decoded(scratch, scheme, answers);
    let other = decoded_by_columns(rt, scratch, scheme, answers, points);
    let same = one.found == other.found && (one.found == Nearness::Unclear || one == other);
    assert!(rt; same);
    one.found
}

/// The same, where the shares rise.
pub fn said_of_both(
    rt: &impl Abort,
    alloc: Global,
    scheme: &Scheme,
    answers: &[Share],
) -> Result<Nearness, NoMemory> {
    assert!(rt; answers.len() <= usize::from(scheme.n));
    assert!(rt; usize::from(scheme.k) * usize::from(scheme.share) <= 128);
    let points = indexes_in(alloc, answers)?;
    assert!(rt; are_rising(points.as_slice(), scheme.n));
    let mut scratch = Scratch::new(alloc, scheme)?;
    Ok(said_alike(rt, &mut scratch, scheme, answers, points.as_slice()))
}

fn random_bytes(random: &mut Random) -> [u8; 20] {
    let mut bytes = [0; 20];
    for byte in bytes.iter_mut() {
        *byte = random.byte();
    }
    bytes
}

// What is said of random answers of a random stripe.
fn said_of_random(
    rt: &impl Abort,
    alloc: Global,
    scheme: &Scheme,
    random: &mut Random,
) -> Result<Nearness, NoMemory> {
    let bytes = random_bytes(random);
    let rates = Rates {
        given: random.byte(),
        altered: random.byte() / 2,
        cut: 64,
    };
    assert!(rt; bytes.len() == usize::from(scheme.k) * usize::from(scheme.share));
    let answers = random_answers(alloc, scheme, &bytes, rates, random)?;
    said_of_both(rt, alloc, scheme, answers.as_slice())
}

// How many of 120 random stripes are near.
fn near_stripes(rt: &impl Abort, alloc: Global) -> Result<u32, NoMemory> {
    let scheme = scheme(rt, 4, 4, 5, 12, 5);
    let mut random = Random { state: 1 };
    let mut near = 0u32;
    for _ in 0..120 {
        if said_of_random(rt, alloc, &scheme, &mut random)? == Nearness::Near {
            near = near.saturating_add(1);
        }
    }
    Ok(near)
}

#[test]
fn stripes_as_their_columns(rt: HostRuntime) {
    let near = near_stripes(&rt, rt.alloc());
    assert!(rt; matches!(near, Ok(21..=99)));
}
