// As many altered answers as can be, and one more.
ghost use Rattle.std.specs.Prelude.{◌≡◌, ◌<◌, ◌*◌, length, All, IfOk};
ghost use Rattle.bw_decode.specs.Altered.{indexes_of};
ghost use Rattle.bw_decode.specs.Near.{Rises};

use crate::random::Random;
use crate::schemes::scheme;
use crate::stripes::{decode, said_of_both};
use bw_decode::{Nearness, Scratch};
use gf256::mul;
use rs_stripe::encode_share;
use sat_base::{Bytes, NoMemory, Scheme, Share};
use std::alloc::Global;
use std::process::Abort;
use trial_indexes::are_in_order;

// How an answer is altered.
#[derive(Clone, Copy)]
enum Altered<'a> {
    // In each byte.
    Whole,
    // From a column on that is its own, in each byte by its multiple of one byte.
    Multiples(&'a [u8]),
}

// The coefficients of the polynomials, from the lowest power up, whose roots are the base of the first
// combination of columns, and those of all four. Alterations by these multiples cancel there.
const ROOT_AT_FIRST: [u8; 2] = [1, 1];

const ROOTS_AT_ALL: [u8; 5] = [90, 167, 151, 107, 1];

// Alters the whole share, or the bytes from `place` on by multiples of one byte.
fn alter(bytes: &mut [u8], altered: Altered<'_>, place: u8, random: &mut Random) {
    match altered {
        Altered::Whole => {
            for byte in bytes {
                *byte ^= random.byte() | 1;
            }
        }
        Altered::Multiples(factors) => {
            let change = random.byte() | 1;
            for (c, byte) in bytes.iter_mut().enumerate() {
                let factor = factors.get(c.wrapping_sub(usize::from(place)));
                *byte ^= mul(factor.copied().unwrap_or(0), change);
            }
        }
    }
}

fn encoded(alloc: Global, scheme: &Scheme, stripe: &[u8], index: u8) -> Result<Vec<u8>, NoMemory>
    requires stripe { length stripe.now ≡ scheme.now.k * scheme.now.share }
    requires index { index < scheme.now.n }
{
    let mut bytes = Vec::from_elem(alloc, 0, usize::from(scheme.share))?;
    encode_share(scheme, stripe, index, bytes.as_mut_slice());
    Ok(bytes)
}

// 80 answers of a stripe, with each third altered, but at most `most` of them.
fn thirds_altered(
    rt: &impl Abort,
    alloc: Global,
    scheme: &Scheme,
    stripe: &[u8],
    most: u8,
    altered: Altered<'_>,
) -> Result<Vec<Share>, NoMemory>
    requires { length stripe.now ≡ scheme.now.k * scheme.now.share }
{
    let mut random = Random { state: 5 };
    let mut answers = Vec::new(alloc);
    for i in 0..80u8 {
        let index = i + i / 3;
        assert!(rt; index < scheme.n);
        let mut bytes = encoded(alloc, scheme, stripe, index)?;
        if i % 3 == 0 && i / 3 < most {
            alter(bytes.as_mut_slice(), altered, i / 3 * 5, &mut random);
        }
        let bytes = Bytes::of(bytes);
        answers.push(Share { index, bytes })?;
    }
    Ok(answers)
}

// A stripe of random bytes.
fn random_stripe(alloc: Global, scheme: &Scheme) -> Result<Vec<u8>, NoMemory>
    ensures { IfOk result (λ s. length s.items ≡ scheme.now.k * scheme.now.share) }
{
    let len = usize::from(scheme.k) * usize::from(scheme.share);
    let mut stripe = Vec::from_elem(alloc, 0, len)?;
    let mut random = Random { state: 3 };
    for byte in stripe.iter_mut() {
        *byte = random.byte();
    }
    Ok(stripe)
}

// Decodes, and tells the number of systems.
fn decoded(
    alloc: Global,
    scheme: &Scheme,
    answers: &[Share],
    out: &mut [u8],
    blamed: &mut [bool],
) -> Result<(Nearness, u64), NoMemory>
    requires rising { Rises (indexes_of answers.now) }
    requires below { All (λ index. index < scheme.now.n) (indexes_of answers.now) }
    requires out { length out.old ≡ scheme.now.k * scheme.now.share }
    requires blamed { length blamed.old ≡ length answers.now }
{
    let mut scratch = Scratch::new(alloc, scheme)?;
    let found = decode(&mut scratch, scheme, answers, out, blamed);
    Ok((found, scratch.solves()))
}

// Whether each third is marked, up to the 25th.
fn are_thirds(blamed: &[bool; 80]) -> bool {
    let mut same = true;
    for i in 0..80usize {
        same = same && blamed[i] == (i % 3 == 0 && i < 75);
    }
    same
}

// Decodes 80 answers. Tells the number of systems, where each third up to the 25th is blamed.
fn solves(
    alloc: Global,
    scheme: &Scheme,
    answers: &[Share],
    out: &mut [u8],
) -> Result<Option<u64>, NoMemory>
    requires rising { Rises (indexes_of answers.now) }
    requires below { All (λ index. index < scheme.now.n) (indexes_of answers.now) }
    requires out { length out.old ≡ scheme.now.k * scheme.now.share }
    requires all { length answers.now ≡ 80 }
{
    let mut blamed = [false; 80];
    let (found, solves) = decoded(alloc, scheme, answers, out, &mut blamed)?;
    if found == Nearness::Near && are_thirds(&blamed) {
        Ok(Some(solves))
    } else {
        Ok(None)
    }
}

// The number of systems, where the stripe is found, and the 25 of 80 answers that are altered.
fn solved(
    rt: &impl Abort,
    alloc: Global,
    scheme: &Scheme,
    bytes: &[u8],
    answers: &[Share],
) -> Result<Option<u64>, NoMemory>
    requires { length bytes.now ≡ scheme.now.k * scheme.now.share }
{
    let rise = are_in_order(alloc, answers, scheme.n)?;
    assert!(rt; rise && answers.len() == 80);
    let mut out = Vec::from_elem(alloc, 0, bytes.len())?;
    let solves = solves(alloc, scheme, answers, out.as_mut_slice())?;
    assert!(rt; out.as_slice() == bytes);
    Ok(solves)
}

// The number of systems where 25 of 80 answers are altered.
fn systems_solved(
    rt: &impl Abort,
    alloc: Global,
    scheme: &Scheme,
    altered: Altered<'_>,
) -> Result<Option<u64>, NoMemory> {
    let bytes = random_stripe(alloc, scheme)?;
    let answers = thirds_altered(rt, alloc, scheme, bytes.as_slice(), 25, altered)?;
    solved(rt, alloc, scheme, bytes.as_slice(), answers.as_slice())
}

#[test]
fn all_errors_that_can_be(rt: HostRuntime) {
    let scheme = scheme(&rt, 29, 35, 80, 110, 256);
    let whole = systems_solved(&rt, rt.alloc(), &scheme, Altered::Whole);
    assert!(rt; whole == Ok(Some(1)));
    let single = systems_solved(&rt, rt.alloc(), &scheme, Altered::Multiples(&[1]));
    assert!(rt; single == Ok(Some(1)));
}

#[test]
fn alterations_that_cancel(rt: HostRuntime) {
    let scheme = scheme(&rt, 29, 35, 80, 110, 256);
    let at_first = Altered::Multiples(&ROOT_AT_FIRST);
    assert!(rt; systems_solved(&rt, rt.alloc(), &scheme, at_first) == Ok(Some(1)));
    let at_all = Altered::Multiples(&ROOTS_AT_ALL);
    assert!(rt; systems_solved(&rt, rt.alloc(), &scheme, at_all) == Ok(Some(25)));
}

// What is said where 26 of 80 answers are altered.
fn said_of_26(rt: &impl Abort, alloc: Global, scheme: &Scheme) -> Result<Nearness, NoMemory> {
    let bytes = random_stripe(alloc, scheme)?;
    let answers = thirds_altered(rt, alloc, scheme, bytes.as_slice(), 26, Altered::Whole)?;
    said_of_both(rt, alloc, scheme, answers.as_slice())
}

#[test]
fn one_error_too_many(rt: HostRuntime) {
    let scheme = scheme(&rt, 29, 35, 80, 110, 3);
    let said = said_of_26(&rt, rt.alloc(), &scheme);
    assert!(rt; said == Ok(Nearness::Unclear));
}
