// Stripes of which some answers are altered, decoded beside the plain form, which decodes each column by itself.
use crate::answers::{Spread, altered_answers, sample};
use crate::decoding::{decode_by_columns, decode_by_stripes};
use anyhow::{Result, anyhow};
use sat_base::{Scheme, Share};
use std::time::Instant;

// The cases: how many answers are altered, and the rounds of a timing.
const CASES: [(u8, u32); 3] = [(0, 2000), (5, 400), (25, 400)];

// The rounds of a timing of the plain form.
const PLAIN_ROUNDS: u32 = 4;

// A stripe, and some answers of which it is to be found.
#[derive(Clone, Copy)]
struct Case<'a> {
    scheme: &'a Scheme,
    original: &'a [u8],
    answers: &'a [Share],
}

fn check(rt: &HostRuntime, case: &Case<'_>, altered: u8, name: &str) -> Result<()> {
    let alloc = rt.alloc();
    let found = decode_by_stripes(alloc, case.scheme, case.answers, case.original, 1)?;
    let plain = decode_by_columns(alloc, case.scheme, case.answers, case.original, 1)?;
    let sum = found.sum;
    let blamed = found.blamed;
    let systems = found.systems;
    println!(rt;
        "altered {altered} bytes {name} sum {sum} blamed {blamed} systems {systems} plain {plain}"
    )?;
    Ok(())
}

fn time(rt: &HostRuntime, case: &Case<'_>, rounds: u32) -> Result<()> {
    let alloc = rt.alloc();
    let start = Instant::now(rt)?;
    decode_by_stripes(alloc, case.scheme, case.answers, case.original, rounds)?;
    let spent = start.elapsed(rt)?.as_nanos();
    let start = Instant::now(rt)?;
    decode_by_columns(
        alloc,
        case.scheme,
        case.answers,
        case.original,
        PLAIN_ROUNDS,
    )?;
    let plain_spent = start.elapsed(rt)?.as_nanos();
    let len = case.original.len();
    println!(rt;
        "bytes {len} rounds {rounds} nanoseconds {spent} plain {PLAIN_ROUNDS} nanoseconds {plain_spent}"
    )?;
    Ok(())
}

/// Prints the check sums of each case, and with its time also the stripe's bytes, and in nanoseconds how long the rounds of
/// both forms took.
pub fn run(rt: &HostRuntime, timing: bool) -> Result<()> {
    let alloc = rt.alloc();
    let Ok(scheme) = Scheme::check(29, 35, 80, 110, 256) else {
        return Err(anyhow!("no scheme"));
    };
    let stripe = sample(alloc, usize::from(scheme.k) * usize::from(scheme.share))?;
    let original = stripe.as_slice();
    let spreads = [
        ("every", Spread::EveryByte),
        ("one", Spread::OneByte),
        ("cancelling", Spread::Cancelling),
    ];
    for (name, spread) in spreads {
        for (altered, rounds) in CASES {
            let answers = altered_answers(alloc, &scheme, original, altered, spread)?;
            let case = Case {
                scheme: &scheme,
                original,
                answers: &answers,
            };
            check(rt, &case, altered, name)?;
            if timing {
                time(rt, &case, rounds)?;
            }
        }
    }
    Ok(())
}
