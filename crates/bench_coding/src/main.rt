//! Parity pieces made, stripes decoded and pieces rebuilt, to be timed.
//!
//! Without words it prints the check sums of all cases. With words, beside check sums and in nanoseconds:
//!
//! - `encode`: the parity pieces of segments, beside another encoder over the same bytes (`bench/coding`).
//! - `decode`: stripes of which some answers are altered, beside the decoding of each column by itself (`bench/decoding`).
//! - `rebuild NUMBER`: in the case of this number, the pieces of a segment whose pieces have 4 MiB, by windows of 64 stripes,
//!   under 29 of 110 shares of 256 bytes (`bench/rebuilding`).
#![tactic(auto)]

mod answers;
mod decoding;
mod decodings;
mod encoding;
mod rebuilding;

use anyhow::{Result, bail};
use std::env;

fn run(rt: &HostRuntime, words: &[&str]) -> Result<()> {
    match words {
        [] => {
            encoding::run(rt, false)?;
            decodings::run(rt, false)?;
            rebuilding::check(rt)
        }
        ["encode"] => encoding::run(rt, true),
        ["decode"] => decodings::run(rt, true),
        ["rebuild", number] => rebuilding::time(rt, number.parse::<usize>()?),
        _ => bail!("encode, decode, or rebuild NUMBER"),
    }
}

fn main(rt: HostRuntime) -> Result<()> {
    let alloc = rt.alloc();
    let words: Vec<String> = env::args(&rt)?.skip(1).collect(alloc)?;
    let words: Vec<&str> = words.iter().map(|word| word.as_str()).collect(alloc)?;
    run(&rt, &words)
}
