//! What one call of a book costs over a keeper that keeps nothing (`bench/machine`), and what a placement does.
//!
//! Without words it asks a small store a few calls of each kind, and prints how many of them were accepted and the
//! check sums of the replies. With the words `time SEGMENTS ROWS NODES` it opens a store of that many live segments, with
//! 80 pieces each, but one in a hundred with 30, and that many settled rows, at so many nodes. It prints in nanoseconds how
//! long the opening took, and of 200 calls of each kind the least time, the one in the middle and the most; what it
//! takes to disqualify a node, with the call behind it, which counts the node's pieces as lost; and the same of 25 hours
//! that are tallied, of the close of five months, the first of which has all settled rows, and of 200 statements. With the
//! word `place` it prints how long placements take.
#![tactic(auto)]

mod calls;
mod dropping;
mod fold;
mod made;
mod months;
mod placing;
mod runs;
mod upkeep;

use anyhow::{Result, bail};
use made::Size;
use std::env;

// The store of the run without words.
const SMALL: Size = Size {
    segments: 100,
    rows: 50,
    nodes: 200,
    calls: 5,
};

// The calls of each kind that are timed.
const CALLS: u64 = 200;

fn run(rt: &HostRuntime, words: &[&str]) -> Result<()> {
    match words {
        [] => {
            runs::check(rt, SMALL)?;
            placing::run(rt, false)
        }
        ["place"] => placing::run(rt, true),
        ["time", segments, rows, nodes] => {
            let size = Size {
                segments: segments.parse::<u64>()?,
                rows: rows.parse::<u64>()?,
                nodes: nodes.parse::<u64>()?,
                calls: CALLS,
            };
            runs::time(rt, size)
        }
        _ => bail!("place, or time SEGMENTS ROWS NODES"),
    }
}

fn main(rt: HostRuntime) -> Result<()> {
    let alloc = rt.alloc();
    let words: Vec<String> = env::args(&rt)?.skip(1).collect(alloc)?;
    let words: Vec<&str> = words.iter().map(|word| word.as_str()).collect(alloc)?;
    run(&rt, &words)
}
