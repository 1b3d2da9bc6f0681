// Pending segments that are committed.
use crate::sample::{pending, place};
use sat_base::{At, NoMemory, Scheme};
use segment_core::{CommitErr, Segment, commit};
use std::alloc::Global;
use std::process::Abort;

// A segment that is committed with these pieces where 110 places are offered and 80 pieces wanted.
fn committed(
    alloc: Global,
    scheme: &Scheme,
    indexes: &[u8],
) -> Result<Result<Segment, CommitErr>, NoMemory> {
    let segment = pending(alloc, scheme.n)?;
    Ok(commit(alloc, &segment, scheme, indexes))
}

fn refused(alloc: Global, scheme: &Scheme, indexes: &[u8]) -> Result<Option<CommitErr>, NoMemory> {
    Ok(committed(alloc, scheme, indexes)?.err())
}

fn scheme(rt: &impl Abort) -> Scheme {
    match Scheme::check(29, 35, 80, 110, 256) {
        Ok(scheme) => scheme,
        Err(_) => panic!(rt; "no scheme"),
    }
}

// The indexes below `count`, falling.
fn falling(alloc: Global, count: u8) -> Result<Vec<u8>, NoMemory> {
    Ok((0..count).rev().collect(alloc)?)
}

#[derive(Clone, Copy, PartialEq, Eq)]
struct Summary {
    version: u64,
    len: u64,
    pieces: usize,
    ends: [Option<At>; 2],
}

fn sum_up(segment: &Segment) -> Summary {
    let pieces = segment.pieces.as_slice();
    Summary {
        version: segment.version,
        len: segment.len,
        pieces: pieces.len(),
        ends: [pieces.first().copied(), pieces.last().copied()],
    }
}

// What is committed with the first 80 pieces.
fn summary_of_80(alloc: Global, scheme: &Scheme) -> Result<Option<Summary>, NoMemory> {
    let indexes = falling(alloc, 80)?;
    Ok(match committed(alloc, scheme, &indexes)? {
        Ok(segment) => Some(sum_up(&segment)),
        Err(_) => None,
    })
}

#[test]
fn commits_the_wanted_pieces(rt: HostRuntime) {
    let want = Summary {
        version: 1,
        len: 7424,
        pieces: 80,
        ends: [Some(place(0)), Some(place(79))],
    };
    assert!(rt; summary_of_80(rt.alloc(), &scheme(&rt)) == Ok(Some(want)));
}

fn refused_79(alloc: Global, scheme: &Scheme) -> Result<Option<CommitErr>, NoMemory> {
    let few = falling(alloc, 79)?;
    refused(alloc, scheme, &few)
}

#[test]
fn refuses_by_the_first_cause(rt: HostRuntime) {
    let alloc = rt.alloc();
    let scheme = scheme(&rt);
    let few = refused_79(alloc, &scheme);
    assert!(rt; few == Ok(Some(CommitErr::TooFew { have: 79, need: 80 })));
    let repeated = refused(alloc, &scheme, &[5, 7, 9, 7, 5]);
    assert!(rt; repeated == Ok(Some(CommitErr::Repeated { index: 7 })));
    let strange = refused(alloc, &scheme, &[5, 5, 110, 111]);
    assert!(rt; strange == Ok(Some(CommitErr::NotOffered { index: 110 })));
}
