// Segments that are rebuilt whole.
use crate::repairs::{NONE, Pieces, plan, shares};
use crate::schemes::scheme;
use bw_decode::Scratch;
use repair_core::{RebuildErr, Rebuilt, rebuild};
use sat_base::{NoMemory, Scheme, Share};
use std::alloc::Global;
use std::process::Abort;
use trial_indexes::{are_in_order, are_rising};

/// Rebuilds a segment of `len` bytes for these targets.
pub fn whole(
    rt: &impl Abort,
    alloc: Global,
    scheme: &Scheme,
    len: u64,
    targets: &[u8],
    pieces: &[Share],
) -> Result<Result<Rebuilt, RebuildErr>, NoMemory> {
    let rise = are_in_order(alloc, pieces, scheme.n)?;
    assert!(rt; rise, "pieces");
    assert!(rt; are_rising(targets, scheme.n), "targets");
    assert!(rt; len <= 1 << 40);
    let plan = plan(alloc, len, &[], targets)?;
    let mut scratch = Scratch::new(alloc, scheme)?;
    Ok(rebuild(alloc, &mut scratch, scheme, &plan, pieces))
}

// Whether these are the shares 4 and 5.
fn are_fresh(fresh: &[Share], fourth: &[u8], fifth: &[u8]) -> bool {
    if fresh.len() != 2 || fresh[0].index != 4 || fresh[1].index != 5 {
        return false;
    }
    fresh[0].bytes.as_slice() == fourth && fresh[1].bytes.as_slice() == fifth
}

fn is_rebuilt(made: &Rebuilt, [bytes, blamed, fourth, fifth]: [&[u8]; 4]) -> bool {
    made.bytes.as_slice() == bytes
        && made.blamed.as_slice() == blamed
        && are_fresh(made.fresh.as_slice(), fourth, fifth)
}

// A segment of `len` bytes, its pieces, and what is made of it: its bytes, the blamed indexes, and the shares 4 and 5.
#[derive(Clone, Copy)]
struct Case {
    name: &'static str,
    len: u64,
    pieces: Pieces<'static>,
    want: [&'static [u8]; 4],
}

// The data 1 and 2 have the shares 1, 2, 7, 4, 13 and 14, and the data 4 and 0 the shares 4, 0, 12, 8, 20 and 16.
static CASES: [Case; 7] = [
    Case {
        name: "just enough",
        len: 2,
        pieces: &[(0, &[1]), (1, &[5])],
        want: [&[1, 5], NONE, &[17], &[21]],
    },
    Case {
        name: "one byte",
        len: 1,
        pieces: &[(0, &[1]), (1, &[0]), (2, &[3])],
        want: [&[1, 0], NONE, &[5], &[4]],
    },
    Case {
        name: "a stripe",
        len: 2,
        pieces: &[(0, &[1]), (1, &[2]), (3, &[4])],
        want: [&[1, 2], NONE, &[13], &[14]],
    },
    Case {
        name: "a byte more",
        len: 3,
        pieces: &[(0, &[1, 4]), (2, &[7, 12])],
        want: [&[1, 2, 4, 0], NONE, &[13, 20], &[14, 16]],
    },
    Case {
        name: "one stripe",
        len: 3,
        pieces: &[(0, &[1, 4]), (1, &[2, 0]), (2, &[7, 12]), (3, &[4, 9])],
        want: [&[1, 2, 4, 0], &[3], &[13, 20], &[14, 16]],
    },
    Case {
        name: "too long",
        len: 2,
        pieces: &[(0, &[1]), (1, &[2]), (2, &[7]), (3, &[4, 4])],
        want: [&[1, 2], &[3], &[13], &[14]],
    },
    Case {
        name: "no segment",
        len: 0,
        pieces: &[(0, &[]), (3, &[])],
        want: [NONE, NONE, NONE, NONE],
    },
];

fn are_rebuilt(
    rt: &impl Abort,
    alloc: Global,
    scheme: &Scheme,
    case: &Case,
) -> Result<bool, NoMemory> {
    let pieces = shares(alloc, case.pieces)?;
    let made = whole(rt, alloc, scheme, case.len, &[4, 5], pieces.as_slice())?;
    Ok(match made {
        Ok(made) => is_rebuilt(&made, case.want),
        Err(_) => false,
    })
}

#[test]
fn rebuilds_whole(rt: HostRuntime) {
    let scheme = scheme(&rt, 2, 2, 3, 6, 1);
    for case in &CASES {
        let right = are_rebuilt(&rt, rt.alloc(), &scheme, case);
        assert!(rt; right == Ok(true), "{}", case.name);
    }
}

const SIX: Pieces<'static> = &[
    (0, &[0]),
    (1, &[0]),
    (2, &[0]),
    (3, &[4]),
    (4, &[13]),
    (5, &[14]),
];

static REFUSED: [(u64, Pieces<'static>, RebuildErr); 4] = [
    (2, &[], RebuildErr::Few { answered: 0 }),
    (2, &[(3, &[4])], RebuildErr::Few { answered: 1 }),
    (2, SIX, RebuildErr::Unclear { stripe: 0 }),
    (
        3,
        &[(0, &[1, 4]), (1, &[2, 1]), (2, &[7, 2])],
        RebuildErr::Unclear { stripe: 1 },
    ),
];

fn refusal(
    rt: &impl Abort,
    alloc: Global,
    scheme: &Scheme,
    len: u64,
    pieces: Pieces,
) -> Result<Option<RebuildErr>, NoMemory> {
    let pieces = shares(alloc, pieces)?;
    Ok(whole(rt, alloc, scheme, len, &[], pieces.as_slice())?.err())
}

#[test]
fn refuses(rt: HostRuntime) {
    let scheme = scheme(&rt, 2, 2, 3, 6, 1);
    for (len, pieces, err) in &REFUSED {
        let refused = refusal(&rt, rt.alloc(), &scheme, *len, pieces);
        assert!(rt; refused == Ok(Some(*err)), "{err:?}");
    }
}
