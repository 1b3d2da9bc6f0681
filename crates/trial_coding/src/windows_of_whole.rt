// Windows that are cut from whole pieces, beside these.
ghost use Rattle.std.specs.Prelude.{◌≡◌, ◌≤◌, ◌^◌, IfOk};
ghost use Rattle.sat_base.specs.Scheme.{stripe_count};
ghost use Rattle.repair_core.specs.Kept.{IsKept};

use crate::schemes::scheme;
use crate::whole::whole;
use crate::windows::{Repair, begin, next};
use bw_decode::Scratch;
use repair_core::{RebuildErr, Rebuilder, Rebuilt, Remade, WindowErr};
use rs_stripe::encode_piece;
use sat_base::{Items, NoMemory, Scheme, Share};
use std::alloc::Global;
use std::process::Abort;

// What stands in the pieces from byte `from` up to byte `to`.
fn cut(alloc: Global, pieces: &[Share], from: usize, to: usize) -> Result<Vec<Share>, NoMemory> {
    let mut shares = Vec::new(alloc);
    for piece in pieces {
        let bytes = piece.bytes.as_slice();
        let end = to.min(bytes.len());
        let bytes = Items::of(Vec::from_slice(alloc, &bytes[from.min(end)..end])?);
        shares.push(Share {
            index: piece.index,
            bytes,
        })?;
    }
    Ok(shares)
}

// The next window of so many stripes.
fn next_cut(
    rt: &impl Abort,
    alloc: Global,
    repair: &Repair,
    rebuilder: Rebuilder,
    scratch: &mut Scratch,
    window: u64,
    pieces: &[Share],
) -> Result<Result<Rebuilder, WindowErr>, NoMemory>
    requires room { repair.now.scheme.n ≤ scratch.old.points }
    requires kept { IsKept repair.now.scheme.k repair.now.scheme.share repair.now.scheme.n repair.now.count repair.now.sources.now rebuilder }
    ensures kept { IfOk result (λ next. IfOk next (IsKept repair.now.scheme.k repair.now.scheme.share repair.now.scheme.n
        repair.now.count repair.now.sources.now)) }
    ensures points { scratch.new.points ≡ scratch.old.points }
{
    let size = usize::from(repair.scheme.share);
    let from = (rebuilder.done() as usize).saturating_mul(size);
    let to = (window as usize).saturating_mul(size).saturating_add(from);
    let shares = cut(alloc, pieces, from, to)?;
    next(rt, alloc, repair, rebuilder, scratch, shares.as_slice())
}

// Rebuilds in windows of so many stripes that are cut from whole pieces.
fn in_windows(
    rt: &impl Abort,
    alloc: Global,
    scratch: &mut Scratch,
    repair: &Repair,
    len: u64,
    window: u64,
    pieces: &[Share],
) -> Result<Result<Remade, WindowErr>, NoMemory>
    requires room { repair.now.scheme.n ≤ scratch.old.points }
    requires len { len ≤ 2 ^ 40 }
    requires count { repair.now.count ≡ stripe_count repair.now.scheme.k repair.now.scheme.share len }
    ensures { scratch.new.points ≡ scratch.old.points }
{
    let mut rebuilder = begin(rt, alloc, repair, len, window)?;
    'windows: for _ in 0..repair.count {
        if rebuilder.done() == repair.count {
            break;
        }
        match next_cut(rt, alloc, repair, rebuilder, scratch, window, pieces)? {
            Ok(next) => rebuilder = next,
            Err(err) => return Ok(Err(err)),
        }
    }
    assert!(rt; rebuilder.done() == repair.count, "a window is left");
    Ok(Ok(rebuilder.finish()))
}

// The pieces of a segment with these indexes, of which one has a byte of each altered stripe changed.
fn spoilt_pieces(
    rt: &impl Abort,
    alloc: Global,
    scheme: &Scheme,
    segment: &[u8],
    sources: &[u8],
    spoilt: &[(u8, usize)],
) -> Result<Vec<Share>, NoMemory> {
    let mut pieces = Vec::new(alloc);
    for index in sources {
        assert!(rt; *index < scheme.n && segment.len() <= 1 << 40);
        let mut bytes = encode_piece(alloc, scheme, segment, *index)?.into_vec();
        for (own, place) in spoilt {
            if own == index && *place < bytes.len() {
                bytes[*place] ^= 1;
            }
        }
        pieces.push(Share {
            index: *index,
            bytes: Items::of(bytes),
        })?;
    }
    Ok(pieces)
}

// Whether both made the same, or ended at stripe 4.
fn are_same(made: &Result<Rebuilt, RebuildErr>, remade: &Result<Remade, WindowErr>) -> bool {
    match (made, remade) {
        (Ok(made), Ok(remade)) => {
            let (one, other) = (made.fresh.as_slice(), remade.fresh.as_slice());
            if one.len() != 1 || other.len() != 1 {
                return false;
            }
            made.blamed.as_slice() == remade.blamed.as_slice()
                && one[0].bytes.as_slice() == other[0].bytes.as_slice()
        }
        (Err(RebuildErr::Unclear { stripe }), Err(WindowErr::Unclear { stripe: other })) => {
            *stripe == 4 && *other == 4
        }
        _ => false,
    }
}

// Whether the windows of each length end as the whole does.
fn agree(
    rt: &impl Abort,
    alloc: Global,
    scratch: &mut Scratch,
    repair: &Repair,
    pieces: &[Share],
    made: &Result<Rebuilt, RebuildErr>,
) -> Result<bool, NoMemory>
    requires room { repair.now.scheme.n ≤ scratch.old.points }
    requires count { repair.now.count ≡ stripe_count repair.now.scheme.k repair.now.scheme.share 41 }
{
    let one = in_windows(rt, alloc, scratch, repair, 41, 1, pieces)?;
    let mut same = are_same(made, &one);
    let two = in_windows(rt, alloc, scratch, repair, 41, 2, pieces)?;
    same = same && are_same(made, &two);
    let all = in_windows(rt, alloc, scratch, repair, 41, 64, pieces)?;
    Ok(same && are_same(made, &all))
}

// Whether pieces of the segment that are spoilt like this are rebuilt alike.
fn spoilt_agree(
    rt: &impl Abort,
    alloc: Global,
    repair: &Repair,
    segment: &[u8; 41],
    spoilt: &[(u8, usize)],
) -> Result<bool, NoMemory>
    requires { repair.now.count ≡ stripe_count repair.now.scheme.k repair.now.scheme.share 41 }
{
    let scheme = repair.scheme;
    let pieces = spoilt_pieces(rt, alloc, &scheme, segment, repair.sources, spoilt)?;
    let made = whole(rt, alloc, &scheme, 41, &[4], pieces.as_slice())?;
    let mut scratch = Scratch::new(alloc, &scheme)?;
    agree(rt, alloc, &mut scratch, repair, pieces.as_slice(), &made)
}

#[test]
fn windows_are_as_the_whole(rt: HostRuntime) {
    let scheme = scheme(&rt, 3, 3, 4, 9, 2);
    let mut segment = [0; 41];
    let mut product = 0u8;
    for byte in segment.iter_mut() {
        *byte = product ^ 5;
        product = product.wrapping_add(37);
    }
    let repair = Repair {
        scheme,
        sources: &[0, 2, 3, 5, 6, 7, 8],
        count: scheme.stripes(41),
    };
    let none: &[(u8, usize)] = &[];
    let few: &[(u8, usize)] = &[(5, 0), (5, 13), (8, 4)];
    let many: &[(u8, usize)] = &[(2, 8), (3, 8), (6, 9)];
    for spoilt in [none, few, many] {
        let same = spoilt_agree(&rt, rt.alloc(), &repair, &segment, spoilt);
        assert!(rt; same == Ok(true), "{spoilt:?}");
    }
}
