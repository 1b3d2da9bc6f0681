// A worked example of encoding, and the shares of another library.
ghost use Rattle.std.specs.Prelude.{◌≡◌, ◌<◌, ◌≤◌, ◌*◌, length};

use crate::schemes::scheme;
use crate::vectors::{Stripe, stripes};
use rs_stripe::{encode_column, encode_piece, encode_pieces, encode_share};
use sat_base::{NoMemory, Scheme};
use std::alloc::Global;
use std::process::Abort;

// Whether the share of the data 1 and 2, and the piece of the data 1, 2 and 4, are these.
fn are_right(
    alloc: Global,
    scheme: &Scheme,
    index: u8,
    share: u8,
    piece: &[u8],
) -> Result<bool, NoMemory>
    requires k { scheme.now.k ≡ 2 }
    requires index { index < scheme.now.n }
{
    let made = encode_piece(alloc, scheme, &[1, 2, 4], index)?;
    Ok(encode_column(scheme, &[1, 2], index) == share && made.as_slice() == piece)
}

// Whether the three pieces of one call are these.
fn are_pieces(
    alloc: Global,
    scheme: &Scheme,
    indexes: &[u8],
    pieces: [&[u8]; 3],
) -> Result<bool, NoMemory> {
    let made = encode_pieces(alloc, scheme, &[1, 2, 4], indexes)?;
    let mut same = made.len() == 3;
    for (one, piece) in made.iter().zip(pieces.as_slice()) {
        same = same && one.as_slice() == *piece;
    }
    Ok(same)
}

// The share and the piece of each index.
static EXPECTED: [(u8, [u8; 2]); 6] = [
    (1, [1, 4]),
    (2, [2, 0]),
    (7, [7, 12]),
    (4, [4, 8]),
    (13, [13, 20]),
    (14, [14, 16]),
];

#[test]
fn worked_example(rt: HostRuntime) {
    let scheme = scheme(&rt, 2, 2, 3, 6, 1);
    assert!(rt; scheme.k == 2 && scheme.n == 6);
    for index in 0..6 {
        let (share, piece) = &EXPECTED[usize::from(index)];
        let right = are_right(rt.alloc(), &scheme, index, *share, piece);
        assert!(rt; right == Ok(true), "index {index}");
    }
}

#[test]
fn worked_pieces(rt: HostRuntime) {
    let scheme = scheme(&rt, 2, 2, 3, 6, 1);
    let pieces: [&[u8]; 3] = [&[14, 16], &[1, 4], &[7, 12]];
    assert!(rt; are_pieces(rt.alloc(), &scheme, &[5, 0, 2], pieces) == Ok(true));
}

// Whether the share of the stripe has these bytes.
fn is_share(scheme: &Scheme, stripe: &[u8], index: u8, bytes: &[u8]) -> bool
    requires stripe { length stripe.now ≡ scheme.now.k * scheme.now.share }
    requires index { index < scheme.now.n }
    requires len { scheme.now.share ≤ 8 }
{
    let mut room = [0; 8];
    let out = &mut room[..usize::from(scheme.share)];
    encode_share(scheme, stripe, index, out);
    &*out == bytes
}

// Whether share `index` of the stripe is the one that stands at its place among the shares.
fn stands_there(rt: &impl Abort, scheme: &Scheme, shares: &[u8], index: u8) -> bool {
    let len = usize::from(scheme.share);
    let whole = usize::from(scheme.k) * len;
    let at = usize::from(index) * len;
    assert!(rt; index < scheme.n && len <= 8 && whole <= shares.len() && at + len <= shares.len());
    is_share(scheme, &shares[..whole], index, &shares[at..at + len])
}

fn assert_shares(rt: &impl Abort, stripe: &Stripe) {
    let k = u64::from(stripe.k);
    let scheme = scheme(rt, k, k, k + 1, stripe.n.into(), stripe.share.into());
    for index in 0..scheme.n {
        let right = stands_there(rt, &scheme, stripe.shares, index);
        assert!(rt; right, "share {index} of {k}");
    }
}

#[test]
fn shares_of_another_library(rt: HostRuntime) {
    for stripe in stripes() {
        assert_shares(&rt, stripe);
    }
}
