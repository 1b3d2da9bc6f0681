// Many pieces of a segment.
ghost use Rattle.std.specs.Prelude.{◌≡◌, ◌≤◌, ◌<◌, ◌+◌, ◌*◌, ◌^◌, ℕ, List, length, map, slice_index, slice_index_or, All, IfOk};
ghost use Rattle.sat_base.specs.Scheme.{stripe_count};
ghost use Rattle.rs_stripe.specs.Segment.{share_of, piece_of};
ghost use Rattle.rs_stripe.specs.Pieces.{IsWritten, AreWritten};

use crate::encoder::Encoder;
use crate::encoding::run_of;
use sat_base::{Bytes, NoMemory, Scheme};
use std::alloc::Global;
use std::mem::replace;

// So many pieces of `len` bytes, of which nothing is written.
fn blank_pieces(alloc: Global, count: usize, len: usize) -> Result<Vec<Bytes>, NoMemory>
    ensures count { IfOk result (λ pieces. length pieces.items ≡ count) }
    ensures long { IfOk result (λ pieces. All (λ piece. length piece ≡ len) pieces.items) }
{
    let mut pieces = Vec::with_capacity(alloc, count)?;
    'pieces: for _ in 0..count {
        pieces.push(Bytes::of(Vec::from_elem(alloc, 0, len)?))?;
    }
    Ok(pieces)
}

// Writes the share at this place of the encoder's indexes behind the first bytes of the piece.
fn write_share(alloc: Global, encoder: &Encoder, place: usize, piece: &mut Bytes, at: usize)
    requires place { place < length encoder.now.indexes }
    requires room { at + encoder.now.size ≤ length piece.old }
    ensures { IsWritten (share_of encoder.now.k encoder.now.size encoder.now.stripe
        (slice_index encoder.now.indexes place)) at piece.old piece.new }
{
    let mut bytes = replace(piece, Bytes::of(Vec::new(alloc))).into_vec();
    let size = encoder.size();
    encoder.write_share(place, &mut bytes.as_mut_slice()[at..at + size]);
    *piece = Bytes::of(bytes);
}

// Writes the shares of the encoder's stripe behind the first bytes of the pieces.
fn write_shares(alloc: Global, encoder: &Encoder, pieces: &mut [Bytes], at: usize)
    requires places { length pieces.old ≡ length encoder.now.indexes }
    requires room { All (λ piece. at + encoder.now.size ≤ length piece) pieces.old }
    ensures { (t : ℕ) (d : List ℕ) → t < length pieces.old
        → IsWritten (share_of encoder.now.k encoder.now.size encoder.now.stripe
        (slice_index encoder.now.indexes t)) at (slice_index_or pieces.old t d) (slice_index_or pieces.new t d) }
{
    for place in 0..pieces.len() {
        write_share(alloc, encoder, place, &mut pieces[place], at);
    }
}

// Writes the shares of all stripes of the segment into the pieces.
fn write_stripes(
    alloc: Global,
    scheme: &Scheme,
    encoder: &mut Encoder,
    segment: &[u8],
    pieces: &mut [Bytes],
)
    requires segment { length segment.now ≤ 2 ^ 40 }
    requires scheme { (encoder.old.k ≡ scheme.now.k) × (encoder.old.size ≡ scheme.now.share) }
    requires places { length pieces.old ≡ length encoder.old.indexes }
    requires room { All (λ piece. length piece
        ≡ stripe_count scheme.now.k scheme.now.share (length segment.now) * scheme.now.share) pieces.old }
    ensures { AreWritten scheme.now.k scheme.now.share segment.now encoder.old.indexes
        (stripe_count scheme.now.k scheme.now.share (length segment.now) * scheme.now.share)
        (stripe_count scheme.now.k scheme.now.share (length segment.now)) pieces.new }
{
    let size = usize::from(scheme.share);
    let stripe_len = usize::from(scheme.k) * size;
    for s in 0..scheme.stripes(segment.len() as u64) as usize {
        encoder.hold(run_of(segment, s, stripe_len));
        write_shares(alloc, encoder, pieces, s * size);
    }
}

/// The pieces of these indexes of a segment, in their order. The last stripe is padded with zeros.
///
/// It takes memory for the pieces and an encoder. More than a few pieces are made faster than each by
/// [`crate::encode_piece`].
pub fn encode_pieces(
    alloc: Global,
    scheme: &Scheme,
    segment: &[u8],
    indexes: &[u8],
) -> Result<Vec<Bytes>, NoMemory>
    requires { length segment.now ≤ 2 ^ 40 }
    ensures { IfOk result (λ pieces. pieces.items
        ≡ map (piece_of scheme.now.k scheme.now.share segment.now) indexes.now) }
{
    let mut encoder = Encoder::new(alloc, scheme, indexes)?;
    let len = scheme.piece_len(segment.len() as u64) as usize;
    let mut pieces = blank_pieces(alloc, indexes.len(), len)?;
    write_stripes(alloc, scheme, &mut encoder, segment, pieces.as_mut_slice());
    Ok(pieces)
}
