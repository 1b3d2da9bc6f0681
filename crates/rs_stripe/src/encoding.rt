ghost use Rattle.std.specs.Prelude.{◌≡◌, ℕ, ◌+◌, ◌*◌, ◌^◌, ◌<◌, ◌≤◌, length, slice_index, IfOk};
ghost use Rattle.std.specs.List.{concat};
ghost use Rattle.gf256.specs.Field.{◌⊕◌, ◌⊗◌};
ghost use Rattle.sat_base.specs.Scheme.{stripe_count};
ghost use Rattle.rs_stripe.specs.Codeword.{share, IsShare};
ghost use Rattle.rs_stripe.specs.Segment.{share_of, stripe_of, piece_of, tabulate};
ghost use Rattle.rs_stripe.specs.Weights.{weighted, AreWeights, AreDivisors};

use crate::interpolation::{MOST_SHARES, indexes, interpolate};
use crate::weights::{find_share_divisors, find_share_weights, weighted_sum};
use gf256::mul_add;
use sat_base::{Bytes, NoMemory, Scheme};
use std::alloc::Global;

/// Share `index` of a column of `k` data bytes.
pub fn encode_column(scheme: &Scheme, column: &[u8], index: u8) -> u8
    requires column { length column.now ≡ scheme.now.k }
    requires index { index < scheme.now.n }
    ensures value { result ≡ share scheme.now.k (slice_index column.now) index }
    ensures textbook { IsShare scheme.now.k (slice_index column.now) index result }
{
    interpolate(indexes(column.len()), column, index)
}

/// The share that [`encode_column`] gives, by divisors of [`find_share_divisors`].
pub fn encode_column_with(scheme: &Scheme, divisors: &[u8], column: &[u8], index: u8) -> u8
    requires column { length column.now ≡ scheme.now.k }
    requires found { length divisors.now ≡ scheme.now.k }
    requires divisors { AreDivisors (length divisors.now) (λ i. i) (slice_index divisors.now) }
    ensures { result ≡ share scheme.now.k (slice_index column.now) index }
{
    let mut room = [0; MOST_SHARES];
    let weights = &mut room[..column.len()];
    find_share_weights(divisors, index, weights);
    weighted_sum(weights, column)
}

/// Run `number` of bytes that are cut into runs of `size` bytes. It is shorter at the end of the
/// bytes, and empty past it.
pub(crate) fn run_of(bytes: &[u8], number: usize, size: usize) -> &[u8]
    requires { number * size + size < 2 ^ 64 }
    ensures len { length result.now ≤ size }
    ensures value { (c : ℕ) → c < size
        → slice_index result.now c ≡ slice_index bytes.now (number * size + c) }
{
    let start = (number * size).min(bytes.len());
    let end = (start + size).min(bytes.len());
    &bytes[start..end]
}

// Adds `weight` times the row to the share. Bytes that the row lacks count as zeros.
fn add_row(out: &mut [u8], row: &[u8], weight: u8)
    requires { length row.now ≤ length out.old }
    ensures { (c : ℕ) → c < length out.new
        → slice_index out.new c ≡ slice_index out.old c ⊕ weight ⊗ slice_index row.now c }
{
    if weight == 0 {
        return;
    }
    mul_add(&mut out[..row.len()], row, weight);
}

// Writes the linear combination of the stripe's rows with these weights. Bytes that the stripe
// lacks at its end count as zeros.
fn combine_rows(weights: &[u8], stripe: &[u8], out: &mut [u8])
    requires few { length weights.now ≤ 128 }
    requires short { length out.old ≤ 1024 }
    ensures { (c : ℕ) → c < length out.new → slice_index out.new c
        ≡ weighted (length weights.now) (slice_index weights.now)
        (λ i. slice_index stripe.now (i * length out.new + c)) }
{
    out.fill(0);
    for i in 0..weights.len() {
        add_row(out, run_of(stripe, i, out.len()), weights[i]);
    }
}

/// Writes share `index` of a stripe into `out`, which is as long as a share. The stripe is `k` rows
/// of that length.
pub fn encode_share(scheme: &Scheme, stripe: &[u8], index: u8, out: &mut [u8])
    requires stripe { length stripe.now ≡ scheme.now.k * scheme.now.share }
    requires out { length out.old ≡ scheme.now.share }
    requires index { index < scheme.now.n }
    ensures { out.new ≡ share_of scheme.now.k scheme.now.share stripe.now index }
{
    let mut room = [0; MOST_SHARES];
    let divisors = &mut room[..usize::from(scheme.k)];
    find_share_divisors(divisors);
    encode_share_with(scheme, divisors, stripe, index, out);
}

/// Writes the share that [`encode_share`] writes, by divisors of [`find_share_divisors`].
pub fn encode_share_with(scheme: &Scheme, divisors: &[u8], stripe: &[u8], index: u8, out: &mut [u8])
    requires found { length divisors.now ≡ scheme.now.k }
    requires divisors { AreDivisors (length divisors.now) (λ i. i) (slice_index divisors.now) }
    requires stripe { length stripe.now ≡ scheme.now.k * scheme.now.share }
    requires out { length out.old ≡ scheme.now.share }
    requires index { index < scheme.now.n }
    ensures { out.new ≡ share_of scheme.now.k scheme.now.share stripe.now index }
{
    let mut room = [0; MOST_SHARES];
    let weights = &mut room[..usize::from(scheme.k)];
    find_share_weights(divisors, index, weights);
    combine_rows(weights, stripe, out);
}

// Writes the shares with these weights of the segment's stripes, one after another. Each has `size`
// bytes.
fn encode_stripes(weights: &[u8], segment: &[u8], stripes: usize, size: usize, piece: &mut [u8])
    requires few_weights { length weights.now ≤ 128 }
    requires short { size ≤ 1024 }
    requires few_stripes { stripes ≤ 2 ^ 40 }
    requires room { length piece.old ≡ stripes * size }
    ensures { (j : ℕ) → AreWeights (length weights.now) j (slice_index weights.now)
        → piece.new ≡ concat (tabulate stripes (λ s. share_of (length weights.now) size
        (stripe_of (length weights.now) size segment.now s) j)) }
{
    let stripe_len = weights.len() * size;
    for s in 0..stripes {
        let stripe = run_of(segment, s, stripe_len);
        combine_rows(weights, stripe, &mut piece[s * size..s * size + size]);
    }
}

/// Piece `index` of a segment: the share of that index of each stripe, in order. The last stripe is
/// padded with zeros. It takes memory for the piece alone.
pub fn encode_piece(
    alloc: Global,
    scheme: &Scheme,
    segment: &[u8],
    index: u8,
) -> Result<Bytes, NoMemory>
    requires index { index < scheme.now.n }
    requires segment { length segment.now ≤ 2 ^ 40 }
    ensures piece { IfOk result (λ p. p
        ≡ piece_of scheme.now.k scheme.now.share segment.now index) }
    ensures len { IfOk result (λ p. length p
        ≡ stripe_count scheme.now.k scheme.now.share (length segment.now) * scheme.now.share) }
{
    let k = usize::from(scheme.k);
    let mut divisors_room = [0; MOST_SHARES];
    let mut weights_room = [0; MOST_SHARES];
    let divisors = &mut divisors_room[..k];
    let weights = &mut weights_room[..k];
    find_share_divisors(divisors);
    find_share_weights(divisors, index, weights);
    let len = segment.len() as u64;
    let mut piece = Vec::from_elem(alloc, 0, scheme.piece_len(len) as usize)?;
    encode_stripes(
        weights,
        segment,
        scheme.stripes(len) as usize,
        usize::from(scheme.share),
        piece.as_mut_slice(),
    );
    Ok(Bytes::of(piece))
}
