// The answers' bytes, column by column, and the marks of those that are known to be altered.
ghost use Rattle.std.specs.Prelude.{◌≡◌, ◌≢◌, ℕ, ◌*◌, ◌<◌, length, slice_index, slice_index_or, get_or, false, not, eqb, All, IfSome, IfNone};
ghost use Rattle.sat_base.specs.declared.items.Share.{Share};
ghost use Rattle.rs_stripe.specs.Segment.{share_of};
ghost use Rattle.rs_stripe.specs.Weights.{AreDivisors};
ghost use Rattle.bw_decode.specs.Altered.{is_altered, indexes_of};
ghost use Rattle.bw_decode.specs.Room.{IsHeldBy};
ghost use Rattle.bw_decode.specs.Answers.{bytes_of, byte_of, marked, column_share, AreRight, DisagreesIn, IsBlamed};

use crate::decoding::MOST_POINTS;
use gf256::same;
use rs_stripe::{Encoder, encode_column_with, encode_share_with, find_share_divisors};
use sat_base::{Scheme, Share};

// The most bytes of a share.
pub(crate) const LONGEST_SHARE: usize = 1024;

// Reads the indexes of the answers.
pub(crate) fn read_indexes(answers: &[Share], points: &mut [u8])
    requires { length answers.now ≡ length points.old }
    ensures { points.new ≡ indexes_of answers.now }
{
    for i in 0..points.len() {
        points[i] = answers[i].index;
    }
}

// Byte `c` of an answer, or 0 where its length is wrong.
fn byte_at(answer: &Share, size: usize, c: usize) -> u8
    requires { c < size }
    ensures { result ≡ byte_of size c answer.now }
{
    let bytes = answer.bytes.as_slice();
    if bytes.len() == size { bytes[c] } else { 0 }
}

// Reads that byte of each answer.
pub(crate) fn read_bytes(answers: &[Share], size: usize, c: usize, values: &mut [u8])
    requires column { c < size }
    requires lengths { length answers.now ≡ length values.old }
    ensures { values.new ≡ bytes_of size c answers.now }
{
    for i in 0..values.len() {
        values[i] = byte_at(&answers[i], size, c);
    }
}

// Marks the answers of wrong length, and no others.
pub(crate) fn mark_wrong_lengths(answers: &[Share], size: usize, blamed: &mut [bool])
    requires { length answers.now ≡ length blamed.old }
    ensures { (i : ℕ) (a : Share) → i < length answers.now → slice_index_or blamed.new i false
        ≡ not (eqb (length (get_or answers.now i a).bytes) size) }
{
    for i in 0..blamed.len() {
        blamed[i] = answers[i].bytes.len() != size;
    }
}

pub(crate) fn count_marked(blamed: &[bool]) -> usize
    ensures { result ≡ marked blamed.now }
{
    blamed.iter().filter(|mark| **mark).count()
}

// Marks the answers off the codeword of a column's data.
pub(crate) fn mark_off_codeword(
    scheme: &Scheme,
    column: &[u8],
    points: &[u8],
    values: &[u8],
    blamed: &mut [bool],
)
    requires column { length column.now ≡ scheme.now.k }
    requires points { All (λ j. j < scheme.now.n) points.now }
    requires values { length points.now ≡ length values.now }
    requires blamed { length blamed.old ≡ length values.now }
    ensures { IsBlamed scheme.now.k (slice_index column.now) (slice_index points.now)
        (slice_index values.now) blamed.old blamed.new }
{
    let mut room = [0; MOST_POINTS];
    let divisors = &mut room[..column.len()];
    find_share_divisors(divisors);
    for i in 0..points.len() {
        if encode_column_with(scheme, divisors, column, points[i]) != values[i] {
            blamed[i] = true;
        }
    }
}

// A place at which two slices differ.
fn find_difference(a: &[u8], b: &[u8]) -> Option<usize>
    requires { length a.now ≡ length b.now }
    ensures some { IfSome result (λ c. (c < length a.now)
        × (slice_index a.now c ≢ slice_index b.now c)) }
    ensures none { IfNone result (a.now ≡ b.now) }
{
    if same(a, b) {
        return None;
    }
    for c in 0..a.len() {
        if a[c] != b[c] {
            return Some(c);
        }
    }
    None
}

// Writes the stripe's share at this index. The divisors are those of the data's points. An encoder that
// holds the stripe is faster, but not for data, whose share is one row.
fn write_share(
    held: Option<&Encoder>,
    scheme: &Scheme,
    divisors: &[u8],
    stripe: &[u8],
    index: u8,
    share: &mut [u8],
)
    requires held { IfSome held (λ encoder.
        IsHeldBy scheme.now.k scheme.now.share scheme.now.n stripe.now encoder.now) }
    requires found { length divisors.now ≡ scheme.now.k }
    requires divisors { AreDivisors (length divisors.now) (λ i. i) (slice_index divisors.now) }
    requires stripe { length stripe.now ≡ scheme.now.k * scheme.now.share }
    requires share { length share.old ≡ scheme.now.share }
    requires index { index < scheme.now.n }
    ensures { share.new ≡ share_of scheme.now.k scheme.now.share stripe.now index }
{
    match held {
        Some(encoder) if index >= scheme.k => encoder.write_share(usize::from(index), share),
        _ => encode_share_with(scheme, divisors, stripe, index, share),
    }
}

// A column in which the answer is not the stripe's share. The divisors are those of the data's points,
// and `share` is room for a share.
fn column_off(
    held: Option<&Encoder>,
    scheme: &Scheme,
    divisors: &[u8],
    stripe: &[u8],
    answer: &Share,
    share: &mut [u8],
) -> Option<usize>
    requires held { IfSome held (λ encoder.
        IsHeldBy scheme.now.k scheme.now.share scheme.now.n stripe.now encoder.now) }
    requires found { length divisors.now ≡ scheme.now.k }
    requires divisors { AreDivisors (length divisors.now) (λ i. i) (slice_index divisors.now) }
    requires stripe { length stripe.now ≡ scheme.now.k * scheme.now.share }
    requires share { length share.old ≡ scheme.now.share }
    requires index { answer.now.index < scheme.now.n }
    requires whole { length answer.now.bytes ≡ scheme.now.share }
    ensures some { IfSome result (λ c. (c < scheme.now.share)
        × (column_share scheme.now.k scheme.now.share stripe.now c answer.now.index
        ≢ byte_of scheme.now.share c answer.now)) }
    ensures none { IfNone result
        (is_altered scheme.now.k scheme.now.share stripe.now answer.now ≡ false) }
{
    write_share(held, scheme, divisors, stripe, answer.index, share);
    find_difference(share, answer.bytes.as_slice())
}

// A column in which some answer that isn't marked is not the stripe's share. Where an encoder
// is given, it holds the stripe.
pub(crate) fn find_disagreement(
    held: Option<&Encoder>,
    scheme: &Scheme,
    answers: &[Share],
    blamed: &[bool],
    stripe: &[u8],
) -> Option<usize>
    requires held { IfSome held (λ encoder.
        IsHeldBy scheme.now.k scheme.now.share scheme.now.n stripe.now encoder.now) }
    requires stripe { length stripe.now ≡ scheme.now.k * scheme.now.share }
    requires points { All (λ j. j < scheme.now.n) (indexes_of answers.now) }
    requires blamed { length blamed.now ≡ length answers.now }
    requires lengths { (i : ℕ) (a : Share) → i < length answers.now
        → slice_index_or blamed.now i false ≡ false
        → length (get_or answers.now i a).bytes ≡ scheme.now.share }
    ensures some { IfSome result (λ c.
        DisagreesIn scheme.now.k scheme.now.share stripe.now answers.now blamed.now c) }
    ensures none { IfNone result
        (AreRight scheme.now.k scheme.now.share stripe.now answers.now blamed.now) }
{
    let mut divisors_room = [0; MOST_POINTS];
    let mut share_room = [0; LONGEST_SHARE];
    let divisors = &mut divisors_room[..usize::from(scheme.k)];
    let share = &mut share_room[..usize::from(scheme.share)];
    find_share_divisors(divisors);
    for i in 0..answers.len() {
        if blamed[i] {
            continue;
        }
        if let Some(c) = column_off(held, scheme, divisors, stripe, &answers[i], share) {
            return Some(c);
        }
    }
    None
}

// Such a column, where the first answer that the prediction of the stripe didn't choose shows it. It
// asks for no encoder: where answers were altered, this one share most often ends the round.
pub(crate) fn find_early_disagreement(
    scheme: &Scheme,
    answers: &[Share],
    blamed: &[bool],
    stripe: &[u8],
) -> Option<usize>
    requires stripe { length stripe.now ≡ scheme.now.k * scheme.now.share }
    requires points { All (λ j. j < scheme.now.n) (indexes_of answers.now) }
    requires blamed { length blamed.now ≡ length answers.now }
    requires lengths { (i : ℕ) (a : Share) → i < length answers.now
        → slice_index_or blamed.now i false ≡ false
        → length (get_or answers.now i a).bytes ≡ scheme.now.share }
    ensures { IfSome result (λ c.
        DisagreesIn scheme.now.k scheme.now.share stripe.now answers.now blamed.now c) }
{
    let mut divisors_room = [0; MOST_POINTS];
    let mut share_room = [0; LONGEST_SHARE];
    let k = usize::from(scheme.k);
    let divisors = &mut divisors_room[..k];
    let share = &mut share_room[..usize::from(scheme.share)];
    find_share_divisors(divisors);
    let mut chosen = 0;
    for i in 0..answers.len() {
        if !blamed[i] {
            if chosen >= k {
                return column_off(None, scheme, divisors, stripe, &answers[i], share);
            }
            chosen += 1;
        }
    }
    None
}
