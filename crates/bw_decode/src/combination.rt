// The columns of the answers, combined into one, which is decoded as a column.
ghost use Rattle.std.specs.Prelude.{◌≡◌, ◌≢◌, ℕ, ◌*◌, ◌<◌, ◌≤◌, length, slice_index, slice_index_or, true, false, All};
ghost use Rattle.sat_base.specs.declared.items.Share.{Share};
ghost use Rattle.gf256.specs.Field.{power};
ghost use Rattle.rs_stripe.specs.Codeword.{share};
ghost use Rattle.bw_decode.specs.Altered.{indexes_of};
ghost use Rattle.gf256.specs.Sums.{total};
ghost use Rattle.bw_decode.specs.Forms.{IsLinear, combined};
ghost use Rattle.bw_decode.specs.Answers.{value_of, values_of, row_value, Disagrees, DisagreesIn};

use crate::answers::{LONGEST_SHARE, read_bytes};
use crate::decoding::MOST_POINTS;
use gf256::{add, mul};
use rs_stripe::{encode_column_with, find_share_divisors};
use sat_base::{Scheme, Share};

// The factors of a combination are the powers of one of these. Those of 1 make the plain sum, which is
// quick, and in which the alteration of one byte always shows. Each of the others generates the 255
// elements other than 0, so that its factors repeat only after 255 columns. Which alterations cancel
// differs from base to base.
const BASES: [u8; 4] = [1, 2, 128, 232];

// Writes the powers of the base, from 0 up.
fn write_powers(base: u8, factors: &mut [u8])
    ensures powers { (c : ℕ) → c < length factors.new → slice_index factors.new c ≡ power base c }
    ensures ones { base ≡ 1 → (c : ℕ) → c < length factors.new → slice_index factors.new c ≡ 1 }
{
    let mut factor = 1;
    for c in 0..factors.len() {
        factors[c] = factor;
        factor = mul(base, factor);
    }
}

// The sum of the bytes.
fn sum_bytes(bytes: &[u8]) -> u8
    ensures { result ≡ total (length bytes.now) (slice_index bytes.now) }
{
    let mut sum = 0;
    for c in 0..bytes.len() {
        sum = add(sum, bytes[c]);
    }
    sum
}

// The sum of the bytes, each times its factor, which is a power of the base.
fn combine_bytes(base: u8, factors: &[u8], bytes: &[u8]) -> u8
    requires length { length bytes.now ≡ length factors.now }
    requires ones { base ≡ 1 → (c : ℕ) → c < length factors.now → slice_index factors.now c ≡ 1 }
    ensures { result ≡ combined factors.now (slice_index bytes.now) }
{
    if base == 1 {
        return sum_bytes(bytes);
    }
    let mut sum = 0;
    for c in 0..factors.len() {
        sum = add(sum, mul(factors[c], bytes[c]));
    }
    sum
}

// Combines the bytes of an answer. The combination is 0 where its length is wrong.
fn combine_answer(base: u8, factors: &[u8], answer: &Share) -> u8
    requires ones { base ≡ 1 → (c : ℕ) → c < length factors.now → slice_index factors.now c ≡ 1 }
    ensures { result ≡ value_of (length factors.now) (combined factors.now) answer.now }
{
    let bytes = answer.bytes.as_slice();
    if bytes.len() == factors.len() {
        combine_bytes(base, factors, bytes)
    } else {
        0
    }
}

// Combines the bytes of each answer.
fn combine_answers(base: u8, factors: &[u8], answers: &[Share], values: &mut [u8])
    requires ones { base ≡ 1 → (c : ℕ) → c < length factors.now → slice_index factors.now c ≡ 1 }
    requires values { length answers.now ≡ length values.old }
    ensures { values.new ≡ values_of (length factors.now) (combined factors.now) answers.now }
{
    for i in 0..values.len() {
        values[i] = combine_answer(base, factors, &answers[i]);
    }
}

// Combines the bytes of each row of the stripe.
fn combine_rows(base: u8, factors: &[u8], stripe: &[u8], column: &mut [u8])
    requires ones { base ≡ 1 → (c : ℕ) → c < length factors.now → slice_index factors.now c ≡ 1 }
    requires stripe { length stripe.now ≡ length column.old * length factors.now }
    requires few { length column.old ≤ 128 }
    requires short { length factors.now ≤ 1024 }
    ensures { (l : ℕ) → l < length column.new → slice_index column.new l
        ≡ row_value (length factors.now) stripe.now (combined factors.now) l }
{
    let size = factors.len();
    for l in 0..column.len() {
        column[l] = combine_bytes(base, factors, &stripe[l * size..l * size + size]);
    }
}

// Whether the value of some answer that isn't marked is off the codeword of a column's data.
fn is_off(scheme: &Scheme, column: &[u8], answers: &[Share], values: &[u8], blamed: &[bool]) -> bool
    requires column { length column.now ≡ scheme.now.k }
    requires points { All (λ j. j < scheme.now.n) (indexes_of answers.now) }
    requires values { length values.now ≡ length answers.now }
    requires blamed { length blamed.now ≡ length answers.now }
    ensures { result ≡ true → (i : ℕ) × (i < length answers.now)
        × (slice_index_or blamed.now i false ≡ false)
        × (share scheme.now.k (slice_index column.now) (slice_index (indexes_of answers.now) i)
        ≢ slice_index values.now i) }
{
    let mut room = [0; MOST_POINTS];
    let divisors = &mut room[..column.len()];
    find_share_divisors(divisors);
    for i in 0..answers.len() {
        if blamed[i] {
            continue;
        }
        if encode_column_with(scheme, divisors, column, answers[i].index) != values[i] {
            return true;
        }
    }
    false
}

// Reads a column of values in which some answer that isn't marked disagrees with the stripe, as one
// does in column `c`. It is a combination of all columns, where one of a few shows that, as they mostly
// do where answers are altered in any columns. Else it is column `c`.
pub(crate) fn read_disagreement(
    scheme: &Scheme,
    answers: &[Share],
    blamed: &[bool],
    stripe: &[u8],
    c: usize,
    values: &mut [u8],
)
    requires stripe { length stripe.now ≡ scheme.now.k * scheme.now.share }
    requires points { All (λ j. j < scheme.now.n) (indexes_of answers.now) }
    requires blamed { length blamed.now ≡ length answers.now }
    requires values { length answers.now ≡ length values.old }
    requires disagrees { DisagreesIn scheme.now.k scheme.now.share stripe.now answers.now blamed.now c }
    ensures { (F : (ℕ → ℕ) → ℕ) × IsLinear scheme.now.share F
        × (values.new ≡ values_of scheme.now.share F answers.now)
        × Disagrees scheme.now.k scheme.now.share stripe.now answers.now blamed.now F }
{
    let mut factors_room = [0; LONGEST_SHARE];
    let mut column_room = [0; MOST_POINTS];
    let size = usize::from(scheme.share);
    let factors = &mut factors_room[..size];
    let column = &mut column_room[..usize::from(scheme.k)];
    for base in BASES {
        write_powers(base, factors);
        combine_answers(base, factors, answers, values);
        combine_rows(base, factors, stripe, column);
        if is_off(scheme, column, answers, values, blamed) {
            return;
        }
    }
    read_bytes(answers, size, c, values);
}
