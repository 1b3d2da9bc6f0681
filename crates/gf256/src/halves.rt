//! Sums of multiples of rows whose bytes are cut into halves once, for many sums.
ghost use Rattle.std.specs.Prelude.{◌≡◌, ℕ, ◌+◌, ◌*◌, ◌/◌, ◌%◌, ◌<◌, ◌≤◌, length, slice_index};
ghost use Rattle.gf256.specs.Field.{◌⊕◌, ◌⊗◌};
ghost use Rattle.gf256.specs.Sums.{total};
ghost use Rattle.gf256.specs.Lanes.{HasLanes, AreMultiples};
ghost use Rattle.gf256.specs.Halves.{AreSmall, joined, Puts, column_sum};

use crate::field::{add, mul};
use crate::lanes::{BLOCK, LANES, Multiples};
use std::simd::prelude::*;

/// Cuts each byte into its low and its high half. Where there is more room, zeros stand behind them.
pub fn split(bytes: &[u8], low: &mut [u8], high: &mut [u8])
    requires high { length high.old ≡ length low.old }
    requires fits { length bytes.now ≤ length low.old }
    ensures low { (p : ℕ) → slice_index low.new p ≡ slice_index bytes.now p % 16 }
    ensures high { (p : ℕ) → slice_index high.new p ≡ slice_index bytes.now p / 16 }
{
    low.fill(0);
    high.fill(0);
    for p in 0..bytes.len() {
        low[p] = bytes[p] % 16;
        high[p] = bytes[p] / 16;
    }
}

// Adds the multiples of 32 bytes to a sum.
#[inline(always)]
fn add_at(multiples: Multiples, sum: u8x32, low: &[u8], high: &[u8], from: usize) -> u8x32
    requires room { from + LANES ≤ length low.now }
    requires high_room { length high.now ≡ length low.now }
    requires small { AreSmall low.now }
    requires small_high { AreSmall high.now }
    ensures { (c : ℕ) → AreMultiples c multiples → (f : ℕ → ℕ) → HasLanes sum f
        → HasLanes result (λ k. f k ⊕ c ⊗ joined low.now high.now (from + k)) }
{
    sum ^ multiples.times_halves(
        u8x32::from_slice(&low[from..]),
        u8x32::from_slice(&high[from..]),
    )
}

// Stores 32 bytes.
#[inline(always)]
fn put(v: u8x32, out: &mut [u8], at: usize)
    requires { at + LANES ≤ length out.old }
    ensures { (f : ℕ → ℕ) → HasLanes v (λ k. f (at + k)) → Puts f out.old out.new at (at + LANES) }
{
    v.copy_to_slice(&mut out[at..]);
}

// Writes the sums of 128 columns, each in a register until all rows are added.
fn sum_block(weights: &[u8], low: &[u8], high: &[u8], out: &mut [u8], at: usize)
    requires room { at + BLOCK ≤ length out.old }
    requires rows { length low.now ≡ length weights.now * length out.old }
    requires high_rows { length high.now ≡ length low.now }
    requires small { AreSmall low.now }
    requires small_high { AreSmall high.now }
    ensures { Puts (column_sum weights.now low.now high.now (length out.old)) out.old out.new at
        (at + BLOCK) }
{
    let size = out.len();
    let mut a = u8x32::splat(0);
    let mut b = u8x32::splat(0);
    let mut c = u8x32::splat(0);
    let mut d = u8x32::splat(0);
    for i in 0..weights.len() {
        let multiples = Multiples::of(weights[i]);
        let from = i * size + at;
        a = add_at(multiples, a, low, high, from);
        b = add_at(multiples, b, low, high, from + LANES);
        c = add_at(multiples, c, low, high, from + 2 * LANES);
        d = add_at(multiples, d, low, high, from + 3 * LANES);
    }
    put(a, out, at);
    put(b, out, at + LANES);
    put(c, out, at + 2 * LANES);
    put(d, out, at + 3 * LANES);
}

// Writes the sums of 32 columns.
fn sum_lanes(weights: &[u8], low: &[u8], high: &[u8], out: &mut [u8], at: usize)
    requires room { at + LANES ≤ length out.old }
    requires rows { length low.now ≡ length weights.now * length out.old }
    requires high_rows { length high.now ≡ length low.now }
    requires small { AreSmall low.now }
    requires small_high { AreSmall high.now }
    ensures { Puts (column_sum weights.now low.now high.now (length out.old)) out.old out.new at
        (at + LANES) }
{
    let size = out.len();
    let mut a = u8x32::splat(0);
    for i in 0..weights.len() {
        a = add_at(Multiples::of(weights[i]), a, low, high, i * size + at);
    }
    put(a, out, at);
}

// The sum of one column.
fn sum_column(weights: &[u8], low: &[u8], high: &[u8], size: usize, at: usize) -> u8
    requires room { at < size }
    requires rows { length low.now ≡ length weights.now * size }
    requires high_rows { length high.now ≡ length low.now }
    requires small { AreSmall low.now }
    requires small_high { AreSmall high.now }
    ensures { result ≡ column_sum weights.now low.now high.now size at }
{
    let mut sum = 0;
    for i in 0..weights.len() {
        let from = i * size + at;
        sum = add(sum, mul(weights[i], low[from] + 16 * high[from]));
    }
    sum
}

/// Writes the sum of the rows, each times its weight. The rows stand one after another, each as long
/// as `out`, and are cut into halves by [`split`].
///
/// Where many sums of the same rows are wanted it is faster than [`crate::mul_add`] row by row: the
/// halves are found once, and a column of the sum is stored once.
pub fn combine(weights: &[u8], low: &[u8], high: &[u8], out: &mut [u8])
    requires rows { length low.now ≡ length weights.now * length out.old }
    requires high_rows { length high.now ≡ length low.now }
    requires small { AreSmall low.now }
    requires small_high { AreSmall high.now }
    ensures len { length out.new ≡ length out.old }
    ensures value { (c : ℕ) → c < length out.new
        → slice_index out.new c
        ≡ column_sum weights.now low.now high.now (length out.new) c }
{
    let mut at = 0;
    'wide: while out.len() - at >= BLOCK {
        sum_block(weights, low, high, out, at);
        at += BLOCK;
    }
    'lanes: while out.len() - at >= LANES {
        sum_lanes(weights, low, high, out, at);
        at += LANES;
    }
    'rest: while at < out.len() {
        out[at] = sum_column(weights, low, high, out.len(), at);
        at += 1;
    }
}
