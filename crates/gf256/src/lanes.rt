//! The operations on slices, 32 bytes a step.
ghost use Rattle.std.specs.Prelude.{◌≡◌, ℕ, ◌+◌, ◌*◌, ◌/◌, ◌%◌, ◌<◌, ◌≤◌, ◌↔◌, length, slice_index, IsTrue};
ghost use Rattle.gf256.specs.Field.{◌⊕◌, ◌⊗◌};
ghost use Rattle.gf256.specs.Lanes.{HasLanes, AreMultiples, AddsMultiple, AgreeWithin};
ghost use Rattle.gf256.specs.Halves.{AreSmall, joined};

use crate::field::{add, mul};
use crate::tables::{high_products, low_products};
use std::simd::prelude::*;

// How many bytes one vector holds.
pub(crate) const LANES: usize = 32;

// The same of the widest vector.
const WIDE_LANES: usize = 64;

// How many bytes one step of a long sum takes.
pub(crate) const BLOCK: usize = 4 * LANES;

// The products of one factor with the two halves of a byte. Each table stands twice in its vector,
// since a look-up reads each 16 lanes apart.
#[derive(Clone, Copy)]
pub(crate) struct Multiples {
    low: u8x32,
    high: u8x32,
}

#[inline(always)]
fn twice(half: &[u8]) -> u8x32
    requires { length half.now ≡ 16 }
    ensures { HasLanes result (λ k. slice_index half.now (k % 16)) }
{
    u8x16::from_slice(half).swizzle([
        0, 1, 2, 3, 4, 5, 6, 7, 8, 9, 10, 11, 12, 13, 14, 15, 0, 1, 2, 3, 4, 5, 6, 7, 8, 9, 10, 11,
        12, 13, 14, 15,
    ])
}

// Reads the table at the low half of each lane.
#[inline(always)]
fn by_low_half(table: u8x32, v: u8x32) -> u8x32
    ensures { (f : ℕ → ℕ) → HasLanes table (λ k. f (k % 16))
        → HasLanes result (λ k. f (slice_index v k % 16)) }
{
    table.swizzle_dyn_within::<16>(v & u8x32::splat(15))
}

// The same at the high half.
#[inline(always)]
fn by_high_half(table: u8x32, v: u8x32) -> u8x32
    ensures { (f : ℕ → ℕ) → HasLanes table (λ k. f (k % 16))
        → HasLanes result (λ k. f (slice_index v k / 16)) }
{
    table.swizzle_dyn_within::<16>(v >> u8x32::splat(4))
}

impl Multiples {
    #[inline(always)]
    pub(crate) fn of(factor: u8) -> Multiples
        ensures { AreMultiples factor result }
    {
        Multiples {
            low: twice(low_products(factor)),
            high: twice(high_products(factor)),
        }
    }

    // The products of the factor with each lane.
    #[inline(always)]
    fn times(self, v: u8x32) -> u8x32
        ensures { (c : ℕ) → AreMultiples c self → HasLanes result (λ k. c ⊗ slice_index v k) }
    {
        by_low_half(self.low, v) ^ by_high_half(self.high, v)
    }

    // The products of the factor with bytes that are given by their halves.
    #[inline(always)]
    pub(crate) fn times_halves(self, low: u8x32, high: u8x32) -> u8x32
        requires small { AreSmall low }
        requires small_high { AreSmall high }
        ensures { (c : ℕ) → AreMultiples c self
            → HasLanes result (λ k. c ⊗ joined low high k) }
    {
        self.low.swizzle_dyn_within::<16>(low) ^ self.high.swizzle_dyn_within::<16>(high)
    }

    #[inline(always)]
    fn add_lanes(self, dst: &mut [u8], src: &[u8], at: usize)
        requires { (at + LANES ≤ length src.now) × (length dst.old ≡ length src.now) }
        ensures { (c : ℕ) → AreMultiples c self
            → AddsMultiple c src.now dst.old dst.new at (at + LANES) }
    {
        let product = self.times(u8x32::from_slice(&src[at..]));
        (u8x32::from_slice(&dst[at..]) ^ product).copy_to_slice(&mut dst[at..]);
    }

    // Four vectors in a row: one at a time is slower.
    #[inline(always)]
    fn add_block(self, dst: &mut [u8], src: &[u8], at: usize)
        requires { (at + BLOCK ≤ length src.now) × (length dst.old ≡ length src.now) }
        ensures { (c : ℕ) → AreMultiples c self
            → AddsMultiple c src.now dst.old dst.new at (at + BLOCK) }
    {
        self.add_lanes(dst, src, at);
        self.add_lanes(dst, src, at + LANES);
        self.add_lanes(dst, src, at + 2 * LANES);
        self.add_lanes(dst, src, at + 3 * LANES);
    }
}

/// Adds `c` times `src` to `dst`, byte by byte.
///
/// The products are looked up by half bytes (Plank, Greenan and Miller, "Screaming Fast Galois
/// Field Arithmetic Using Intel SIMD Instructions").
pub fn mul_add(dst: &mut [u8], src: &[u8], c: u8)
    requires { length dst.old ≡ length src.now }
    ensures len { length dst.new ≡ length dst.old }
    ensures value { (i : ℕ) → i < length src.now
        → slice_index dst.new i ≡ slice_index dst.old i ⊕ c ⊗ slice_index src.now i }
{
    let multiples = Multiples::of(c);
    let mut at = 0;
    'wide: while src.len() - at >= BLOCK {
        multiples.add_block(dst, src, at);
        at += BLOCK;
    }
    'lanes: while src.len() - at >= LANES {
        multiples.add_lanes(dst, src, at);
        at += LANES;
    }
    'rest: while at < src.len() {
        dst[at] = add(dst[at], mul(c, src[at]));
        at += 1;
    }
}

// Whether the N bytes from `at` on are the same in both.
#[inline(always)]
fn same_lanes<const N: usize>(a: &[u8], b: &[u8], at: usize) -> bool
    requires { (at + N ≤ length a.now) × (length a.now ≡ length b.now) × (N ≤ 64) }
    ensures { IsTrue result ↔ AgreeWithin a.now b.now at (at + N) }
{
    let differs = Simd::<u8, N>::from_slice(&a[at..]).simd_ne(Simd::from_slice(&b[at..]));
    differs.to_bitmask() == 0
}

/// Whether two slices of one length hold the same bytes.
///
/// It stops at the first difference, so its time tells how long the common front is.
pub fn same(a: &[u8], b: &[u8]) -> bool
    requires { length a.now ≡ length b.now }
    ensures { IsTrue result ↔ (a.now ≡ b.now) }
{
    let mut at = 0;
    'wide: while a.len() - at >= WIDE_LANES {
        if !same_lanes::<{ WIDE_LANES }>(a, b, at) {
            return false;
        }
        at += WIDE_LANES;
    }
    'lanes: while a.len() - at >= LANES {
        if !same_lanes::<{ LANES }>(a, b, at) {
            return false;
        }
        at += LANES;
    }
    'rest: while at < a.len() {
        if a[at] != b[at] {
            return false;
        }
        at += 1;
    }
    true
}
