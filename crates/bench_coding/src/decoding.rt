// Both forms of the decoding.
ghost use Rattle.std.specs.Prelude.{◌≡◌, ◌*◌, ◌<◌, ◌≤◌, length, All};
ghost use Rattle.bw_decode.specs.Near.{Rises};
ghost use Rattle.bw_decode.specs.Altered.{indexes_of};

use anyhow::{Result, anyhow};
use bw_decode::column::column;
use bw_decode::stripe::stripe;
use bw_decode::{Column, Nearness, Scratch};
use sat_base::{Scheme, Share};
use std::alloc::Global;
use trial_indexes::{are_rising, indexes_in};

/// What a decoding finds.
#[derive(Clone, Copy)]
pub struct Found {
    /// The sum of the stripe's bytes.
    pub sum: u64,
    /// The sum of the indexes of the altered answers.
    pub blamed: u64,
    /// How many linear systems were solved.
    pub systems: u64,
}

// The sum of all bytes.
fn sum_of(bytes: &[u8]) -> u64 {
    let mut sum = 0u64;
    for byte in bytes {
        sum = sum.wrapping_add(u64::from(*byte));
    }
    sum
}

// The sum of the marked points.
fn sum_marked(points: &[u8], marks: &[bool]) -> u64 {
    let mut sum = 0u64;
    for (point, mark) in points.iter().zip(marks) {
        if *mark {
            sum = sum.wrapping_add(u64::from(*point));
        }
    }
    sum
}

fn check_found(stripe: &[u8], original: &[u8]) -> Result<()> {
    if stripe != original {
        return Err(anyhow!("another stripe is found"));
    }
    Ok(())
}

fn decode_rounds(
    scratch: &mut Scratch,
    scheme: &Scheme,
    answers: &[Share],
    rounds: u32,
    out: &mut [u8],
    blamed: &mut [bool],
) -> Result<()>
    requires room { scheme.now.n ≤ scratch.old.points }
    requires rising { Rises (indexes_of answers.now) }
    requires below { All (λ j. j < scheme.now.n) (indexes_of answers.now) }
    requires out { length out.old ≡ scheme.now.k * scheme.now.share }
    requires blamed { length blamed.old ≡ length answers.now }
{
    for _ in 0..rounds {
        if stripe(scratch, scheme, answers, out, blamed) != Nearness::Near {
            return Err(anyhow!("no stripe is near"));
        }
    }
    Ok(())
}

/// Decodes the stripe so many times. An error is that memory ran out, or that another stripe than the
/// original is found, or none.
pub fn decode_by_stripes(
    alloc: Global,
    scheme: &Scheme,
    answers: &[Share],
    original: &[u8],
    rounds: u32,
) -> Result<Found> {
    let indexes = indexes_in(alloc, answers)?;
    let points = indexes.as_slice();
    if !are_rising(points, scheme.n) {
        return Err(anyhow!("the indexes do not rise"));
    }
    let mut blamed = Vec::from_elem(alloc, false, answers.len())?;
    let mut scratch = Scratch::new(alloc, scheme).map_err(|_| anyhow!("out of memory"))?;
    let len = usize::from(scheme.k) * usize::from(scheme.share);
    let mut out = Vec::from_elem(alloc, 0, len)?;
    decode_rounds(
        &mut scratch,
        scheme,
        answers,
        rounds,
        out.as_mut_slice(),
        blamed.as_mut_slice(),
    )?;
    check_found(out.as_slice(), original)?;
    Ok(Found {
        sum: sum_of(out.as_slice()),
        blamed: sum_marked(points, &blamed),
        systems: scratch.solves(),
    })
}

// Reads a byte of each answer.
fn read_column(answers: &[Share], c: usize, values: &mut [u8])
    requires { length answers.now ≡ length values.old }
{
    for i in 0..values.len() {
        values[i] = answers[i].bytes.as_slice().get(c).copied().unwrap_or(0);
    }
}

fn write_column(column: &[u8], size: usize, c: usize, stripe: &mut [u8])
    requires { (length column.now ≤ 128) × (size ≤ 1024) × (c < size) }
{
    for l in 0..column.len() {
        if let Some(byte) = stripe.get_mut(l * size + c) {
            *byte = column[l];
        }
    }
}

fn decode_columns(
    scratch: &mut Scratch,
    scheme: &Scheme,
    answers: &[Share],
    points: &[u8],
    out: &mut [u8],
) -> Result<()>
    requires room { length points.now ≤ scratch.old.points }
    requires few { length answers.now ≤ 128 }
    requires answers { length answers.now ≡ length points.now }
    requires enough { scheme.now.k ≤ length points.now }
    requires rising { Rises points.now }
    ensures points { scratch.new.points ≡ scratch.old.points }
{
    let mut values_room = [0; 128];
    let mut data_room = [0; 128];
    let values = &mut values_room[..answers.len()];
    let data = &mut data_room[..usize::from(scheme.k)];
    let size = usize::from(scheme.share);
    for c in 0..size {
        read_column(answers, c, values);
        if column(scratch, points, values, scheme.k, data) != Column::Near {
            return Err(anyhow!("no codeword is near"));
        }
        write_column(data, size, c, out);
    }
    Ok(())
}

/// Decodes each column of the stripe, all of them so many times, and sums the stripe's bytes. The
/// errors are those of the other form.
pub fn decode_by_columns(
    alloc: Global,
    scheme: &Scheme,
    answers: &[Share],
    original: &[u8],
    rounds: u32,
) -> Result<u64> {
    if answers.len() > usize::from(scheme.n) || answers.len() < usize::from(scheme.k) {
        return Err(anyhow!("too many answers, or too few"));
    }
    let indexes = indexes_in(alloc, answers)?;
    let points = indexes.as_slice();
    if !are_rising(points, scheme.n) {
        return Err(anyhow!("the indexes do not rise"));
    }
    let mut scratch = Scratch::new(alloc, scheme).map_err(|_| anyhow!("out of memory"))?;
    let len = usize::from(scheme.k) * usize::from(scheme.share);
    let mut out = Vec::from_elem(alloc, 0, len)?;
    for _ in 0..rounds {
        decode_columns(&mut scratch, scheme, answers, points, out.as_mut_slice())?;
    }
    check_found(out.as_slice(), original)?;
    Ok(sum_of(out.as_slice()))
}
