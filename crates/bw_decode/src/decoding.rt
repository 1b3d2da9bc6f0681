// One column, by the method of Berlekamp and Welch.
ghost use Rattle.std.specs.Prelude.{◌≡◌, ◌≢◌, ℕ, ◌+◌, ◌-◌, ◌*◌, ◌/◌, ◌<◌, ◌≤◌, length, slice_index};
ghost use Rattle.gf256.specs.Field.{◌⊕◌, ◌⊗◌, power};
ghost use Rattle.gf256.specs.Sums.{total};
ghost use Rattle.gf_linear.specs.Table.{SameShape, at};
ghost use Rattle.gf_linear.specs.Polynomial.{Apart, horner};
ghost use Rattle.gf_linear.specs.Lagrange.{interpolated};
ghost use Rattle.gf_linear.specs.Differences.{differences};
ghost use Rattle.rs_stripe.specs.Weights.{AreDivisors};
ghost use Rattle.bw_decode.specs.Near.{IsNearData, Rises};
ghost use Rattle.bw_decode.specs.Equations.{coefficient, IsLocator};

use crate::outcome::Column;
use gf_linear::{Matrix, Solved, solve};
use gf256::{add, mul};
use rs_stripe::{find_divisors, find_weights, interpolate_with};

/// The most points of a column, which is the most shares of a stripe.
pub(crate) const MOST_POINTS: usize = 128;

// Multiplies each byte by its factor.
fn multiply_each(bytes: &mut [u8], factors: &[u8])
    requires { length bytes.old ≡ length factors.now }
    ensures { (j : ℕ) → j < length factors.now
        → slice_index bytes.new j ≡ slice_index bytes.old j ⊗ slice_index factors.now j }
{
    for j in 0..factors.len() {
        bytes[j] = mul(bytes[j], factors[j]);
    }
}

fn sum_of(bytes: &[u8]) -> u8
    ensures { result ≡ total (length bytes.now) (slice_index bytes.now) }
{
    let mut sum = 0;
    for j in 0..bytes.len() {
        sum = add(sum, bytes[j]);
    }
    sum
}

// Writes a row: the sum of the terms and `y`, and then again and again that of each of these times its
// point. It uses the terms up.
fn write_row(matrix: &mut Matrix, i: usize, terms: &mut [u8], points: &[u8], x: u8, y: u8)
    requires row { i < matrix.old.rows }
    requires lengths { length terms.old ≡ length points.now }
    ensures shape { SameShape matrix.old matrix.new }
    ensures row { (c : ℕ) → c < matrix.old.cols → at matrix.new i c
        ≡ total (length points.now) (λ j. slice_index terms.old j
        ⊗ power (slice_index points.now j) c) ⊕ y ⊗ power x c }
    ensures others { (r c : ℕ) → r ≢ i → c < matrix.old.cols
        → at matrix.new r c ≡ at matrix.old r c }
{
    let mut own = y;
    for c in 0..matrix.cols() {
        matrix.set(i, c, add(sum_of(terms), own));
        multiply_each(terms, points);
        own = mul(own, x);
    }
}

// Writes the equation of the value `y` at `x`, where the first points have these divisors and values.
fn write_equation(
    matrix: &mut Matrix,
    i: usize,
    points: &[u8],
    divisors: &[u8],
    values: &[u8],
    x: u8,
    y: u8,
)
    requires row { i < matrix.old.rows }
    requires few { length points.now ≤ 128 }
    requires lengths { length points.now ≡ length values.now }
    requires distinct { Apart (length points.now) (slice_index points.now) }
    requires found { length divisors.now ≡ length points.now }
    requires divisors { AreDivisors (length points.now) (slice_index points.now)
        (slice_index divisors.now) }
    ensures shape { SameShape matrix.old matrix.new }
    ensures row { (c : ℕ) → c < matrix.old.cols → at matrix.new i c
        ≡ coefficient (length points.now) (slice_index points.now) (slice_index values.now) x y c }
    ensures others { (r c : ℕ) → r ≢ i → c < matrix.old.cols
        → at matrix.new r c ≡ at matrix.old r c }
{
    let mut room = [0; MOST_POINTS];
    let terms = &mut room[..points.len()];
    find_weights(points, divisors, x, terms);
    multiply_each(terms, values);
    write_row(matrix, i, terms, points, x, y);
}

// Writes the equations of the other points and their values, where the first have these values.
fn write_system(
    matrix: &mut Matrix,
    points: &[u8],
    values: &[u8],
    other_points: &[u8],
    other_values: &[u8],
    cols: usize,
)
    requires lengths { length points.now ≡ length values.now }
    requires others { length other_points.now ≡ length other_values.now }
    requires few { (length points.now ≤ 128) × (length other_points.now ≤ 128) × (cols ≤ 129) }
    requires distinct { Apart (length points.now) (slice_index points.now) }
    requires room { length other_points.now * cols ≤ matrix.old.room }
    ensures rows { matrix.new.rows ≡ length other_points.now }
    ensures cols { matrix.new.cols ≡ cols }
    ensures room { matrix.new.room ≡ matrix.old.room }
    ensures entries { (i c : ℕ) → i < length other_points.now → c < cols → at matrix.new i c
        ≡ coefficient (length points.now) (slice_index points.now) (slice_index values.now)
        (slice_index other_points.now i) (slice_index other_values.now i) c }
{
    let mut room = [0; MOST_POINTS];
    let divisors = &mut room[..points.len()];
    find_divisors(points, divisors);
    matrix.reset(other_points.len(), cols);
    for i in 0..other_points.len() {
        write_equation(
            matrix,
            i,
            points,
            divisors,
            values,
            other_points[i],
            other_values[i],
        );
    }
}

// The value at `x` of the polynomial with these coefficients and the leading coefficient 1, by
// Horner's rule.
fn monic_at(coefficients: &[u8], x: u8) -> u8
    ensures { result ≡ horner 1 coefficients.now x }
{
    let mut value = 1;
    for i in (0..coefficients.len()).rev() {
        value = add(coefficients[i], mul(x, value));
    }
    value
}

// Takes the first points at which the locator is not 0, with their values, until `chosen` is full.
fn choose(
    points: &[u8],
    values: &[u8],
    locator: &[u8],
    chosen: &mut [u8],
    chosen_values: &mut [u8],
) -> usize
    requires lengths { length points.now ≡ length values.now }
    requires room { length chosen.old ≡ length chosen_values.old }
    requires distinct { Apart (length points.now) (slice_index points.now) }
    ensures within { result ≤ length chosen.new }
    ensures from { (j : ℕ) → j < result → (i : ℕ) × (i < length points.now)
        × (slice_index chosen.new j ≡ slice_index points.now i)
        × (slice_index chosen_values.new j ≡ slice_index values.now i)
        × (horner 1 locator.now (slice_index points.now i) ≢ 0) }
    ensures apart { Apart result (slice_index chosen.new) }
    ensures all { result < length chosen.new → differences (length points.now)
        (λ i. horner 1 locator.now (slice_index points.now i)) (λ i. 0) ≡ result }
{
    let mut n = 0;
    for i in 0..points.len() {
        if n == chosen.len() {
            return n;
        }
        let v = monic_at(locator, points[i]);
        if v == 0 {
            continue;
        }
        chosen[n] = points[i];
        chosen_values[n] = values[i];
        n += 1;
    }
    n
}

// At how many points the polynomial through the chosen ones has another value.
fn count_errors(
    chosen: &[u8],
    divisors: &[u8],
    chosen_values: &[u8],
    points: &[u8],
    values: &[u8],
) -> usize
    requires lengths { length points.now ≡ length values.now }
    requires few { length chosen.now ≤ 128 }
    requires chosen { length chosen.now ≡ length chosen_values.now }
    requires distinct { Apart (length chosen.now) (slice_index chosen.now) }
    requires found { length divisors.now ≡ length chosen.now }
    requires divisors { AreDivisors (length chosen.now) (slice_index chosen.now)
        (slice_index divisors.now) }
    ensures { result ≡ differences (length points.now) (λ i. interpolated (length chosen.now)
        (slice_index chosen.now) (slice_index chosen_values.now) (slice_index points.now i))
        (slice_index values.now) }
{
    let mut count = 0;
    for i in 0..points.len() {
        if interpolate_with(chosen, divisors, chosen_values, points[i]) == values[i] {
            continue;
        }
        count += 1;
    }
    count
}

// Writes the values at 0, 1 and so on of the polynomial through the points.
fn write_data(points: &[u8], divisors: &[u8], values: &[u8], out: &mut [u8])
    requires lengths { length points.now ≡ length values.now }
    requires few { length points.now ≤ 128 }
    requires distinct { Apart (length points.now) (slice_index points.now) }
    requires found { length divisors.now ≡ length points.now }
    requires divisors { AreDivisors (length points.now) (slice_index points.now)
        (slice_index divisors.now) }
    requires size { length out.old ≤ 128 }
    ensures { (j : ℕ) → j < length out.new → slice_index out.new j
        ≡ interpolated (length points.now) (slice_index points.now) (slice_index values.now) j }
{
    for j in 0..out.len() {
        out[j] = interpolate_with(points, divisors, values, j as u8);
    }
}

// Reads the codeword off where the locator is not 0, and takes it if it is near.
fn read_codeword(
    locator: &[u8],
    radius: usize,
    points: &[u8],
    values: &[u8],
    out: &mut [u8],
) -> Column
    requires lengths { length points.now ≡ length values.now }
    requires distinct { Apart (length points.now) (slice_index points.now) }
    requires size { (1 ≤ length out.old) × (length out.old ≤ 128) }
    requires radius { radius ≡ (length points.now - length out.old) / 2 }
    requires locator { IsLocator (length points.now) (length out.old)
        (slice_index points.now) (slice_index values.now) locator.now }
    ensures near { result ≡ Column.Near → IsNearData (length points.now) (length out.new)
        (slice_index points.now) (slice_index values.now) (slice_index out.new) }
    ensures unclear { result ≡ Column.Unclear → (d : ℕ → ℕ)
        → IsNearData (length points.now) (length out.new)
        (slice_index points.now) (slice_index values.now) d → ⊥ }
{
    let mut points_room = [0; MOST_POINTS];
    let mut values_room = [0; MOST_POINTS];
    let mut divisors_room = [0; MOST_POINTS];
    let chosen = &mut points_room[..out.len()];
    let chosen_values = &mut values_room[..out.len()];
    let divisors = &mut divisors_room[..out.len()];
    let found = choose(points, values, locator, chosen, chosen_values);
    if found < out.len() {
        return Column::Unclear;
    }
    find_divisors(chosen, divisors);
    if count_errors(chosen, divisors, chosen_values, points, values) > radius {
        return Column::Unclear;
    }
    write_data(chosen, divisors, chosen_values, out);
    Column::Near
}

/// Decodes a column of which `radius` values may be wrong.
pub(crate) fn decode(
    matrix: &mut Matrix,
    radius: usize,
    points: &[u8],
    values: &[u8],
    out: &mut [u8],
) -> Column
    requires lengths { length points.now ≡ length values.now }
    requires rising { Rises points.now }
    requires size { (1 ≤ length out.old) × (length out.old ≤ length points.now) }
    requires few { length points.now ≤ 128 }
    requires room { length points.now * (length points.now + 1) ≤ matrix.old.room }
    requires radius { radius ≡ (length points.now - length out.old) / 2 }
    ensures room { matrix.new.room ≡ matrix.old.room }
    ensures near { result ≡ Column.Near → IsNearData (length points.now) (length out.new)
        (slice_index points.now) (slice_index values.now) (slice_index out.new) }
    ensures unclear { result ≡ Column.Unclear → (d : ℕ → ℕ)
        → IsNearData (length points.now) (length out.new)
        (slice_index points.now) (slice_index values.now) d → ⊥ }
{
    let width = out.len() + radius;
    let mut room = [0; MOST_POINTS];
    let unknowns = &mut room[..radius];
    write_system(
        matrix,
        &points[..width],
        &values[..width],
        &points[width..],
        &values[width..],
        radius + 1,
    );
    match solve(matrix, unknowns) {
        Solved::NoSolution => Column::Unclear,
        Solved::One => read_codeword(unknowns, radius, points, values, out),
    }
}
