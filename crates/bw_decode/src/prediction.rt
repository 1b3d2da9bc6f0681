// The stripe that some of the answers predict, by sums of whole rows.
ghost use Rattle.std.specs.Prelude.{◌≡◌, ℕ, ◌+◌, ◌*◌, ◌<◌, ◌≤◌, List, length, slice_index, slice_index_or, get_or, false, not, count_by};
ghost use Rattle.sat_base.specs.declared.items.Share.{Share};
ghost use Rattle.gf256.specs.Field.{◌⊕◌, ◌⊗◌};
ghost use Rattle.gf256.specs.Sums.{total};
ghost use Rattle.gf_linear.specs.Polynomial.{Apart};
ghost use Rattle.bw_decode.specs.Near.{Rises};
ghost use Rattle.bw_decode.specs.Altered.{indexes_of};
ghost use Rattle.bw_decode.specs.Answers.{bytes_of, AreChosen, IsPredicted};

use crate::decoding::MOST_POINTS;
use gf256::mul_add;
use rs_stripe::{find_divisors, find_weights};
use sat_base::Share;

// Chooses the first answers that aren't marked.
fn choose_answers(blamed: &[bool], places: &mut [usize])
    requires enough { length places.old ≤ count_by (λ mark. not mark) blamed.now }
    ensures { AreChosen blamed.now places.new }
{
    let mut n = 0;
    for i in 0..blamed.len() {
        if n == places.len() {
            return;
        }
        if blamed[i] {
            continue;
        }
        places[n] = i;
        n += 1;
    }
}

// Reads the points of the chosen answers.
fn read_points(points: &[u8], places: &[usize], chosen: &mut [u8])
    requires within { (j : ℕ) → j < length places.now
        → slice_index places.now j < length points.now }
    requires lengths { length chosen.old ≡ length places.now }
    ensures { (j : ℕ) → j < length places.now
        → slice_index chosen.new j ≡ slice_index points.now (slice_index places.now j) }
{
    for j in 0..places.len() {
        chosen[j] = points[places[j]];
    }
}

// Adds `weight` times the bytes to the row. Where a row is one of the answers, all weights but one are
// 0.
fn add_multiple(row: &mut [u8], bytes: &[u8], weight: u8)
    requires { length row.old ≡ length bytes.now }
    ensures { (i : ℕ) → i < length bytes.now
        → slice_index row.new i ≡ slice_index row.old i ⊕ weight ⊗ slice_index bytes.now i }
{
    if weight == 0 {
        return;
    }
    mul_add(row, bytes, weight);
}

// Writes the linear combination of the chosen answers with these weights.
fn combine(answers: &[Share], places: &[usize], weights: &[u8], row: &mut [u8])
    requires lengths { length weights.now ≡ length places.now }
    requires within { (j : ℕ) → j < length places.now
        → slice_index places.now j < length answers.now }
    requires whole { (j : ℕ) (a : Share) → j < length places.now
        → length (get_or answers.now (slice_index places.now j) a).bytes ≡ length row.old }
    ensures { (c : ℕ) → c < length row.new → slice_index row.new c
        ≡ total (length places.now) (λ j. slice_index weights.now j
        ⊗ slice_index (bytes_of (length row.new) c answers.now) (slice_index places.now j)) }
{
    row.fill(0);
    for j in 0..places.len() {
        add_multiple(row, answers[places[j]].bytes.as_slice(), weights[j]);
    }
}

// Writes the rows of the stripe whose shares the chosen answers are. Each row has `size` bytes.
fn rebuild(answers: &[Share], places: &[usize], points: &[u8], size: usize, stripe: &mut [u8])
    requires few { length places.now ≤ 128 }
    requires short { size ≤ 1024 }
    requires lengths { length points.now ≡ length places.now }
    requires points { (j : ℕ) → j < length places.now → slice_index points.now j
        ≡ slice_index (indexes_of answers.now) (slice_index places.now j) }
    requires distinct { Apart (length points.now) (slice_index points.now) }
    requires within { (j : ℕ) → j < length places.now
        → slice_index places.now j < length answers.now }
    requires whole { (j : ℕ) (a : Share) → j < length places.now
        → length (get_or answers.now (slice_index places.now j) a).bytes ≡ size }
    requires stripe { length stripe.old ≡ length places.now * size }
    ensures { IsPredicted size answers.now places.now stripe.new }
{
    let mut divisors_room = [0; MOST_POINTS];
    let mut weights_room = [0; MOST_POINTS];
    let divisors = &mut divisors_room[..places.len()];
    let weights = &mut weights_room[..places.len()];
    find_divisors(points, divisors);
    for l in 0..places.len() {
        find_weights(points, divisors, l as u8, weights);
        combine(
            answers,
            places,
            weights,
            &mut stripe[l * size..l * size + size],
        );
    }
}

// Writes the stripe that the first answers that aren't marked predict: it has `k` rows of `size`
// bytes. `points` are the indexes of the answers.
pub(crate) fn predict(
    answers: &[Share],
    points: &[u8],
    blamed: &[bool],
    k: usize,
    size: usize,
    stripe: &mut [u8],
)
    requires few { k ≤ 128 }
    requires short { size ≤ 1024 }
    requires points { points.now ≡ indexes_of answers.now }
    requires rising { Rises points.now }
    requires blamed { length blamed.now ≡ length answers.now }
    requires enough { k ≤ count_by (λ mark. not mark) blamed.now }
    requires lengths { (i : ℕ) (a : Share) → i < length answers.now
        → slice_index_or blamed.now i false ≡ false
        → length (get_or answers.now i a).bytes ≡ size }
    requires stripe { length stripe.old ≡ k * size }
    ensures { (places : List ℕ) × (length places ≡ k) × AreChosen blamed.now places
        × IsPredicted size answers.now places stripe.new }
{
    let mut places_room = [0; MOST_POINTS];
    let mut points_room = [0; MOST_POINTS];
    let places = &mut places_room[..k];
    let chosen = &mut points_room[..k];
    choose_answers(blamed, places);
    read_points(points, places, chosen);
    rebuild(answers, places, chosen, size, stripe);
}
