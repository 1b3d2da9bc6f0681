ghost use Rattle.std.specs.Prelude.{◌≡◌, ℕ, ◌+◌, ◌-◌, ◌*◌, ◌/◌, ◌<◌, ◌≤◌, List, length, map, All};
ghost use Rattle.bw_decode.specs.Near.{IsNear, Rises};
ghost use Rattle.bw_decode.specs.Altered.{is_altered, indexes_of};
ghost use Rattle.bw_decode.specs.Answers.{marked, AreKnown, AreRight};

use crate::answers::{count_marked, mark_off_codeword, mark_wrong_lengths, read_indexes};
use crate::column::column;
use crate::combination::read_disagreement;
use crate::decoding::MOST_POINTS;
use crate::outcome::{Column, Nearness};
use crate::prediction::predict;
use crate::scratch::Scratch;
use sat_base::{Scheme, Share};

// What one round of the decoding finds.
#[derive(Clone, Copy)]
enum Round {
    // The answers that aren't marked are shares of one stripe.
    Found,
    // No stripe is near.
    Unclear,
    // More answers are known to be altered.
    Blamed,
}

// Tries the stripe that the unmarked answers predict. Where one of them disagrees, it decodes a
// combination of the columns, or one of them, to mark more.
fn decode_round(
    scratch: &mut Scratch,
    scheme: &Scheme,
    answers: &[Share],
    points: &[u8],
    out: &mut [u8],
    blamed: &mut [bool],
) -> Round
    requires room { length answers.now ≤ scratch.old.points }
    requires few { length answers.now ≤ 128 }
    requires points { points.now ≡ indexes_of answers.now }
    requires rising { Rises points.now }
    requires below { All (λ j. j < scheme.now.n) points.now }
    requires enough { scheme.now.k ≤ length answers.now }
    requires out { length out.old ≡ scheme.now.k * scheme.now.share }
    requires blamed { length blamed.old ≡ length answers.now }
    requires known { AreKnown scheme.now.k scheme.now.share answers.now blamed.old }
    requires few_marked { marked blamed.old ≤ (length answers.now - scheme.now.k) / 2 }
    ensures points { scratch.new.points ≡ scratch.old.points }
    ensures solves { scratch.old.solves ≤ scratch.new.solves }
    ensures one_system { scratch.new.solves ≤ scratch.old.solves + 1 }
    ensures known { AreKnown scheme.now.k scheme.now.share answers.now blamed.new }
    ensures found { result ≡ Round.Found → blamed.new ≡ blamed.old
        × AreRight scheme.now.k scheme.now.share out.new answers.now blamed.new }
    ensures no_system { result ≡ Round.Found → scratch.new.solves ≡ scratch.old.solves }
    ensures unclear { result ≡ Round.Unclear → (s : List ℕ)
        → IsNear scheme.now.k scheme.now.share s answers.now → ⊥ }
    ensures blamed { result ≡ Round.Blamed → marked blamed.old < marked blamed.new }
{
    let k = usize::from(scheme.k);
    let size = usize::from(scheme.share);
    predict(answers, points, blamed, k, size, out);
    let Some(c) = scratch.find_disagreement(scheme, answers, blamed, out) else {
        return Round::Found;
    };
    let mut values_room = [0; MOST_POINTS];
    let mut data_room = [0; MOST_POINTS];
    let values = &mut values_room[..answers.len()];
    let data = &mut data_room[..k];
    read_disagreement(scheme, answers, blamed, out, c, values);
    match column(scratch, points, values, scheme.k, data) {
        Column::Unclear => Round::Unclear,
        Column::Near => {
            mark_off_codeword(scheme, data, points, values, blamed);
            Round::Blamed
        }
    }
}

// Decodes, where the marks are those of the answers of wrong length.
fn decode_rounds(
    scratch: &mut Scratch,
    scheme: &Scheme,
    answers: &[Share],
    points: &[u8],
    out: &mut [u8],
    blamed: &mut [bool],
) -> Nearness
    requires room { length answers.now ≤ scratch.old.points }
    requires few { length answers.now ≤ 128 }
    requires points { points.now ≡ indexes_of answers.now }
    requires rising { Rises points.now }
    requires below { All (λ j. j < scheme.now.n) points.now }
    requires enough { scheme.now.k ≤ length answers.now }
    requires out { length out.old ≡ scheme.now.k * scheme.now.share }
    requires blamed { length blamed.old ≡ length answers.now }
    requires known { AreKnown scheme.now.k scheme.now.share answers.now blamed.old }
    ensures near { result ≡ Nearness.Near
        → IsNear scheme.now.k scheme.now.share out.new answers.now }
    ensures blamed { result ≡ Nearness.Near → blamed.new
        ≡ map (is_altered scheme.now.k scheme.now.share out.new) answers.now }
    ensures unclear { result ≡ Nearness.Unclear → (s : List ℕ)
        → IsNear scheme.now.k scheme.now.share s answers.now → ⊥ }
    ensures solves { scratch.old.solves ≤ scratch.new.solves }
    ensures few_solves { scratch.new.solves
        ≤ scratch.old.solves + ((length answers.now - scheme.now.k) / 2 + 1) }
    ensures points { scratch.new.points ≡ scratch.old.points }
{
    let radius = (answers.len() - usize::from(scheme.k)) / 2;
    'rounds: while count_marked(blamed) <= radius {
        match decode_round(scratch, scheme, answers, points, out, blamed) {
            Round::Found => return Nearness::Near,
            Round::Unclear => return Nearness::Unclear,
            Round::Blamed => {}
        }
    }
    Nearness::Unclear
}

/// Decodes a stripe from r answers, some of which may be altered: finds the stripe of which all but
/// (r - k) / 2 answers at most are shares, writes it to `out` as `k` rows, one after another, and
/// marks in `blamed` just the answers that are not its shares. An answer of wrong length is none.
/// What `out` and `blamed` hold after `Nearness::Unclear` is left open. It takes no memory.
///
/// The room was made for this scheme, or for one with at least as many shares. The indexes of the
/// answers rise.
pub fn stripe(
    scratch: &mut Scratch,
    scheme: &Scheme,
    answers: &[Share],
    out: &mut [u8],
    blamed: &mut [bool],
) -> Nearness
    requires room { scheme.now.n ≤ scratch.old.points }
    requires rising { Rises (indexes_of answers.now) }
    requires below { All (λ j. j < scheme.now.n) (indexes_of answers.now) }
    requires out { length out.old ≡ scheme.now.k * scheme.now.share }
    requires blamed { length blamed.old ≡ length answers.now }
    ensures near { result ≡ Nearness.Near
        → IsNear scheme.now.k scheme.now.share out.new answers.now }
    ensures blamed { result ≡ Nearness.Near → blamed.new
        ≡ map (is_altered scheme.now.k scheme.now.share out.new) answers.now }
    ensures unclear { result ≡ Nearness.Unclear → (s : List ℕ)
        → IsNear scheme.now.k scheme.now.share s answers.now → ⊥ }

    // How many systems were solved.
    ensures solves { scratch.old.solves ≤ scratch.new.solves }
    ensures few_solves { scratch.new.solves
        ≤ scratch.old.solves + ((length answers.now - scheme.now.k) / 2 + 1) }
    ensures no_solves { length answers.now < scheme.now.k
        → scratch.new.solves ≡ scratch.old.solves }
    ensures points { scratch.new.points ≡ scratch.old.points }
{
    if answers.len() < usize::from(scheme.k) {
        return Nearness::Unclear;
    }
    let mut points_room = [0; MOST_POINTS];
    let points = &mut points_room[..answers.len()];
    read_indexes(answers, points);
    mark_wrong_lengths(answers, usize::from(scheme.share), blamed);
    decode_rounds(scratch, scheme, answers, points, out, blamed)
}
