// The plain form of the decoding of a stripe: each column by itself.
ghost use Rattle.std.specs.Prelude.{◌≡◌, ◌*◌, ◌<◌, ◌≤◌, length, All};
ghost use Rattle.bw_decode.specs.Near.{Rises};

use bw_decode::column::column;
use bw_decode::{Column, Nearness, Scratch};
use rs_stripe::encode_share;
use sat_base::{Scheme, Share};
use std::process::Abort;

// Byte `c` of each answer, or 0 where its length is wrong.
fn read_bytes(answers: &[Share], size: usize, c: usize, values: &mut [u8])
    requires column { c < size }
    requires lengths { length answers.now ≡ length values.old }
{
    for i in 0..values.len() {
        let bytes = answers[i].bytes.as_slice();
        values[i] = if bytes.len() == size { bytes[c] } else { 0 };
    }
}

fn write_column(column: &[u8], size: usize, c: usize, stripe: &mut [u8])
    requires { (length column.now ≤ 128) × (size ≤ 1024) × (c < size) }
{
    for l in 0..column.len() {
        if let Some(byte) = stripe.get_mut(l * size + c) {
            *byte = column[l];
        }
    }
}

/// Decodes each column, writes the stripe, encodes it again, and counts the answers that differ.
pub fn decode_columns(
    rt: &impl Abort,
    scratch: &mut Scratch,
    scheme: &Scheme,
    answers: &[Share],
    points: &[u8],
    out: &mut [u8],
    blamed: &mut [bool],
) -> Nearness
    requires room { length points.now ≤ scratch.old.points }
    requires few { length answers.now ≤ 128 }
    requires rising { Rises points.now }
    requires below { All (λ j. j < scheme.now.n) points.now }
    requires answers { length answers.now ≡ length points.now }
    requires blamed { length blamed.old ≡ length points.now }
    requires out { length out.old ≡ scheme.now.k * scheme.now.share }
{
    let k = usize::from(scheme.k);
    let size = usize::from(scheme.share);
    if answers.len() < k {
        return Nearness::Unclear;
    }
    let mut values_room = [0; 128];
    let mut data_room = [0; 128];
    let values = &mut values_room[..answers.len()];
    let data = &mut data_room[..k];
    for c in 0..size {
        read_bytes(answers, size, c, values);
        match column(scratch, points, values, scheme.k, data) {
            Column::Unclear => return Nearness::Unclear,
            Column::Near => write_column(data, size, c, out),
        }
    }
    let mut share = [0; 1024];
    let mut altered = 0;
    for i in 0..answers.len() {
        assert!(rt; answers[i].index < scheme.n);
        encode_share(scheme, out, answers[i].index, &mut share[..size]);
        blamed[i] = answers[i].bytes.as_slice() != &share[..size];
        if blamed[i] {
            altered += 1;
        }
    }
    if altered <= (answers.len() - k) / 2 {
        Nearness::Near
    } else {
        Nearness::Unclear
    }
}
