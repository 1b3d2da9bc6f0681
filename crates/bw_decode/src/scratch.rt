ghost use Rattle.std.specs.Prelude.{◌≡◌, ℕ, ◌+◌, ◌-◌, ◌*◌, ◌/◌, ◌<◌, ◌≤◌, length, slice_index, slice_index_or, get_or, false, All, IfOk, IfSome, IfNone};
ghost use Rattle.std.specs.List.{range_with_len};
ghost use Rattle.sat_base.specs.declared.items.Share.{Share};
ghost use Rattle.sat_base.specs.Outside.{raised};
ghost use Rattle.bw_decode.specs.Room.{Room, IsEncoderOf};
ghost use Rattle.bw_decode.specs.Near.{IsNearData, Rises};
ghost use Rattle.bw_decode.specs.Altered.{indexes_of};
ghost use Rattle.bw_decode.specs.Answers.{AreRight, DisagreesIn};

use crate::answers::{find_disagreement, find_early_disagreement};
use crate::decoding::decode;
use crate::outcome::Column;
use gf_linear::Matrix;
use rs_stripe::Encoder;
use sat_base::{NoMemory, Scheme, Share};
use std::alloc::Global;
use std::marker::Model;

/// Room for decoding, which is used again and again.
#[derive(Drop)]
pub struct Scratch {
    scheme: Scheme,
    matrix: Matrix,
    // It makes all shares of the scheme.
    encoder: Encoder,
    solves: u64,
}

impl Model for Scratch {
    ghost Value = { Room };

    ghost view = { λ s. record { points = s.scheme.n; solves = s.solves } };

    ghost invariant = { λ s. (s.matrix.room ≡ s.scheme.n * (s.scheme.n + 1))
        × IsEncoderOf s.scheme.k s.scheme.share s.scheme.n s.encoder };
}

// The indexes of the shares below `n`.
fn indexes_below(alloc: Global, n: u8) -> Result<Vec<u8>, NoMemory>
    ensures { IfOk result (λ indexes. indexes.items ≡ range_with_len 0 n) }
{
    Ok((0..n).collect(alloc)?)
}

impl Scratch {
    /// Room for a decoding of as many answers as the scheme has shares. Its one error is want of
    /// memory.
    pub fn new(alloc: Global, scheme: &Scheme) -> Result<Scratch, NoMemory>
        ensures { IfOk result (λ s. s ≡ record { points = scheme.now.n; solves = 0 }) }
    {
        let points = usize::from(scheme.n);
        let matrix = Matrix::new(alloc, points, points + 1)?;
        let indexes = indexes_below(alloc, scheme.n)?;
        let encoder = Encoder::new(alloc, scheme, indexes.as_slice())?;
        Ok(Scratch {
            scheme: *scheme,
            matrix,
            encoder,
            solves: 0,
        })
    }

    /// How many linear systems were solved with it. The count stands still at 2^64 - 1.
    pub fn solves(&self) -> u64
        ensures { result ≡ self.now.solves }
    {
        self.solves
    }

    /// Decodes a column of which `radius` values may be wrong, and counts its system.
    pub(crate) fn decode(
        &mut self,
        radius: usize,
        points: &[u8],
        values: &[u8],
        out: &mut [u8],
    ) -> Column
        requires lengths { length points.now ≡ length values.now }
        requires rising { Rises points.now }
        requires size { (1 ≤ length out.old) × (length out.old ≤ length points.now) }
        requires room { length points.now ≤ self.old.points }
        requires radius { radius ≡ (length points.now - length out.old) / 2 }
        ensures points { self.new.points ≡ self.old.points }
        ensures solves { self.new.solves ≡ raised self.old.solves }
        ensures counted { self.old.solves ≤ self.new.solves }
        ensures near { result ≡ Column.Near → IsNearData (length points.now) (length out.new)
            (slice_index points.now) (slice_index values.now) (slice_index out.new) }
        ensures unclear { result ≡ Column.Unclear → (d : ℕ → ℕ)
            → IsNearData (length points.now) (length out.new)
            (slice_index points.now) (slice_index values.now) d → ⊥ }
    {
        self.solves = self.solves.saturating_add(1);
        decode(&mut self.matrix, radius, points, values, out)
    }

    /// Finds a column in which some answer that isn't marked is not the stripe's share. A stripe of the
    /// scheme that the room was made for is held by the encoder.
    pub(crate) fn find_disagreement(
        &mut self,
        scheme: &Scheme,
        answers: &[Share],
        blamed: &[bool],
        stripe: &[u8],
    ) -> Option<usize>
        requires stripe { length stripe.now ≡ scheme.now.k * scheme.now.share }
        requires points { All (λ j. j < scheme.now.n) (indexes_of answers.now) }
        requires blamed { length blamed.now ≡ length answers.now }
        requires lengths { (i : ℕ) (a : Share) → i < length answers.now
            → slice_index_or blamed.now i false ≡ false
            → length (get_or answers.now i a).bytes ≡ scheme.now.share }
        ensures points { self.new.points ≡ self.old.points }
        ensures solves { self.new.solves ≡ self.old.solves }
        ensures some { IfSome result (λ c.
            DisagreesIn scheme.now.k scheme.now.share stripe.now answers.now blamed.now c) }
        ensures none { IfNone result
            (AreRight scheme.now.k scheme.now.share stripe.now answers.now blamed.now) }
    {
        if self.scheme != *scheme {
            return find_disagreement(None, scheme, answers, blamed, stripe);
        }
        let early = find_early_disagreement(scheme, answers, blamed, stripe);
        if early.is_some() {
            return early;
        }
        self.encoder.hold(stripe);
        find_disagreement(Some(&self.encoder), scheme, answers, blamed, stripe)
    }
}
