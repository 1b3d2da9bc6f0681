// Many shares of stripe after stripe.
ghost use Rattle.std.specs.Prelude.{◌≡◌, ◌*◌, ◌<◌, ◌≤◌, [], length, slice_index, IfOk};
ghost use Rattle.rs_stripe.specs.Segment.{share_of};
ghost use Rattle.rs_stripe.specs.Encoding.{filled};
ghost use Rattle.rs_stripe.specs.Weights.{AreMatrix};

use crate::interpolation::MOST_SHARES;
use crate::weights::{find_share_divisors, find_share_matrix};
use gf256::{combine, split};
use sat_base::{NoMemory, Scheme};
use std::alloc::Global;
use std::marker::Model;

/// Makes the shares of some indexes of one stripe after another. Their weights are found once for all
/// stripes, and a stripe's bytes are cut into halves once for all shares. Contracts see the scheme's
/// numbers, the indexes and the stripe that it holds.
#[derive(Drop)]
pub struct Encoder {
    k: usize,
    size: usize,
    indexes: Vec<u8>,
    // A row for each index.
    weights: Vec<u8>,
    low: Vec<u8>,
    high: Vec<u8>,
}

impl Model for Encoder {
    ghost use Rattle.rs_stripe.specs.Encoding.{Encoding};

    ghost Value = { Encoding };

    ghost use Rattle.rs_stripe.specs.Held.{encoding_of, IsHeld};

    ghost view = { encoding_of };

    ghost invariant = { IsHeld };
}

// The weights of the shares of these indexes, a row for each.
fn share_weights(alloc: Global, k: usize, indexes: &[u8]) -> Result<Vec<u8>, NoMemory>
    requires { k ≤ 128 }
    ensures len { IfOk result (λ weights. length weights.items ≡ length indexes.now * k) }
    ensures matrix { IfOk result (λ weights. AreMatrix k indexes.now weights.items) }
{
    let mut room = [0; MOST_SHARES];
    let divisors = &mut room[..k];
    find_share_divisors(divisors);
    let Some(len) = indexes.len().checked_mul(k) else {
        return Err(NoMemory);
    };
    let mut weights = Vec::from_elem(alloc, 0, len)?;
    find_share_matrix(divisors, indexes, weights.as_mut_slice());
    Ok(weights)
}

impl Encoder {
    /// An encoder of the shares of these indexes. It holds a stripe of zeros. Its one error is want of
    /// memory.
    pub fn new(alloc: Global, scheme: &Scheme, indexes: &[u8]) -> Result<Encoder, NoMemory>
        ensures k { IfOk result (λ encoder. encoder.k ≡ scheme.now.k) }
        ensures size { IfOk result (λ encoder. encoder.size ≡ scheme.now.share) }
        ensures indexes { IfOk result (λ encoder. encoder.indexes ≡ indexes.now) }
        ensures stripe { IfOk result (λ encoder. encoder.stripe
            ≡ filled (scheme.now.k * scheme.now.share) []) }
    {
        let k = usize::from(scheme.k);
        let size = usize::from(scheme.share);
        let weights = share_weights(alloc, k, indexes)?;
        let low = Vec::from_elem(alloc, 0, k * size)?;
        let high = Vec::from_elem(alloc, 0, k * size)?;
        Ok(Encoder {
            k,
            size,
            indexes: Vec::from_slice(alloc, indexes)?,
            weights,
            low,
            high,
        })
    }

    /// The bytes of a share.
    pub fn size(&self) -> usize
        ensures { result ≡ self.now.size }
    {
        self.size
    }

    /// Holds this stripe from now on. Bytes that it lacks at its end count as zeros. Takes no memory.
    pub fn hold(&mut self, stripe: &[u8])
        requires { length stripe.now ≤ self.old.k * self.old.size }
        ensures k { self.new.k ≡ self.old.k }
        ensures size { self.new.size ≡ self.old.size }
        ensures indexes { self.new.indexes ≡ self.old.indexes }
        ensures stripe { self.new.stripe ≡ filled (self.old.k * self.old.size) stripe.now }
    {
        split(stripe, self.low.as_mut_slice(), self.high.as_mut_slice());
    }

    /// Writes the share of the stripe that it holds whose index stands at this place of its indexes.
    pub fn write_share(&self, place: usize, out: &mut [u8])
        requires place { place < length self.now.indexes }
        requires out { length out.old ≡ self.now.size }
        ensures { out.new ≡ share_of self.now.k self.now.size self.now.stripe
            (slice_index self.now.indexes place) }
    {
        let start = place * self.k;
        let weights = &self.weights.as_slice()[start..start + self.k];
        combine(weights, self.low.as_slice(), self.high.as_slice(), out);
    }
}
