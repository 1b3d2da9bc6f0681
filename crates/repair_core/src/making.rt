// What the stripes so far make: which pieces were altered, and the shares of the fresh ones.
ghost use Rattle.std.specs.Prelude.{◌≡◌, ◌+◌, ◌*◌, ◌^◌, ◌<◌, ◌≤◌, ◌||◌, ℕ, Bool, false, length, map, filter, slice_index, slice_index_or, All, replicate, IfOk};
ghost use Rattle.sat_base.specs.declared.items.Share.{Share};
ghost use Rattle.sat_base.specs.Scheme.{stripe_count};
ghost use Rattle.bw_decode.specs.Altered.{indexes_of};
ghost use Rattle.repair_core.specs.Indexes.{has_index, place_indexes};
ghost use Rattle.repair_core.specs.Room.{IsWritten, IsMade, IsEncoder, marked_of};

use crate::plan::RepairPlan;
use crate::rebuilt::Remade;
use rs_stripe::Encoder;
use sat_base::{At, Indexes, Items, NoMemory, Scheme, Share};
use std::alloc::Global;
use std::mem::replace;

/// What the stripes so far make.
#[derive(Drop)]
pub(crate) struct Made {
    /// The stripes in all.
    pub whole: usize,
    /// The stripes that are finished.
    pub done: usize,
    /// By index, whether the piece was altered.
    pub marks: Vec<bool>,
    /// Whole pieces, of which the finished stripes' shares are written.
    pub fresh: Vec<Share>,
    /// It makes their shares.
    pub encoder: Encoder,
}

/// The indexes of these places, in order.
pub(crate) fn indexes_at(alloc: Global, places: &[At]) -> Result<Vec<u8>, NoMemory>
    ensures { IfOk result (λ indexes. indexes.items ≡ place_indexes places.now) }
{
    Ok(places.iter().map(|place| place.index).collect(alloc)?)
}

// Pieces of `len` bytes for the targets, of which nothing is written.
fn blank_pieces(alloc: Global, targets: &[At], len: usize) -> Result<Vec<Share>, NoMemory>
    ensures indexes { IfOk result (λ fresh. indexes_of fresh.items ≡ place_indexes targets.now) }
    ensures long { IfOk result (λ fresh. All (λ piece. length piece.bytes ≡ len) fresh.items) }
{
    let mut fresh = Vec::with_capacity(alloc, targets.len())?;
    for target in targets {
        let bytes = Items::of(Vec::from_elem(alloc, 0, len)?);
        fresh.push(Share {
            index: target.index,
            bytes,
        })?;
    }
    Ok(fresh)
}

// The marked ones of the indexes.
fn keep_marked(mut indexes: Vec<u8>, marks: &[bool]) -> Indexes
    requires { length marks.now ≡ 256 }
    ensures { result ≡ marked_of marks.now indexes.items }
{
    indexes.retain(|index| marks[usize::from(*index)]);
    Items::of(indexes)
}

impl Made {
    /// Nothing, with room for the fresh pieces of the plan. It fails only where memory runs out.
    pub fn new(alloc: Global, scheme: &Scheme, plan: &RepairPlan) -> Result<Made, NoMemory>
        requires len { plan.now.len ≤ 2 ^ 40 }
        requires targets { All (λ index. index < scheme.now.n) (place_indexes plan.now.targets) }
        ensures made { IfOk result (λ made. IsMade scheme.now.share scheme.now.n made.whole made.done made.marks.items made.fresh.items) }
        ensures whole { IfOk result (λ made. made.whole ≡ stripe_count scheme.now.k scheme.now.share plan.now.len) }
        ensures done { IfOk result (λ made. made.done ≡ 0) }
        ensures marks { IfOk result (λ made. made.marks.items ≡ replicate 256 false) }
        ensures indexes { IfOk result (λ made. indexes_of made.fresh.items ≡ place_indexes plan.now.targets) }
        ensures encoder { IfOk result (λ made. IsEncoder scheme.now.k scheme.now.share made.fresh.items made.encoder) }
    {
        let whole = scheme.stripes(plan.len) as usize;
        let len = scheme.piece_len(plan.len) as usize;
        let marks = Vec::from_elem(alloc, false, 256)?;
        let targets = plan.targets.as_slice();
        let fresh = blank_pieces(alloc, targets, len)?;
        let indexes = indexes_at(alloc, targets)?;
        let encoder = Encoder::new(alloc, scheme, indexes.as_slice())?;
        Ok(Made {
            whole,
            done: 0,
            marks,
            fresh,
            encoder,
        })
    }

    /// The pieces, and those of the indexes that are marked. Takes no memory.
    pub fn finish(self, indexes: Vec<u8>) -> Remade
        requires { length self.marks.items ≡ 256 }
        ensures blamed { result.blamed ≡ marked_of self.marks.items indexes.items }
        ensures fresh { result.fresh ≡ self.fresh.items }
    {
        let blamed = keep_marked(indexes, self.marks.as_slice());
        Remade {
            blamed,
            fresh: Items::of(self.fresh),
        }
    }
}

/// Marks the indexes of the altered answers, beside those that are marked.
pub(crate) fn mark(marks: &mut [bool], answers: &[Share], altered: &[bool])
    requires altered { length altered.now ≡ length answers.now }
    requires below { All (λ index. index < length marks.old) (indexes_of answers.now) }
    ensures { (test : Share → Bool) → altered.now ≡ map test answers.now → (index : ℕ)
        → slice_index_or marks.new index false
        ≡ (slice_index_or marks.old index false || has_index (indexes_of (filter test answers.now)) index) }
{
    for i in 0..altered.len() {
        if altered[i] {
            marks[usize::from(answers[i].index)] = true;
        }
    }
}

// Writes the share at this place of the encoder's indexes behind those of `done` stripes.
fn write_share(alloc: Global, encoder: &Encoder, place: usize, piece: &mut Share, done: usize)
    requires place { place < length encoder.now.indexes }
    requires index { piece.old.index ≡ slice_index encoder.now.indexes place }
    requires few { done < 2 ^ 40 }
    requires room { (done + 1) * encoder.now.size ≤ length piece.old.bytes }
    ensures { IsWritten encoder.now.k encoder.now.size done encoder.now.stripe piece.old piece.new }
{
    let size = encoder.size();
    let mut bytes = replace(&mut piece.bytes, Items::of(Vec::new(alloc))).into_vec();
    let out = &mut bytes.as_mut_slice()[done * size..done * size + size];
    encoder.write_share(place, out);
    piece.bytes = Items::of(bytes);
}

/// Writes the stripe's share of each piece.
pub(crate) fn write_shares(
    alloc: Global,
    encoder: &mut Encoder,
    stripe: &[u8],
    fresh: &mut [Share],
    done: usize,
)
    requires stripe { length stripe.now ≡ encoder.old.k * encoder.old.size }
    requires encoder { encoder.old.indexes ≡ indexes_of fresh.old }
    requires few { done < 2 ^ 40 }
    requires room { All (λ piece. (done + 1) * encoder.old.size ≤ length piece.bytes) fresh.old }
    ensures written { (i : ℕ) (d : Share) → i < length fresh.old → IsWritten encoder.old.k encoder.old.size done stripe.now
        (slice_index_or fresh.old i d) (slice_index_or fresh.new i d) }
    ensures encoder { IsEncoder encoder.old.k encoder.old.size fresh.new encoder.new }
{
    encoder.hold(stripe);
    for i in 0..fresh.len() {
        write_share(alloc, encoder, i, &mut fresh[i], done);
    }
}
