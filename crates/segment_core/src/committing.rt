ghost use Rattle.std.specs.Prelude.{◌≡◌, ◌≢◌, ◌↔◌, ◌≤◌, length, find, nat_le, Some, Err, IfOk};
ghost use Rattle.segment_core.specs.Places.{IsOffer};
ghost use Rattle.segment_core.specs.Commit.{first_repeated, refusal, chosen};
ghost use Rattle.segment_core.specs.declared.committing.CommitErr.{CommitErr};

use crate::segment::Segment;
use sat_base::{At, Items, NoMemory, Scheme};
use std::alloc::{AllocError, Global};

/// Why a segment isn't committed: the first of these that holds.
#[derive(Clone, Copy, Debug, PartialEq, Eq)]
pub enum CommitErr {
    /// No place was offered for this index, the first such one.
    NotOffered { index: u8 },
    /// This index comes again, as the first one that does.
    Repeated { index: u8 },
    /// There are fewer indexes than pieces wanted.
    TooFew { have: u8, need: u8 },
    /// There is no memory for the pieces.
    NoMemory,
}

// The first index that equals an earlier one. Among indexes below n one stands within the first n + 1, if any
// does, so this takes at most n steps of n.
fn first_repeated(indexes: &[u8]) -> Option<u8>
    ensures { result ≡ first_repeated indexes.now }
{
    for (i, index) in indexes.iter().enumerate() {
        if indexes[..i].contains(index) {
            return Some(*index);
        }
    }
    None
}

// The first index that isn't below n.
fn first_not_below(n: u8, indexes: &[u8]) -> Option<u8>
    ensures { result ≡ find (λ index. nat_le n index) indexes.now }
{
    indexes.iter().copied().find(|index| *index >= n)
}

// Why these indexes are refused, if they are.
fn refusal(scheme: &Scheme, indexes: &[u8]) -> Option<CommitErr>
    ensures { result ≡ refusal scheme.now.n scheme.now.o indexes.now }
{
    if let Some(index) = first_not_below(scheme.n, indexes) {
        return Some(CommitErr::NotOffered { index });
    }
    if let Some(index) = first_repeated(indexes) {
        return Some(CommitErr::Repeated { index });
    }
    if indexes.len() < scheme.o as usize {
        return Some(CommitErr::TooFew {
            have: indexes.len() as u8,
            need: scheme.o,
        });
    }
    None
}

// The offered places of these indexes.
fn chosen(alloc: Global, offered: &[At], indexes: &[u8]) -> Result<Vec<At>, AllocError>
    ensures { IfOk result (λ pieces. pieces.items ≡ chosen indexes.now offered.now) }
{
    offered
        .iter()
        .copied()
        .filter(|place| indexes.contains(&place.index))
        .collect(alloc)
}

/// Makes a pending segment live. Its pieces are the offered places of these indexes, by rising index.
///
/// # Errors
/// The first cause of [`CommitErr`] that holds, in its order.
pub fn commit(
    alloc: Global,
    segment: &Segment,
    scheme: &Scheme,
    indexes: &[u8],
) -> Result<Segment, CommitErr>
    requires pending { segment.now.version ≡ 0 }
    requires offered { IsOffer scheme.now.n segment.now.pieces }
    ensures refused { (err : CommitErr) → err ≢ CommitErr.NoMemory
        → ((result ≡ Err err) ↔ (refusal scheme.now.n scheme.now.o indexes.now ≡ Some err)) }
    ensures pieces { IfOk result (λ live. live.pieces ≡ chosen indexes.now segment.now.pieces) }
    ensures number { IfOk result (λ live. length live.pieces ≡ length indexes.now) }
    ensures enough { IfOk result (λ live. scheme.now.o ≤ length live.pieces) }
    ensures version { IfOk result (λ live. live.version ≡ 1) }
    ensures id { IfOk result (λ live. live.id ≡ segment.now.id) }
    ensures customer { IfOk result (λ live. live.customer ≡ segment.now.customer) }
    ensures len { IfOk result (λ live. live.len ≡ segment.now.len) }
{
    if let Some(err) = refusal(scheme, indexes) {
        return Err(err);
    }
    match chosen(alloc, segment.pieces.as_slice(), indexes) {
        Ok(pieces) => Ok(Segment {
            id: segment.id,
            customer: segment.customer,
            len: segment.len,
            version: 1,
            pieces: Items::of(pieces),
        }),
        Err(_) => Err(CommitErr::NoMemory),
    }
}
