// Rebuilding a segment whole.
ghost use Rattle.std.specs.Prelude.{◌≡◌, ◌≤◌, ◌<◌, ◌^◌, ◌++◌, ◌↔◌, ℕ, [], length, All, IfOk, IfErr, OnOk};
ghost use Rattle.sat_base.specs.Scheme.{stripe_count};
ghost use Rattle.bw_decode.specs.Altered.{indexes_of};
ghost use Rattle.bw_decode.specs.Near.{Rises};
ghost use Rattle.repair_core.specs.Answers.{answers_at};
ghost use Rattle.repair_core.specs.Indexes.{place_indexes};
ghost use Rattle.repair_core.specs.Stripes.{HasNear, IsUnclear};
ghost use Rattle.repair_core.specs.Rebuilt.{IsRebuilt};
ghost use Rattle.repair_core.specs.Refusals.{IsRefusal};
ghost use Rattle.repair_core.specs.Room.{IsRoom, IsMade, IsEncoder, AreKept};

use crate::making::Made;
use crate::plan::RepairPlan;
use crate::rebuilt::{RebuildErr, Rebuilt};
use crate::room::Room;
use crate::stripes::mend;
use bw_decode::{Nearness, Scratch};
use sat_base::{Items, NoMemory, Scheme, Share};
use std::alloc::Global;

// No bytes, with room for so many stripes.
fn no_bytes(alloc: Global, stripes: usize, stripe_len: usize) -> Result<Vec<u8>, NoMemory>
    requires few { stripes ≤ 2 ^ 40 }
    requires short { stripe_len ≤ 2 ^ 17 }
    ensures { IfOk result (λ bytes. bytes.items ≡ []) }
{
    Ok(Vec::with_capacity(alloc, stripes * stripe_len)?)
}

fn append(bytes: &mut Vec<u8>, stripe: &[u8]) -> Result<(), NoMemory>
    ensures { OnOk result (bytes.new.items ≡ bytes.old.items ++ stripe.now) }
{
    bytes.extend_from_slice(stripe)?;
    Ok(())
}

// Mends all stripes in turn, and keeps their bytes.
fn mend_whole(
    alloc: Global,
    scratch: &mut Scratch,
    scheme: &Scheme,
    room: &mut Room,
    made: &mut Made,
    pieces: &[Share],
) -> Result<Vec<u8>, RebuildErr>
    requires scratch { scheme.now.n ≤ scratch.old.points }
    requires rising { Rises (indexes_of pieces.now) }
    requires below { All (λ index. index < scheme.now.n) (indexes_of pieces.now) }
    requires places { length pieces.now ≤ length room.old.answers.items }
    requires room { IsRoom scheme.now.k scheme.now.share room.old.answers.items room.old.spares.items room.old.stripe.items }
    requires made { IsMade scheme.now.share scheme.now.n made.old.whole made.old.done made.old.marks.items made.old.fresh.items }
    requires encoder { IsEncoder scheme.now.k scheme.now.share made.old.fresh.items made.old.encoder }
    requires start { made.old.done ≡ 0 }
    ensures kept { IfOk result (λ bytes. AreKept scheme.now.k scheme.now.share made.old.whole pieces.now made.old.whole
        0 made.old.marks.items made.old.fresh.items made.new.marks.items made.new.fresh.items bytes.items) }
    ensures made { OnOk result (IsMade scheme.now.share scheme.now.n made.old.whole made.old.whole made.new.marks.items made.new.fresh.items) }
    ensures refused { IfErr result (IsRefusal scheme.now.k scheme.now.share made.old.whole pieces.now) }
    ensures points { scratch.new.points ≡ scratch.old.points }
{
    let count = made.whole;
    let Ok(mut bytes) = no_bytes(alloc, count, room.stripe.len()) else {
        return Err(RebuildErr::NoMemory);
    };
    for s in 0..count {
        match mend(scratch, scheme, room, made, pieces, s, count) {
            Nearness::Unclear => return Err(RebuildErr::Unclear { stripe: s as u64 }),
            Nearness::Near => {}
        }
        let Ok(()) = append(&mut bytes, room.stripe.as_slice()) else {
            return Err(RebuildErr::NoMemory);
        };
    }
    Ok(bytes)
}

/// The indexes of the pieces, in order.
pub(crate) fn indexes_in(alloc: Global, pieces: &[Share]) -> Result<Vec<u8>, NoMemory>
    ensures { IfOk result (λ indexes. indexes.items ≡ indexes_of pieces.now) }
{
    Ok(pieces.iter().map(|piece| piece.index).collect(alloc)?)
}

// Rebuilds, whether enough pieces came or not.
fn rebuild_stripes(
    alloc: Global,
    scratch: &mut Scratch,
    scheme: &Scheme,
    plan: &RepairPlan,
    pieces: &[Share],
) -> Result<Rebuilt, RebuildErr>
    requires room { scheme.now.n ≤ scratch.old.points }
    requires len { plan.now.len ≤ 2 ^ 40 }
    requires targets { All (λ index. index < scheme.now.n) (place_indexes plan.now.targets) }
    requires rising { Rises (indexes_of pieces.now) }
    requires below { All (λ index. index < scheme.now.n) (indexes_of pieces.now) }
    ensures ok { IfOk result (λ rebuilt. IsRebuilt scheme.now.k scheme.now.share (stripe_count scheme.now.k scheme.now.share plan.now.len)
        (place_indexes plan.now.targets) pieces.now rebuilt.bytes rebuilt.blamed rebuilt.fresh) }
    ensures refused { IfErr result (IsRefusal scheme.now.k scheme.now.share (stripe_count scheme.now.k scheme.now.share plan.now.len) pieces.now) }
    ensures points { scratch.new.points ≡ scratch.old.points }
{
    let Ok(mut room) = Room::new(alloc, scheme, pieces.len()) else {
        return Err(RebuildErr::NoMemory);
    };
    let Ok(mut made) = Made::new(alloc, scheme, plan) else {
        return Err(RebuildErr::NoMemory);
    };
    let Ok(indexes) = indexes_in(alloc, pieces) else {
        return Err(RebuildErr::NoMemory);
    };
    let bytes = mend_whole(alloc, scratch, scheme, &mut room, &mut made, pieces)?;
    let remade = made.finish(indexes);
    Ok(Rebuilt {
        bytes: Items::of(bytes),
        blamed: remade.blamed,
        fresh: remade.fresh,
    })
}

/// Rebuilds a segment from whole pieces: finds for each stripe the one that is near what the pieces answer for it,
/// blames just the pieces that are altered for at least one stripe, and makes the targets' pieces. A piece of wrong
/// length is altered for each stripe.
///
/// The pieces come by rising index. The decoder's room was made for this scheme, or for one with at least as many
/// shares.
pub fn rebuild(
    alloc: Global,
    scratch: &mut Scratch,
    scheme: &Scheme,
    plan: &RepairPlan,
    pieces: &[Share],
) -> Result<Rebuilt, RebuildErr>
    requires room { scheme.now.n ≤ scratch.old.points }
    requires len { plan.now.len ≤ 2 ^ 40 }
    requires targets { All (λ index. index < scheme.now.n) (place_indexes plan.now.targets) }
    requires rising { Rises (indexes_of pieces.now) }
    requires below { All (λ index. index < scheme.now.n) (indexes_of pieces.now) }
    ensures ok { IfOk result (λ rebuilt. IsRebuilt scheme.now.k scheme.now.share (stripe_count scheme.now.k scheme.now.share plan.now.len)
        (place_indexes plan.now.targets) pieces.now rebuilt.bytes rebuilt.blamed rebuilt.fresh) }
    ensures few { (answered : ℕ) → (result ≡ Err (RebuildErr.Few answered))
        ↔ ((length pieces.now < scheme.now.k) × (answered ≡ length pieces.now)) }
    ensures unclear { (s : ℕ) → result ≡ Err (RebuildErr.Unclear s) → (scheme.now.k ≤ length pieces.now)
        × IsUnclear scheme.now.k scheme.now.share (stripe_count scheme.now.k scheme.now.share plan.now.len) pieces.now s }

    // Where each stripe has a near one, memory alone may be wanting.
    ensures complete { scheme.now.k ≤ length pieces.now
        → ((s : ℕ) → s < stripe_count scheme.now.k scheme.now.share plan.now.len → HasNear scheme.now.k scheme.now.share
        (answers_at scheme.now.share (stripe_count scheme.now.k scheme.now.share plan.now.len) s pieces.now))
        → IfErr result (λ err. err ≡ RebuildErr.NoMemory) }
    ensures points { scratch.new.points ≡ scratch.old.points }
{
    if pieces.len() < usize::from(scheme.k) {
        let answered = pieces.len() as u8;
        return Err(RebuildErr::Few { answered });
    }
    rebuild_stripes(alloc, scratch, scheme, plan, pieces)
}
