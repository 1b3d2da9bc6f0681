// Stripes that are mended in turn, each in room that was taken before.
ghost use Rattle.std.specs.Prelude.{◌≡◌, ◌+◌, ◌*◌, ◌^◌, ◌<◌, ◌≤◌, length, map, All, IfSome, IfNone};
ghost use Rattle.bw_decode.specs.Altered.{indexes_of, is_altered};
ghost use Rattle.bw_decode.specs.Near.{Rises};
ghost use Rattle.repair_core.specs.Answers.{answers_at};
ghost use Rattle.repair_core.specs.Stripes.{IsStripe, IsNoneNear, IsUnclear};
ghost use Rattle.repair_core.specs.Room.{IsRoom, IsMade, IsEncoder, IsMended, AreMended};

use crate::making::{Made, mark, write_shares};
use crate::room::{Room, fill};
use bw_decode::{Nearness, Scratch, stripe};
use sat_base::{Scheme, Share};

// The most shares of a stripe.
const MOST_SHARES: usize = 128;

// Decodes as `stripe` does, and tells that bytes come out.
fn decode(
    scratch: &mut Scratch,
    scheme: &Scheme,
    answers: &[Share],
    stripe: &mut [u8],
    altered: &mut [bool],
) -> Nearness
    requires room { scheme.now.n ≤ scratch.old.points }
    requires rising { Rises (indexes_of answers.now) }
    requires below { All (λ index. index < scheme.now.n) (indexes_of answers.now) }
    requires stripe { length stripe.old ≡ scheme.now.k * scheme.now.share }
    requires altered { length altered.old ≡ length answers.now }
    ensures near { result ≡ Nearness.Near
        → IsStripe scheme.now.k scheme.now.share answers.now stripe.new }
    ensures altered { result ≡ Nearness.Near → altered.new
        ≡ map (is_altered scheme.now.k scheme.now.share stripe.new) answers.now }
    ensures unclear { result ≡ Nearness.Unclear → IsNoneNear scheme.now.k scheme.now.share answers.now }
    ensures points { scratch.new.points ≡ scratch.old.points }
{
    stripe::stripe(scratch, scheme, answers, stripe, altered)
}

/// Finds the stripe that is near what the pieces answer for stripe `s` of their `count`, marks those that are altered,
/// and writes its shares behind those that are written.
pub(crate) fn mend(
    scratch: &mut Scratch,
    scheme: &Scheme,
    room: &mut Room,
    made: &mut Made,
    pieces: &[Share],
    s: usize,
    count: usize,
) -> Nearness
    requires scratch { scheme.now.n ≤ scratch.old.points }
    requires rising { Rises (indexes_of pieces.now) }
    requires below { All (λ index. index < scheme.now.n) (indexes_of pieces.now) }
    requires within { s < count }
    requires few { count ≤ 2 ^ 40 }
    requires places { length pieces.now ≤ length room.old.answers.items }
    requires room { IsRoom scheme.now.k scheme.now.share room.old.answers.items room.old.spares.items room.old.stripe.items }
    requires made { IsMade scheme.now.share scheme.now.n made.old.whole made.old.done made.old.marks.items made.old.fresh.items }
    requires encoder { IsEncoder scheme.now.k scheme.now.share made.old.fresh.items made.old.encoder }
    requires left { made.old.done < made.old.whole }
    ensures near { result ≡ Nearness.Near → IsMended scheme.now.k scheme.now.share (answers_at scheme.now.share count s pieces.now)
        made.old.done made.old.marks.items made.old.fresh.items room.new.stripe.items made.new.marks.items made.new.fresh.items }
    ensures made { result ≡ Nearness.Near
        → IsMade scheme.now.share scheme.now.n made.new.whole made.new.done made.new.marks.items made.new.fresh.items }
    ensures encoder { result ≡ Nearness.Near → IsEncoder scheme.now.k scheme.now.share made.new.fresh.items made.new.encoder }
    ensures done { result ≡ Nearness.Near → made.new.done ≡ made.old.done + 1 }
    ensures whole { made.new.whole ≡ made.old.whole }
    ensures unclear { result ≡ Nearness.Unclear → IsNoneNear scheme.now.k scheme.now.share (answers_at scheme.now.share count s pieces.now) }
    ensures room { IsRoom scheme.now.k scheme.now.share room.new.answers.items room.new.spares.items room.new.stripe.items }
    ensures places { length room.new.answers.items ≡ length room.old.answers.items }
    ensures points { scratch.new.points ≡ scratch.old.points }
{
    let size = usize::from(scheme.share);
    let places = room.answers.as_mut_slice();
    fill(
        room.alloc,
        size,
        places,
        room.spares.as_mut_slice(),
        pieces,
        s,
        count,
    );
    let mut altered_room = [false; MOST_SHARES];
    let answers = &room.answers.as_slice()[..pieces.len()];
    let altered = &mut altered_room[..pieces.len()];
    let nearness = decode(
        scratch,
        scheme,
        answers,
        room.stripe.as_mut_slice(),
        altered,
    );
    if nearness == Nearness::Near {
        mark(made.marks.as_mut_slice(), answers, altered);
        let fresh = made.fresh.as_mut_slice();
        write_shares(
            room.alloc,
            &mut made.encoder,
            room.stripe.as_slice(),
            fresh,
            made.done,
        );
        made.done += 1;
    }
    nearness
}

/// Mends the `count` stripes of the pieces in turn, or tells the first that none is near.
pub(crate) fn mend_all(
    scratch: &mut Scratch,
    scheme: &Scheme,
    room: &mut Room,
    made: &mut Made,
    pieces: &[Share],
    count: usize,
) -> Option<usize>
    requires scratch { scheme.now.n ≤ scratch.old.points }
    requires rising { Rises (indexes_of pieces.now) }
    requires below { All (λ index. index < scheme.now.n) (indexes_of pieces.now) }
    requires few { count ≤ 2 ^ 40 }
    requires places { length pieces.now ≤ length room.old.answers.items }
    requires room { IsRoom scheme.now.k scheme.now.share room.old.answers.items room.old.spares.items room.old.stripe.items }
    requires made { IsMade scheme.now.share scheme.now.n made.old.whole made.old.done made.old.marks.items made.old.fresh.items }
    requires encoder { IsEncoder scheme.now.k scheme.now.share made.old.fresh.items made.old.encoder }
    requires left { made.old.done + count ≤ made.old.whole }
    ensures mended { IfNone result (AreMended scheme.now.k scheme.now.share count pieces.now count
        made.old.done made.old.marks.items made.old.fresh.items made.new.marks.items made.new.fresh.items) }
    ensures done { IfNone result (made.new.done ≡ made.old.done + count) }
    ensures made { IfNone result (IsMade scheme.now.share scheme.now.n made.new.whole made.new.done made.new.marks.items made.new.fresh.items) }
    ensures encoder { IfNone result (IsEncoder scheme.now.k scheme.now.share made.new.fresh.items made.new.encoder) }
    ensures whole { IfNone result (made.new.whole ≡ made.old.whole) }
    ensures room { IfNone result (IsRoom scheme.now.k scheme.now.share room.new.answers.items room.new.spares.items room.new.stripe.items) }
    ensures places { IfNone result (length room.new.answers.items ≡ length room.old.answers.items) }
    ensures unclear { IfSome result (IsUnclear scheme.now.k scheme.now.share count pieces.now) }
    ensures points { scratch.new.points ≡ scratch.old.points }
{
    for s in 0..count {
        match mend(scratch, scheme, room, made, pieces, s, count) {
            Nearness::Unclear => return Some(s),
            Nearness::Near => {}
        }
    }
    None
}
