// Room for one stripe and what is answered for it, taken once and filled for one stripe after another.
ghost use Rattle.std.specs.Prelude.{◌≡◌, ◌≢◌, ◌+◌, ◌*◌, ◌^◌, ◌<◌, ◌≤◌, [], length, take, IfOk};
ghost use Rattle.sat_base.specs.declared.items.Share.{Share};
ghost use Rattle.repair_core.specs.Answers.{answer_bytes, answers_at};
ghost use Rattle.repair_core.specs.Room.{IsRoomy, AreRoomy, IsRoom};

use sat_base::{Bytes, Items, NoMemory, Scheme, Share};
use std::alloc::Global;
use std::mem::replace;

/// Room for one stripe and what is answered for it.
#[derive(Drop)]
pub(crate) struct Room {
    pub alloc: Global,
    /// The answers. One that is empty has left its room among the spares.
    pub answers: Vec<Share>,
    pub spares: Vec<Bytes>,
    pub stripe: Vec<u8>,
}

impl Room {
    /// Room for as many answers. It fails only where memory runs out.
    pub fn new(alloc: Global, scheme: &Scheme, places: usize) -> Result<Room, NoMemory>
        ensures room { IfOk result (λ room. IsRoom scheme.now.k scheme.now.share room.answers.items room.spares.items room.stripe.items) }
        ensures places { IfOk result (λ room. length room.answers.items ≡ places) }
    {
        let size = usize::from(scheme.share);
        let mut answers = Vec::with_capacity(alloc, places)?;
        let mut spares = Vec::with_capacity(alloc, places)?;
        'places: for _ in 0..places {
            let bytes = Items::of(Vec::from_elem(alloc, 0, size)?);
            answers.push(Share { index: 0, bytes })?;
            spares.push(Items::of(Vec::new(alloc)))?;
        }
        let stripe = Vec::from_elem(alloc, 0, usize::from(scheme.k) * size)?;
        Ok(Room {
            alloc,
            answers,
            spares,
            stripe,
        })
    }
}

// What a piece of `count` stripes answers for stripe `s`.
fn answer_of(piece: &[u8], s: usize, count: usize, size: usize) -> &[u8]
    requires within { s < count }
    requires few { count ≤ 2 ^ 40 }
    requires short { size ≤ 1024 }
    ensures value { result.now ≡ answer_bytes size count s piece.now }
    ensures len { length result.now ≢ size → result.now ≡ [] }
{
    if piece.len() != count * size {
        return &[];
    }
    &piece[s * size..s * size + size]
}

// Puts an answer into its place. The place and its spare have room for a share between them.
fn refill(alloc: Global, size: usize, place: &mut Share, spare: &mut Bytes, index: u8, bytes: &[u8])
    requires bytes { length bytes.now ≢ size → bytes.now ≡ [] }
    requires room { IsRoomy size place.old.bytes spare.old }
    ensures index { place.new.index ≡ index }
    ensures bytes { place.new.bytes ≡ bytes.now }
    ensures room { IsRoomy size place.new.bytes spare.new }
{
    let held = replace(&mut place.bytes, Items::of(Vec::new(alloc))).into_vec();
    let aside = replace(spare, Items::of(Vec::new(alloc))).into_vec();
    let mut room = if held.len() == size { held } else { aside };
    place.index = index;
    if bytes.len() == size {
        room.as_mut_slice().copy_from_slice(bytes);
        place.bytes = Items::of(room);
    } else {
        *spare = Items::of(room);
    }
}

/// Puts what the pieces answer for stripe `s` of `count` into the first places.
pub(crate) fn fill(
    alloc: Global,
    size: usize,
    answers: &mut [Share],
    spares: &mut [Bytes],
    pieces: &[Share],
    s: usize,
    count: usize,
)
    requires within { s < count }
    requires few { count ≤ 2 ^ 40 }
    requires short { size ≤ 1024 }
    requires places { length pieces.now ≤ length answers.old }
    requires room { AreRoomy size answers.old spares.old }
    ensures answers { take (length pieces.now) answers.new ≡ answers_at size count s pieces.now }
    ensures room { AreRoomy size answers.new spares.new }
{
    for i in 0..pieces.len() {
        let piece = &pieces[i];
        let bytes = answer_of(piece.bytes.as_slice(), s, count, size);
        refill(
            alloc,
            size,
            &mut answers[i],
            &mut spares[i],
            piece.index,
            bytes,
        );
    }
}
