// Rows that come in any order, beside the same rows in one sorted list.
use rows::{BlockRows, Rows, SlottedRows};
use sat_base::{NoMemory, Ranked};
use std::alloc::Global;

#[derive(Clone, Copy, PartialEq, Eq)]
struct Mark {
    place: u128,
}

impl Ranked for Mark {
    ghost rank = { λ m. m.place };

    fn rank(&self) -> u128 {
        self.place
    }
}

// More rows than three blocks hold.
const COUNT: u64 = 2000;

// The place that comes at a turn: rising, falling, or spread over all, where 2003 is a prime.
fn place_at(order: u8, turn: u64) -> u64 {
    match order {
        0 => turn,
        1 => COUNT.saturating_sub(turn),
        _ => turn.wrapping_mul(1103) % 2003,
    }
}

fn put(blocks: &mut BlockRows<Mark>, plain: &mut Rows<Mark>, place: u64) -> Result<(), NoMemory> {
    let place = u128::from(place);
    let mark = Mark { place };
    if blocks.get(place).is_none() {
        blocks.reserve()?;
        blocks.add(mark);
    }
    if plain.get(place).is_none() {
        plain.reserve(1)?;
        plain.add(mark);
    }
    Ok(())
}

fn put_slot(slots: &mut SlottedRows<Mark>, place: u64) -> Result<(), NoMemory> {
    let place = u128::from(place);
    slots.place(place)?;
    slots.put(Mark { place });
    Ok(())
}

// Whether both have the same rows, looked up one by one and by their places.
fn are_same(blocks: &BlockRows<Mark>, plain: &Rows<Mark>) -> bool {
    let mut same = blocks.len() == plain.len();
    same = same && blocks.first().copied() == plain.first().copied();
    for place in 0..2001 {
        same = same && blocks.nth(place).copied() == plain.as_slice().get(place).copied();
    }
    for number in 0..2004u64 {
        let place = u128::from(number);
        same = same && blocks.get(place).copied() == plain.get(place).copied();
        same = same && blocks.after(place).copied() == plain.after(place).copied();
    }
    same
}

// How many rows both have, where these are the same.
fn common(blocks: &BlockRows<Mark>, plain: &Rows<Mark>) -> Option<usize> {
    if are_same(blocks, plain) {
        Some(plain.len())
    } else {
        None
    }
}

// Rows come to both, and most of them go: how many are the same at first, when all came and when most went.
fn fill_both(
    blocks: &mut BlockRows<Mark>,
    plain: &mut Rows<Mark>,
    order: u8,
) -> Result<[Option<usize>; 3], NoMemory> {
    let first = common(blocks, plain);
    for turn in 0..COUNT {
        put(blocks, plain, place_at(order, turn))?;
    }
    let all = common(blocks, plain);
    for turn in 0..1500 {
        let place = u128::from(place_at(order, turn));
        blocks.remove(place);
        plain.remove(place);
    }
    Ok([first, all, common(blocks, plain)])
}

fn both_filled(alloc: Global, order: u8) -> Result<[Option<usize>; 3], NoMemory> {
    let mut blocks = BlockRows::new(alloc);
    let mut plain = Rows::new(alloc);
    fill_both(&mut blocks, &mut plain, order)
}

#[test]
fn rows_that_rise_fall_and_spread(rt: HostRuntime) {
    let want = [Some(0), Some(2000), Some(500)];
    for order in 0..3 {
        assert!(rt; both_filled(rt.alloc(), order) == Ok(want), "{order}");
    }
}

// The places of the rows, one after another.
fn walk(slots: &SlottedRows<Mark>) -> [Option<u128>; 4] {
    let mut walk = [None; 4];
    let mut at = slots.first().copied();
    for step in walk.iter_mut() {
        if let Some(mark) = at {
            *step = Some(mark.place);
            at = slots.after(mark.place).copied();
        }
    }
    walk
}

// Walks over no slots and over some, and what comes after an empty one.
fn walk_in(slots: &mut SlottedRows<Mark>) -> Result<[[Option<u128>; 4]; 3], NoMemory> {
    let empty = walk(slots);
    for place in [2, 6, 9, 30] {
        slots.place(place)?;
    }
    for place in [5, 8, 20] {
        put_slot(slots, place)?;
    }
    let after = slots.after(6).map(|mark| mark.place);
    Ok([empty, walk(slots), [after, None, None, None]])
}

fn walks(alloc: Global) -> Result<[[Option<u128>; 4]; 3], NoMemory> {
    let mut slots = SlottedRows::new(alloc);
    walk_in(&mut slots)
}

#[test]
fn walks_over_empty_slots(rt: HostRuntime) {
    let want = [
        [None; 4],
        [Some(5), Some(8), Some(20), None],
        [Some(8), None, None, None],
    ];
    assert!(rt; walks(rt.alloc()) == Ok(want));
}
