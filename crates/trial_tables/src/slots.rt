// Rows in slots.
use rows::SlottedRows;
use sat_base::{NoMemory, Ranked};
use std::alloc::Global;

#[derive(Clone, Copy, PartialEq, Eq)]
struct Mark {
    place: u128,
    value: u8,
}

impl Ranked for Mark {
    ghost rank = { λ m. m.place };

    fn rank(&self) -> u128 {
        self.place
    }
}

fn put(marks: &mut SlottedRows<Mark>, place: u128, value: u8) -> Result<(), NoMemory> {
    marks.place(place)?;
    marks.put(Mark { place, value });
    Ok(())
}

fn value(marks: &SlottedRows<Mark>, place: u128) -> Option<u8> {
    marks.get(place).map(|mark| mark.value)
}

// How many rows there are, and the values at 4, 7, 9 and 2^100.
#[derive(Clone, Copy, PartialEq, Eq)]
struct Reading {
    len: usize,
    values: [Option<u8>; 4],
}

fn read(marks: &SlottedRows<Mark>) -> Reading {
    Reading {
        len: marks.len(),
        values: [
            value(marks, 4),
            value(marks, 7),
            value(marks, 9),
            value(marks, 1 << 100),
        ],
    }
}

// What stands there with all rows, after releases of an empty and of a full slot, and after removals.
fn change(marks: &mut SlottedRows<Mark>) -> Result<[Reading; 3], NoMemory> {
    for (place, mark) in [(4, 40), (1 << 100, 99), (7, 70), (4, 44)] {
        put(marks, place, mark)?;
    }
    marks.place(9)?;
    let all = read(marks);
    marks.release(9);
    marks.release(7);
    let released = read(marks);
    marks.remove(7);
    marks.remove(8);
    Ok([all, released, read(marks)])
}

fn changed(alloc: Global) -> Result<[Reading; 3], NoMemory> {
    let mut marks = SlottedRows::new(alloc);
    change(&mut marks)
}

#[test]
fn keeps_rows_and_slots(rt: HostRuntime) {
    let all = Reading {
        len: 3,
        values: [Some(44), Some(70), None, Some(99)],
    };
    let fewer = Reading {
        len: 2,
        values: [Some(44), None, None, Some(99)],
    };
    assert!(rt; changed(rt.alloc()) == Ok([all, all, fewer]));
}
