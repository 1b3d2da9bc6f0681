// Rows that are added, replaced and removed.
use rows::Rows;
use sat_base::{NoMemory, Ranked};
use std::alloc::Global;

#[derive(Clone, Copy, PartialEq, Eq)]
struct Mark {
    place: u128,
    value: u8,
}

impl Ranked for Mark {
    ghost rank = { λ m. m.place };

    fn rank(&self) -> u128 {
        self.place
    }
}

// Adds a mark, or puts it in place of the one at its place.
fn put(marks: &mut Rows<Mark>, place: u128, value: u8) -> Result<(), NoMemory> {
    let mark = Mark { place, value };
    match marks.get(place) {
        Some(_) => marks.set(mark),
        None => {
            marks.reserve(1)?;
            marks.add(mark);
        }
    }
    Ok(())
}

fn value(mark: Option<&Mark>) -> Option<u8> {
    mark.map(|m| m.value)
}

// How many rows there are, the first, those at 5 and 7, and those after 0, 4, 5, 7 and 2^100.
#[derive(Clone, Copy, PartialEq, Eq)]
struct Reading {
    len: usize,
    first: Option<u8>,
    at: [Option<u8>; 2],
    after: [Option<u8>; 5],
}

fn read(marks: &Rows<Mark>) -> Reading {
    Reading {
        len: marks.len(),
        first: value(marks.first()),
        at: [value(marks.get(5)), value(marks.get(7))],
        after: [
            value(marks.after(0)),
            value(marks.after(4)),
            value(marks.after(5)),
            value(marks.after(7)),
            value(marks.after(1 << 100)),
        ],
    }
}

// What stands there with all rows, and whether two are left after removals.
fn change(marks: &mut Rows<Mark>) -> Result<(Reading, bool), NoMemory> {
    for (place, mark) in [(7, 70), (4, 40), (1 << 100, 99), (4, 44)] {
        put(marks, place, mark)?;
    }
    let all = read(marks);
    marks.remove(7);
    marks.remove(5);
    let left = [
        Mark {
            place: 4,
            value: 44,
        },
        Mark {
            place: 1 << 100,
            value: 99,
        },
    ];
    Ok((all, marks.as_slice() == left.as_slice()))
}

fn changed(alloc: Global) -> Result<(Reading, bool), NoMemory> {
    let mut marks = Rows::new(alloc);
    change(&mut marks)
}

#[test]
fn keeps_rows_in_order(rt: HostRuntime) {
    let want = Reading {
        len: 3,
        first: Some(44),
        at: [None, Some(70)],
        after: [Some(44), Some(70), Some(70), Some(99), None],
    };
    assert!(rt; changed(rt.alloc()) == Ok((want, true)));
}
