// Linear systems of two unknowns, and the entries of a matrix.
use gf_linear::{Matrix, Solved, solve};
use sat_base::NoMemory;
use std::alloc::Global;

// The solution of a system of two equations, each its two coefficients and its right side.
fn solution_of(alloc: Global, system: [[u8; 3]; 2]) -> Result<Option<[u8; 2]>, NoMemory> {
    let mut m = Matrix::new(alloc, 2, 3)?;
    for row in 0..2 {
        for col in 0..3 {
            m.set(row, col, system[row][col]);
        }
    }
    let mut out = [0xAA; 2];
    match solve(&mut m, &mut out) {
        Solved::One => Ok(Some(out)),
        Solved::NoSolution => Ok(None),
    }
}

// What a system is an example of, the system, and its solution. The products were computed apart, modulo the
// polynomial 0x11D.
static SYSTEMS: [(&str, [[u8; 3]; 2], Option<[u8; 2]>); 5] = [
    (
        "one solution",
        [[2, 3, 0xE5], [5, 7, 0x4E]],
        Some([0x53, 0xCA]),
    ),
    (
        "a zero where the first pivot is sought",
        [[0, 4, 0xE7], [9, 1, 0x7A]],
        Some([0x8E, 0xF0]),
    ),
    (
        "twice the first equation is another",
        [[1, 2, 3], [2, 4, 7]],
        None,
    ),
    (
        "the last unknown is free",
        [[1, 2, 3], [2, 4, 6]],
        Some([3, 0]),
    ),
    (
        "the first unknown is free",
        [[0, 1, 9], [0, 2, 18]],
        Some([0, 9]),
    ),
];

#[test]
fn systems_of_two_unknowns(rt: HostRuntime) {
    for (name, system, solution) in &SYSTEMS {
        let found = solution_of(rt.alloc(), *system);
        assert!(rt; found == Ok(*solution), "{name}");
    }
}

// Entries that are set, one beside them, and one after a reset; and the size then.
fn entries_and_size(alloc: Global) -> Result<([u8; 4], [usize; 2]), NoMemory> {
    let mut m = Matrix::new(alloc, 3, 4)?;
    m.set(1, 2, 7);
    m.set(2, 1, 9);
    let (here, there, beside) = (m.get(1, 2), m.get(2, 1), m.get(1, 1));
    m.reset(2, 6);
    Ok(([here, there, beside, m.get(1, 0)], [m.rows(), m.cols()]))
}

#[test]
fn entries(rt: HostRuntime) {
    assert!(rt; entries_and_size(rt.alloc()) == Ok(([7, 9, 0, 0], [2, 6])));
}
