// Worked columns, and a search through all codewords of one byte.
ghost use Rattle.std.specs.Prelude.{◌≡◌, ◌≤◌, length};
ghost use Rattle.bw_decode.specs.Near.{Rises};

use crate::random::Random;
use crate::schemes::scheme;
use bw_decode::column::column;
use bw_decode::{Column, Scratch};
use sat_base::{NoMemory, Scheme};
use std::alloc::Global;

const POINTS: [u8; 6] = [0, 1, 2, 3, 4, 5];

// The two data bytes whose codeword is near the values.
fn two_near(scratch: &mut Scratch, points: &[u8], values: &[u8]) -> Option<[u8; 2]>
    requires lengths { length points.now ≡ length values.now }
    requires rising { Rises points.now }
    requires enough { 2 ≤ length points.now }
    requires room { length points.now ≤ scratch.old.points }
    ensures { scratch.new.points ≡ scratch.old.points }
{
    let mut out = [0; 2];
    match column(scratch, points, values, 2, &mut out) {
        Column::Near => Some(out),
        Column::Unclear => None,
    }
}

// What is found of three columns, and the number of systems.
fn worked(alloc: Global, scheme: &Scheme) -> Result<([Option<[u8; 2]>; 3], u64), NoMemory>
    requires { scheme.now.n ≡ 6 }
{
    let mut scratch = Scratch::new(alloc, scheme)?;
    let near = two_near(&mut scratch, &POINTS, &[1, 2, 7, 9, 13, 0]);
    let unclear = two_near(&mut scratch, &POINTS, &[0, 0, 0, 4, 13, 14]);
    // No value may be wrong.
    let exact = two_near(&mut scratch, &[0, 1], &[1, 5]);
    Ok(([near, unclear, exact], scratch.solves()))
}

#[test]
fn worked_columns(rt: HostRuntime) {
    let scheme = scheme(&rt, 2, 2, 3, 6, 1);
    assert!(rt; scheme.n == 6);
    let want = [Some([1, 2]), None, Some([1, 5])];
    assert!(rt; worked(rt.alloc(), &scheme) == Ok((want, 3)));
}

// The one data byte whose codeword, which has it at each point, is near the values.
fn search(values: &[u8]) -> Option<u8> {
    for data in 0..=255u8 {
        let wrong = values.iter().filter(|value| **value != data).count();
        if values.len() > 0 && wrong <= (values.len() - 1) / 2 {
            return Some(data);
        }
    }
    None
}

// The same by the decoding of a column.
fn one_near(alloc: Global, scheme: &Scheme, values: &[u8; 6]) -> Result<Option<u8>, NoMemory>
    requires { scheme.now.n ≡ 6 }
{
    let mut scratch = Scratch::new(alloc, scheme)?;
    let mut out = [0];
    match column(&mut scratch, &POINTS, values, 1, &mut out) {
        Column::Near => Ok(Some(out[0])),
        Column::Unclear => Ok(None),
    }
}

fn random_values(random: &mut Random) -> [u8; 6] {
    let mut values = [0; 6];
    for value in values.iter_mut() {
        *value = random.byte() % 3;
    }
    values
}

#[test]
fn columns_of_one_byte(rt: HostRuntime) {
    let scheme = scheme(&rt, 1, 1, 2, 6, 1);
    assert!(rt; scheme.n == 6);
    let mut random = Random { state: 7 };
    for _ in 0..40 {
        let values = random_values(&mut random);
        let found = one_near(rt.alloc(), &scheme, &values);
        assert!(rt; found == Ok(search(&values)), "{values:?}");
    }
}
