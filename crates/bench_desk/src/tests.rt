ghost use Rattle.std.specs.Prelude.{◌≡◌, ◌≤◌};

mod shapes;

use crate::register::Register;
use shapes::{Sheet, Ticketed, Worked, branch, pair, try_enter};
use std::alloc::Global;
use std::sync::Wait;
use std::test::*;
use std::thread::Threads;
use turnstile::Desk;

const START: u64 = 7;

#[derive(Clone, Copy)]
enum Shape {
    Pair,
    Chain,
    Tree,
}

impl Shape {
    fn workers(self) -> u64
        ensures { result ≤ 4 }
    {
        match self {
            Shape::Pair => 2,
            Shape::Chain => 3,
            Shape::Tree => 4,
        }
    }
}

// A whole term: the register at its end, and what its workers were told.
fn term_of<R: Threads + Wait + Sync>(
    rt: &R,
    alloc: Global,
    shape: Shape,
    calls: u64,
    term: u64,
) -> Option<(Register, Sheet)>
    requires { (1 ≤ term) × (term ≤ 65536) }
{
    let register = Register::new(alloc, START, term as usize).ok()?;
    let Ok((desk, pass)) = Desk::new(alloc, register, term) else {
        return None;
    };
    let worked = match shape {
        Shape::Pair => pair(rt, alloc, &desk, pass, calls),
        Shape::Chain => branch(rt, alloc, &desk, pass, calls, false),
        Shape::Tree => branch(rt, alloc, &desk, pass, calls, true),
    };
    let Worked { pass, sheet } = worked;
    Some((desk.close(pass), sheet))
}

// Each entry's place is where it stands, and its reply is what the register held then.
fn replays(register: &Register) -> bool {
    let mut value = START;
    let mut fine = true;
    for (place, entry) in register.history.iter().enumerate() {
        fine = fine && entry.place == place as u64 && entry.reply == value;
        value = value.wrapping_add(entry.call);
    }
    fine && value == register.sum
}

// The places are 0 to the length less 1, each once.
fn are_all_places(mut places: Vec<u64>, len: usize) -> bool {
    places.sort_unstable();
    let mut fine = places.len() == len;
    for (at, place) in places.iter().enumerate() {
        fine = fine && *place == at as u64;
    }
    fine
}

// Each ticket is one of those that so many workers draw from the term on.
fn are_from_term(tickets: &[u64], term: u64, workers: u64) -> bool
    requires { (workers ≤ 4) × (term ≤ 65536) }
{
    let mut fine = true;
    for ticket in tickets {
        fine = fine && term <= *ticket && *ticket < term + workers;
    }
    fine
}

// What is the same of every term, whatever the schedule: the history replays, the places told are its places, and each
// call was entered or met the full term, with one of the tickets from the term on.
fn is_sound(register: &Register, sheet: Sheet, workers: u64, calls: u64, term: u64) -> bool
    requires { (workers ≤ 4) × (calls ≤ 1000) × (term ≤ 65536) }
{
    let Sheet {
        places,
        tickets,
        enough_memory,
    } = sheet;
    let asked = workers * calls;
    let entered = register.history.len();
    let refused = tickets.len() as u64;
    enough_memory
        && replays(register)
        && entered as u64 == asked.min(term)
        && refused == asked - asked.min(term)
        && are_from_term(tickets.as_slice(), term, workers)
        && are_all_places(places, entered)
}

// Whether a term of such a crowd, each of whose workers makes 250 calls, is sound.
fn ends_sound<R: Threads + Wait + Sync>(rt: &R, alloc: Global, shape: Shape, term: u64) -> bool
    requires { (1 ≤ term) × (term ≤ 65536) }
{
    match term_of(rt, alloc, shape, 250, term) {
        Some((register, sheet)) => is_sound(&register, sheet, shape.workers(), 250, term),
        None => false,
    }
}

// Terms that fill, and that don't.
#[test]
fn terms_of_every_shape(rt: HostRuntime) {
    for term in [300, 1000] {
        for shape in [Shape::Pair, Shape::Chain, Shape::Tree] {
            assert!(&rt; ends_sound(&rt, rt.alloc(), shape, term), "of {term}");
        }
    }
}

// Five calls, between which the pass is split and joined. All but the first meet the full term, if it is of one call.
fn enter_five<R: Wait>(rt: &R, desk: &Desk<Register>, pass: Ticketed) -> (Ticketed, bool)
    requires desk { pass.desk ≡ desk.now }
    requires spare { 2 ≤ pass.spare }
    ensures desk { result.0.desk ≡ pass.desk }
    ensures parts { result.0.parts ≡ pass.parts }
{
    let (pass, first) = try_enter(rt, desk, pass, 5);
    let (pass, second) = try_enter(rt, desk, pass, 6);
    let (kept, given) = desk.split(pass);
    let (kept, third) = try_enter(rt, desk, kept, 7);
    let (given, fourth) = try_enter(rt, desk, given, 8);
    let pass = desk.join(given, kept);
    let (pass, fifth) = try_enter(rt, desk, pass, 9);
    let fits = first == Ok(0)
        && second == Err(1)
        && third == Err(1)
        && fourth == Err(1)
        && fifth == Err(1);
    (pass, fits)
}

// One thread alone, at a term of one call. Both halves of a pass with a mark have the mark, and so has the pass that
// is made of them.
#[test]
fn the_full_term_is_met_again(rt: HostRuntime) -> Result<(), Fail> {
    let register = Register::new(rt.alloc(), START, 1)?;
    let Ok((desk, pass)) = Desk::new(rt.alloc(), register, 1) else {
        return Err(Fail::new("no memory"));
    };
    let (pass, fits) = enter_five(&rt, &desk, pass);
    let number = pass.number();
    let register = desk.close(pass);
    let fits = fits && number == 1 << 31 && register.sum == START + 5 && replays(&register);
    assert!(rt; fits);
    Ok(())
}
