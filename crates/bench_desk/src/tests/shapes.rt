//! Workers that enter calls at once, with passes that are split and joined in several shapes.
ghost use Rattle.std.specs.Prelude.{◌≡◌, ℕ, ◌^◌, ◌≤◌};
ghost use Rattle.std.specs.Thread.{IsSync};
ghost use Rattle.turnstile.specs.Known.{SameRights};

use crate::register::Register;
use std::alloc::Global;
use std::sync::Wait;
use std::thread::{Threads, join};
use turnstile::{Desk, Pass, Turned};

/// A pass of a desk of registers.
pub type Ticketed = Pass<u64, u64, u64>;

/// What a worker, or several, came to: the places that were told, and the tickets of those that met the full term.
#[derive(Drop)]
pub struct Sheet {
    pub places: Vec<u64>,
    pub tickets: Vec<u64>,
    pub enough_memory: bool,
}

pub struct Worked {
    pub pass: Ticketed,
    pub sheet: Sheet,
}

impl Sheet {
    fn new(alloc: Global) -> Sheet {
        Sheet {
            places: Vec::new(alloc),
            tickets: Vec::new(alloc),
            enough_memory: true,
        }
    }

    // Both, one behind the other.
    fn and(mut self, other: Sheet) -> Sheet {
        let mut noted = self.enough_memory && other.enough_memory;
        for place in other.places.as_slice() {
            noted = self.places.push(*place).is_ok() && noted;
        }
        for ticket in other.tickets.as_slice() {
            noted = self.tickets.push(*ticket).is_ok() && noted;
        }
        self.enough_memory = noted;
        self
    }
}

/// Enters a call, and tells its place or the ticket at or above the term.
pub fn try_enter<R: Wait>(
    rt: &R,
    desk: &Desk<Register>,
    pass: Ticketed,
    call: u64,
) -> (Ticketed, Result<u64, u64>)
    requires { pass.desk ≡ desk.now }
    ensures { SameRights pass result.0 }
{
    match desk.enter(rt, pass, call) {
        Turned::Done(pass, found) => (pass, Ok(found.place)),
        Turned::TermFull(pass, ticket) => (pass, Err(ticket)),
    }
}

/// Enters so many calls, or as many as the term takes.
pub fn work<R: Wait>(
    rt: &R,
    alloc: Global,
    desk: &Desk<Register>,
    pass: Ticketed,
    calls: u64,
) -> Worked
    requires { pass.desk ≡ desk.now }
    ensures { SameRights pass result.pass }
{
    let mut pass = pass;
    let mut sheet = Sheet::new(alloc);
    for call in 0..calls {
        let (after, told) = try_enter(rt, desk, pass, call);
        pass = after;
        let noted = match told {
            Ok(place) => sheet.places.push(place),
            Err(ticket) => sheet.tickets.push(ticket),
        };
        sheet.enough_memory = noted.is_ok() && sheet.enough_memory;
    }
    Worked { pass, sheet }
}

/// Two workers, and the second pass joined into the first.
pub fn pair<R: Threads + Wait + Sync>(
    rt: &R,
    alloc: Global,
    desk: &Desk<Register>,
    pass: Ticketed,
    calls: u64,
) -> Worked
    requires desk { pass.desk ≡ desk.now }
    requires spare { 2 ≤ pass.spare }
    ensures desk { result.pass.desk ≡ pass.desk }
    ensures parts { result.pass.parts ≡ pass.parts }
{
    let (mine, other) = desk.split(pass);
    let (first, second) = join(
        rt,
        move || -> Worked
            requires { IsSync R.row × (mine.desk ≡ desk.now) }
            ensures { SameRights mine result.pass }
        { work(rt, alloc, desk, mine, calls) },
        move || -> Worked
            requires { other.desk ≡ desk.now }
            ensures { SameRights other result.pass }
        { work(rt, alloc, desk, other, calls) },
    );
    let Worked { pass, sheet } = first;
    let Worked {
        pass: other,
        sheet: more,
    } = second;
    Worked {
        pass: desk.join(pass, other),
        sheet: sheet.and(more),
    }
}

// A pair, or one worker.
fn pair_or_one<R: Threads + Wait + Sync>(
    rt: &R,
    alloc: Global,
    desk: &Desk<Register>,
    pass: Ticketed,
    calls: u64,
    is_pair: bool,
) -> Worked
    requires desk { pass.desk ≡ desk.now }
    requires spare { 2 ≤ pass.spare }
    ensures desk { result.pass.desk ≡ pass.desk }
    ensures parts { result.pass.parts ≡ pass.parts }
{
    if is_pair {
        pair(rt, alloc, desk, pass, calls)
    } else {
        work(rt, alloc, desk, pass, calls)
    }
}

/// A pair, and beside it another pair in a tree, or one worker in a chain, on the pass that was split off. In a tree
/// that pass is joined into the first, and in a chain the first into that one.
pub fn branch<R: Threads + Wait + Sync>(
    rt: &R,
    alloc: Global,
    desk: &Desk<Register>,
    pass: Ticketed,
    calls: u64,
    is_tree: bool,
) -> Worked
    requires desk { pass.desk ≡ desk.now }
    requires spare { 4 ≤ pass.spare }
    ensures desk { result.pass.desk ≡ pass.desk }
    ensures parts { result.pass.parts ≡ pass.parts }
{
    let (rest, other) = desk.split(pass);
    let (first, second) = join(
        rt,
        move || -> Worked
            requires { IsSync R.row × (rest.desk ≡ desk.now) × (2 ≤ rest.spare) }
            ensures { (result.pass.desk ≡ rest.desk) × (result.pass.parts ≡ rest.parts) }
        { pair(rt, alloc, desk, rest, calls) },
        move || -> Worked
            requires { IsSync R.row × (other.desk ≡ desk.now) × (2 ≤ other.spare) }
            ensures { (result.pass.desk ≡ other.desk) × (result.pass.parts ≡ other.parts) }
        { pair_or_one(rt, alloc, desk, other, calls, is_tree) },
    );
    let Worked { pass, sheet } = first;
    let Worked {
        pass: other,
        sheet: more,
    } = second;
    let pass = if is_tree {
        desk.join(pass, other)
    } else {
        desk.join(other, pass)
    };
    Worked {
        pass,
        sheet: sheet.and(more),
    }
}
