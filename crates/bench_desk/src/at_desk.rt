//! Threads that add to a register on a desk.
ghost use Rattle.std.specs.Prelude.{◌≡◌, ◌≤◌, ◌^◌};
ghost use Rattle.std.specs.Thread.{IsSync};
ghost use Rattle.turnstile.specs.Known.{SameRights};

use crate::register::Register;
use std::sync::Wait;
use std::thread::{Threads, join};
use turnstile::{Desk, PassAt, Turned};

// Enters a call, where the term takes it.
fn enter<R: Wait>(
    rt: &R,
    desk: &Desk<Register>,
    pass: PassAt<Register>,
    call: u64,
) -> PassAt<Register>
    requires { pass.desk ≡ desk.now }
    ensures { SameRights pass result }
{
    match desk.enter(rt, pass, call) {
        Turned::Done(pass, _) => pass,
        Turned::TermFull(pass, _) => pass,
    }
}

/// Enters so many calls, or as many as the term takes.
pub fn one<R: Wait>(
    rt: &R,
    desk: &Desk<Register>,
    pass: PassAt<Register>,
    calls: u64,
) -> PassAt<Register>
    requires { pass.desk ≡ desk.now }
    ensures { SameRights pass result }
{
    let mut pass = pass;
    for call in 0..calls {
        pass = enter(rt, desk, pass, call);
    }
    pass
}

/// Two threads, each with half of the calls.
pub fn two<R: Threads + Wait + Sync>(
    rt: &R,
    desk: &Desk<Register>,
    pass: PassAt<Register>,
    calls: u64,
) -> PassAt<Register>
    requires desk { pass.desk ≡ desk.now }
    requires spare { 2 ≤ pass.spare }
    ensures desk { result.desk ≡ pass.desk }
    ensures parts { result.parts ≡ pass.parts }
{
    let (mine, other) = desk.split(pass);
    let (mine, other) = join(
        rt,
        move || -> PassAt<Register>
            requires { IsSync R.row × (mine.desk ≡ desk.now) }
            ensures { SameRights mine result }
        { one(rt, desk, mine, calls / 2) },
        move || -> PassAt<Register>
            requires { other.desk ≡ desk.now }
            ensures { SameRights other result }
        { one(rt, desk, other, calls - calls / 2) },
    );
    desk.join(mine, other)
}

/// Four threads, each with a quarter of the calls.
pub fn four<R: Threads + Wait + Sync>(
    rt: &R,
    desk: &Desk<Register>,
    pass: PassAt<Register>,
    calls: u64,
) -> PassAt<Register>
    requires desk { pass.desk ≡ desk.now }
    requires spare { 4 ≤ pass.spare }
    ensures desk { result.desk ≡ pass.desk }
    ensures parts { result.parts ≡ pass.parts }
{
    let (mine, other) = desk.split(pass);
    let (mine, other) = join(
        rt,
        move || -> PassAt<Register>
            requires { IsSync R.row × (mine.desk ≡ desk.now) × (2 ≤ mine.spare) }
            ensures { (result.desk ≡ mine.desk) × (result.parts ≡ mine.parts) }
        { two(rt, desk, mine, calls / 2) },
        move || -> PassAt<Register>
            requires { IsSync R.row × (other.desk ≡ desk.now) × (2 ≤ other.spare) }
            ensures { (result.desk ≡ other.desk) × (result.parts ≡ other.parts) }
        { two(rt, desk, other, calls - calls / 2) },
    );
    desk.join(mine, other)
}
