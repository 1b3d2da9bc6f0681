//! Turns of a register on a desk, to be timed beside those of the same register under a `Mutex`.
//!
//! Without words it prints, for each number of threads, how many turns were taken and the sum in the register. With
//! the word `time` it also prints in nanoseconds how long they took, of the rounds that the word behind it says.
#![tactic(auto)]

ghost use Rattle.std.specs.Prelude.{◌≡◌, ◌≤◌, ◌<◌};

mod at_desk;
mod at_mutex;
mod register;
#[cfg(test)]
mod tests;

use anyhow::{Result, anyhow};
use register::Register;
use sat_base::NoMemory;
use std::alloc::Global;
use std::env;
use std::sync::{Mutex, Wait};
use std::thread::Threads;
use std::time::{Clock, Instant};
use turnstile::Desk;

// As many turns as a term has at most.
const TURNS: u64 = 65536;

#[derive(Clone, Copy)]
enum Crowd {
    One,
    Two,
    Four,
}

impl Crowd {
    fn threads(self) -> u64 {
        match self {
            Crowd::One => 1,
            Crowd::Two => 2,
            Crowd::Four => 4,
        }
    }
}

// What a register has come to: how many turns were taken, and the sum in it.
#[derive(Clone, Copy)]
struct End {
    turns: usize,
    sum: u64,
}

fn end_of(register: &Register) -> End {
    End {
        turns: register.history.len(),
        sum: register.sum,
    }
}

// What a register has come to after a term of turns at a desk.
fn at_desk_by<R: Threads + Wait + Sync>(
    rt: &R,
    alloc: Global,
    crowd: Crowd,
) -> Result<End, NoMemory> {
    let register = Register::new(alloc, 0, TURNS as usize)?;
    let (desk, pass) = Desk::new(alloc, register, TURNS).map_err(|(_, error)| error)?;
    let pass = match crowd {
        Crowd::One => at_desk::one(rt, &desk, pass, TURNS),
        Crowd::Two => at_desk::two(rt, &desk, pass, TURNS),
        Crowd::Four => at_desk::four(rt, &desk, pass, TURNS),
    };
    Ok(end_of(&desk.close(pass)))
}

// The same after as many turns under a `Mutex`.
fn at_mutex_by<R: Threads + Wait + Sync>(
    rt: &R,
    alloc: Global,
    crowd: Crowd,
) -> Result<End, NoMemory> {
    let register = Mutex::new(Register::new(alloc, 0, TURNS as usize)?);
    match crowd {
        Crowd::One => at_mutex::one(rt, &register, 0, TURNS),
        Crowd::Two => at_mutex::two(rt, &register, 0, TURNS),
        Crowd::Four => at_mutex::four(rt, &register, TURNS),
    }
    Ok(end_of(&register.into_inner()))
}

// The nanoseconds of the rounds at a desk.
fn time_desk<R: Threads + Wait + Sync + Clock>(
    rt: &R,
    alloc: Global,
    crowd: Crowd,
) -> Result<u128> {
    let start = Instant::now(rt)?;
    for _ in 0..10u64 {
        at_desk_by(rt, alloc, crowd)?;
    }
    Ok(start.elapsed(rt)?.as_nanos())
}

// The nanoseconds of the rounds under a `Mutex`.
fn time_mutex<R: Threads + Wait + Sync + Clock>(
    rt: &R,
    alloc: Global,
    crowd: Crowd,
) -> Result<u128> {
    let start = Instant::now(rt)?;
    for _ in 0..10u64 {
        at_mutex_by(rt, alloc, crowd)?;
    }
    Ok(start.elapsed(rt)?.as_nanos())
}

fn print_times(rt: &HostRuntime, crowd: Crowd, desk: u128, mutex: u128) -> Result<()> {
    let threads = crowd.threads();
    println!(rt;
        "threads {threads} rounds 10 turns {TURNS} desk nanoseconds {desk} mutex nanoseconds {mutex}"
    )?;
    Ok(())
}

fn print_end(rt: &HostRuntime, place: &str, crowd: Crowd, end: End) -> Result<()> {
    let threads = crowd.threads();
    let End { turns, sum } = end;
    println!(rt; "{place} threads {threads} turns {turns} sum {sum}")?;
    Ok(())
}

fn main(rt: HostRuntime) -> Result<()> {
    let alloc = rt.alloc();
    let timing = env::args(&rt)?.skip(1).any(|word| word.as_str() == "time");
    for crowd in [Crowd::One, Crowd::Two, Crowd::Four] {
        let end = at_desk_by(&rt, alloc, crowd)?;
        print_end(&rt, "desk", crowd, end)?;
        let end = at_mutex_by(&rt, alloc, crowd)?;
        print_end(&rt, "mutex", crowd, end)?;
        if timing {
            let desk = time_desk(&rt, alloc, crowd)?;
            let mutex = time_mutex(&rt, alloc, crowd)?;
            print_times(&rt, crowd, desk, mutex)?;
        }
    }
    Ok(())
}
