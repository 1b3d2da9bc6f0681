//! Threads that add to the same register under a `Mutex`.
ghost use Rattle.std.specs.Prelude.{◌<◌};

use crate::register::Register;
use std::sync::{Mutex, Wait};
use std::thread::{Threads, join};
use turnstile::Turn;

/// Makes so many calls, or as many as there is room for.
pub fn one<R: Wait>(rt: &R, register: &Mutex<Register>, pass: u32, calls: u64) {
    for call in 0..calls {
        let mut held = register.lock(rt);
        let register = &mut *held;
        if register.history.len() < register.history.capacity() {
            let _ = register.turn(pass, call);
        }
    }
}

/// Two threads, each with half of the calls.
pub fn two<R: Threads + Wait + Sync>(rt: &R, register: &Mutex<Register>, pass: u32, calls: u64) {
    join(
        rt,
        || one(rt, register, pass, calls / 2),
        || one(rt, register, pass ^ 1, calls - calls / 2),
    );
}

/// Four threads, each with a quarter of the calls.
pub fn four<R: Threads + Wait + Sync>(rt: &R, register: &Mutex<Register>, calls: u64) {
    join(
        rt,
        || two(rt, register, 0, calls / 2),
        || two(rt, register, 2, calls - calls / 2),
    );
}
