// Words, moments and ticks.
use crate::scripted::Scripted;
use anyhow::Result;
use sat_base::{Clock, Drawn, Ticks, Words};
use sat_devices::{MachineWords, SleepTicks, SystemClock};
use std::time::{Duration, Instant};

// Of so many words of eight bytes some one is greater than those of seven.
const WORDS: u32 = 64;

const WIDE: u64 = 0x00ff_ffff_ffff_ffff;

// The first second of 2020.
const IN_2020: u64 = 1_577_836_800;

/// Words of the system, which differ, and of a machine that then fails.
pub fn words(rt: &HostRuntime) -> Result<()> {
    let mut words = MachineWords::new(*rt);
    let (first, second) = (words.word(), words.word());
    let drawn = first != Drawn::Failed && second != Drawn::Failed && first != second;
    let is_wide = (0..WORDS).any(|_| matches!(words.word(), Drawn::Word(word) if word > WIDE));
    let machine = Scripted::new();
    let mut words = MachineWords::new(&machine);
    let word = words.word();
    machine.fail();
    let failed = words.word();
    println!(rt;
        "words: {drawn} {is_wide}; {word:?}, {failed:?} {}",
        words.faults()
    )?;
    Ok(())
}

/// A moment of the system, and those of a machine whose clock can't be read at first and between.
pub fn moments(rt: &HostRuntime) -> Result<()> {
    let recent = SystemClock::new(*rt).now() >= IN_2020;
    let machine = Scripted::new();
    let mut clock = SystemClock::new(&machine);
    machine.fail();
    let unread = clock.now();
    machine.set(7);
    let seven = clock.now();
    machine.fail();
    let again = clock.now();
    machine.set(5);
    let back = clock.now();
    println!(rt; "moments: {recent}; {unread} {seven} {again} {back}")?;
    Ok(())
}

/// A clock that jumps ahead, by an hour and by more, and comes back.
pub fn jumps(rt: &HostRuntime) -> Result<()> {
    let machine = Scripted::new();
    let mut clock = SystemClock::new(&machine);
    machine.set(100);
    let first = clock.now();
    machine.jump(3600);
    let hour = clock.now();
    machine.jump(7201);
    let more = clock.now();
    machine.set(130);
    let later = clock.now();
    machine.jump(3500);
    let back = clock.now();
    println!(rt;
        "jumps: {first} {hour}, {more} {later} told {}, {back}",
        machine.lines()
    )?;
    Ok(())
}

/// The first tick comes at once, the next after its second, and others at once.
pub fn ticks(rt: &HostRuntime) -> Result<()> {
    let start = Instant::now(rt)?;
    let mut seconds = SleepTicks::new(*rt, 1);
    let first = seconds.next();
    let at_once = start.elapsed(rt)? < Duration::from_secs(1);
    let tick = seconds.next();
    let waited = start.elapsed(rt)? >= Duration::from_secs(1);
    let mut ticks = SleepTicks::new(*rt, 0);
    println!(rt;
        "ticks: {first:?} {at_once}, {tick:?} {waited}, {:?}, {:?}",
        ticks.next(),
        ticks.next()
    )?;
    Ok(())
}
