//! The real devices, tried over the system: connections on loopback, random words, the clock and ticks.
//!
//! Each case is a line of the output, which says what a device answered. The cases are its stored output, the same at
//! every run. The ports are those that the system picks, and the program takes some twenty seconds.
//!
//! - `console`: a reader and a writer that are interrupted and fail.
//! - `connections`: an exchange, clients that close, addresses, a taken port, a lane in a thread.
//! - `endings`: unread bytes, a client that stays, one that resets.
//! - `crowds`: silent clients, many requests at once, an answer that isn't read.
//! - `rooms`: bodies as long as a lane has room for, a lane that has no more, and pieces.
//! - `services`: a store that is lost, lanes that are shut, and what ends with them.
//! - `folders`: pieces as files: ranges, puts, what a crash leaves, names that aren't files, a folder that is gone.
//! - `settlers`: orders that are offered to a satellite that answers, cuts its answer off, says nothing or isn't there.
//! - `machine`: words, moments and ticks of the system, and of one that fails or jumps when it is told to.
//!
//! Nothing is promised beyond the contracts of `sat_devices` and `stor_devices`.
#![tactic(auto)]

mod client;
mod connections;
mod console;
mod crowds;
mod endings;
mod folders;
mod hurried;
mod machine;
mod rooms;
mod scripted;
mod services;
mod settlers;

use anyhow::Result;

fn main(rt: HostRuntime) -> Result<()> {
    connections::exchange(&rt)?;
    connections::closed(&rt)?;
    connections::loopback(&rt)?;
    connections::taken_port(&rt)?;
    connections::in_a_thread(&rt, &rt)?;
    endings::unread(&rt)?;
    endings::stays(&rt)?;
    endings::reset(&rt)?;
    rooms::bodies(&rt)?;
    rooms::full(&rt)?;
    rooms::pieces(&rt, &rt)?;
    crowds::silence(&rt, &rt)?;
    crowds::burst(&rt, &rt)?;
    crowds::unread_answer(&rt, &rt)?;
    machine::words(&rt)?;
    machine::moments(&rt)?;
    machine::jumps(&rt)?;
    machine::ticks(&rt)?;
    services::losses(&rt)?;
    services::ends(&rt)?;
    services::shuts(&rt)?;
    console::faulty(&rt)?;
    folders::ranges(&rt)?;
    folders::again(&rt)?;
    folders::long(&rt)?;
    folders::leftover(&rt)?;
    folders::no_files(&rt)?;
    folders::linked_part(&rt)?;
    folders::gone(&rt)?;
    settlers::answers(&rt, &rt)?;
    settlers::nobody(&rt)?;
    settlers::silence(&rt, &rt)
}
