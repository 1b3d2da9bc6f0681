//! The storage node's program: its words, its devices, and the top call over both.
//!
//! `main` hands the words and the real devices to `stor_node_cli::stor_node`, and its status to the system: the console, the
//! file `uses.db` of the node's folder for its orders, the folder itself for its pieces, a port for its links, and the satellite
//! that settles its orders. Of `main` itself nothing is proved but that it is safe; the gate runs it on examples.
#![tactic(auto)]

mod devices;
mod usage;

use devices::{over_folder, without_folder};
use program_start::{StartErr, say_start, say_usage, words};
use std::alloc::Global;
use std::process::ExitCode;
use stor_node_cli::read_words;
use usage::PROGRAM;

fn run(rt: HostRuntime, alloc: Global) -> Result<u8, StartErr> {
    let line = words(&rt, alloc)?;
    match read_words(&line) {
        Some(asked) => over_folder(rt, alloc, &line, &asked),
        None => {
            // The status and its line stand whether that can be told or not.
            let _ = say_usage(&rt, &PROGRAM, &line);
            without_folder(rt, alloc, &line)
        }
    }
}

fn main(rt: HostRuntime) -> ExitCode {
    ExitCode::from(match run(rt, rt.alloc()) {
        Ok(status) => status,
        Err(why) => say_start(&rt, why),
    })
}
