//! Whole runs of the top call over devices in memory, tried by lines. Each line of the input is answered by one of the
//! output, but `run`, `race` and `rows`.
//!
//! - `store NAME` begins with an empty keeper and no lanes. The rows that the keeper has follow, as for `trial_cases`: `row`, a
//!   record, `like`, `without` and so on.
//! - `fail keeper NUMBERS` and `fail console NUMBERS` say which of their calls are to fail in the next run, from 1.
//!   `input TEXT` is what the console has to read.
//! - `lane NUMBERS` adds a lane, whose waits of these numbers fail. `link NUMBERS TEXT` adds a connection to it with this
//!   input, whose calls of these numbers fail, `links COUNT TEXT` so many, and `fronts TEXT` one for each byte of the text,
//!   before which its input ends. `moments NUMBERS` are the moments of its clock, `words COUNT WORD NUMBERS` its random
//!   words: so often this one, of which the draws of these numbers fail. Without a lane, both are those of `audit`, from
//!   which `init` draws too.
//! - `worker NAME TICKS NUMBERS` gives a worker of rounds, `audit`, `repair` or `tally`, so many ticks, and its asks of these
//!   numbers no answer; the moments and words that follow are its own. `holds NAME NODE SEGMENT INDEX HEX` has its nodes hold
//!   a piece.
//! - `hold POINT POINT` holds whoever comes to the first point of the gate until the second was passed: `read:LANE`,
//!   `sent:LANE`, `audit` or `repair`.
//! - `run WORDS` runs the command over all this. It tells the status, what was written on the
//!   console, of each lane its sessions and what each connection was told, of each worker of rounds how its rounds ended and
//!   the places of their entries, and whether the gate held for too long. What is the same several times is told once, with
//!   the number of times. The next run has the same keeper.
//! - `race WORDS` does the same, but tells no places of entries, since threads may enter them in any order.
//! - `rows` tells the rows that the keeper has behind a run, a line each.
//! - Empty lines and those that begin with `#` are answered by themselves, all others that are taken by `noted`, and the
//!   rest by `bad-line`.
//!
//! In a text `\r`, `\n` and `\xHH` are bytes, and `<COUNT TEXT>` is a text so often. The cases of all commands are its stored
//! input and output. Nothing is promised beyond the contract of `satellite`.
#![tactic(auto)]

mod ended;
mod lane;
mod plans;
mod running;
mod stage;
mod telling;
mod workers;

use anyhow::Result;
use stage::Stage;
use std::io;
use std::io::{BufWriter, Write};

fn main(rt: HostRuntime) -> Result<()> {
    let alloc = rt.alloc();
    let input = io::read_to_string(alloc, rt.reader())?;
    let lines: Vec<&str> = input.lines().collect(alloc)?;
    let mut stage = Stage::new(alloc);
    let mut output = BufWriter::new(alloc, io::writer(&rt))?;
    for line in &lines {
        let answer = stage.answer(&rt, &lines, line)?;
        writeln!(output, "{answer}")?;
    }
    output.flush()?;
    Ok(())
}
