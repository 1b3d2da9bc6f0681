// The console over a reader and a writer that answer by a list.
ghost use Rattle.std.specs.Prelude.{◌≤◌, IfOk};

use anyhow::Result;
use sat_base::{Sink, Source};
use sat_devices::Console;
use std::io;
use std::io::{ErrorKind, Read, Write};

// What a call answers: a number of bytes, an interruption, or a failure.
#[derive(Clone, Copy)]
enum Answer {
    Bytes(usize),
    Interrupted,
    Broken,
}

// An interruption, two bytes, a failure, and as many bytes as are asked for; then the end.
const ANSWERS: [Answer; 4] = [
    Answer::Interrupted,
    Answer::Bytes(2),
    Answer::Broken,
    Answer::Bytes(9),
];

// How often a console over it is read, and written to.
const CALLS: usize = 4;

// Answers one after the other.
#[derive(Drop)]
struct Script {
    calls: usize,
}

impl Script {
    fn answer(&mut self, room: usize) -> io::Result<usize>
        ensures { IfOk result (λ n. n ≤ room) }
    {
        let call = self.calls;
        self.calls = call.saturating_add(1);
        match ANSWERS.get(call) {
            None => Ok(0),
            Some(Answer::Bytes(n)) => Ok(room.min(*n)),
            Some(Answer::Interrupted) => Err(io::Error::from(ErrorKind::Interrupted)),
            Some(Answer::Broken) => Err(io::Error::from(ErrorKind::BrokenPipe)),
        }
    }
}

impl Read for Script {
    fn read(&mut self, buf: &mut [u8]) -> io::Result<usize> {
        self.answer(buf.len())
    }
}

impl Write for Script {
    fn write(&mut self, buf: &[u8]) -> io::Result<usize> {
        self.answer(buf.len())
    }

    fn flush(&mut self) -> io::Result<()> {
        Ok(())
    }
}

/// A console that is interrupted and fails: what each call answers, and the counts of failed reads and writes behind it.
pub fn faulty(rt: &HostRuntime) -> Result<()> {
    let mut console = Console::new(Script { calls: 0 }, Script { calls: 0 });
    let mut buf = [0u8; 4];
    for _ in 0..CALLS {
        let taken = console.read(&mut buf);
        let (reads, writes) = (console.read_faults(), console.write_faults());
        println!(rt; "console: read {taken:?} {reads} {writes}")?;
    }
    for _ in 0..CALLS {
        let given = console.put(b"four");
        let (reads, writes) = (console.read_faults(), console.write_faults());
        println!(rt; "console: put {given:?} {reads} {writes}")?;
    }
    Ok(())
}
