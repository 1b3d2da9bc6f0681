ghost use Rattle.std.specs.Prelude.{◌≡◌};
ghost use Rattle.sat_devices.specs.Faults.{Faults, device_about};

use crate::once::{read_once, write_once};
use sat_base::{Given, Link, Outside, Sink, Source, Taken};
use std::io::{Read, Write};
use std::marker::Model;

/// A console over a reader and a writer, as standard input and output. Contracts see its counts of faults.
#[derive(Drop)]
pub struct Console<R: Read + Drop, W: Write + Drop> {
    input: R,
    output: W,
    read_faults: u64,
    write_faults: u64,
}

impl<R: Read + Drop, W: Write + Drop> Model for Console<R, W> {
    ghost Value = { Faults };

    ghost view = { λ c. record { reads = c.read_faults; writes = c.write_faults } };
}

impl<R: Read + Drop, W: Write + Drop> Console<R, W> {
    /// A console that has met no fault.
    pub fn new(input: R, output: W) -> Self
        ensures { result ≡ record { reads = 0; writes = 0 } }
    {
        Console {
            input,
            output,
            read_faults: 0,
            write_faults: 0,
        }
    }

    /// How many reads have failed, up to 2^64 - 1.
    pub fn read_faults(&self) -> u64
        ensures { result ≡ self.now.reads }
    {
        self.read_faults
    }

    /// How many puts have failed, up to 2^64 - 1.
    pub fn write_faults(&self) -> u64
        ensures { result ≡ self.now.writes }
    {
        self.write_faults
    }
}

impl<R: Read + Drop, W: Write + Drop> Outside for Console<R, W> {
    ghost about = { device_about };
}

impl<R: Read + Drop, W: Write + Drop> Source for Console<R, W> {
    fn read(&mut self, buf: &mut [u8]) -> Taken {
        match read_once(&mut self.input, buf) {
            Ok(0) => Taken::End,
            Ok(count) => Taken::Count(count),
            Err(_) => {
                self.read_faults = self.read_faults.saturating_add(1);
                Taken::Failed
            }
        }
    }
}

impl<R: Read + Drop, W: Write + Drop> Sink for Console<R, W> {
    fn put(&mut self, piece: &[u8]) -> Given {
        match write_once(&mut self.output, piece) {
            // A writer that takes nothing of a piece that isn't empty will take nothing more.
            Ok(0) | Err(_) => {
                self.write_faults = self.write_faults.saturating_add(1);
                Given::Failed
            }
            Ok(count) => Given::Count(count),
        }
    }
}

impl<R: Read + Drop, W: Write + Drop> Link for Console<R, W> {}
