// A connection over TCP.
ghost use Rattle.std.specs.Prelude.{◌≡◌, ◌≤◌, IfSome, length};
ghost use Rattle.sat_devices.specs.Faults.{Faults, device_about};

use crate::arriving::Arriving;
use crate::leaving::Leaving;
use crate::once::write_once;
use crate::time_limit::TimeLimit;
use mio::net::TcpStream;
use sat_base::{Given, Link, Outside, Sink, Source, Taken};
use std::alloc::Global;
use std::io::ErrorKind;
use std::marker::Model;
use std::time::Clock;

// For how many seconds an answer is kept that its client doesn't take yet.
const WHOLE: u64 = 30;

/// A connection over TCP whose request has come, for its answer. Contracts see its counts of faults.
///
/// It waits for nothing: a read gives what has come, and a write keeps what the client doesn't take yet, as far as
/// its lane has room, for the lane to write while it waits for the next one. A read behind a request that is decided fails, unless its client
/// sends no more.
#[derive(Drop)]
pub struct TcpLink<R: Clock + Copy> {
    rt: R,
    place: usize,
    stream: TcpStream,
    request: Vec<u8>,
    taken: usize,
    is_over: bool,
    answer: Vec<u8>,
    // How many bytes of it are kept at most.
    most: usize,
    read_faults: u64,
    write_faults: u64,
}

impl<R: Clock + Copy> Model for TcpLink<R> {
    ghost Value = { Faults };

    ghost view = { λ l. record { reads = l.read_faults; writes = l.write_faults } };
}

impl<R: Clock + Copy> TcpLink<R> {
    /// The connection of a place, which has met no fault, with room for so many bytes of its answer.
    pub(crate) fn of(rt: R, alloc: Global, place: usize, guest: Arriving, most: usize) -> Self
        ensures { result ≡ record { reads = 0; writes = 0 } }
    {
        let Arriving {
            stream,
            request,
            is_over,
            ..
        } = guest;
        TcpLink {
            rt,
            place,
            stream,
            request,
            taken: 0,
            is_over,
            answer: Vec::new(alloc),
            most,
            read_faults: 0,
            write_faults: 0,
        }
    }

    /// How many reads have failed, up to 2^64 - 1.
    pub fn read_faults(&self) -> u64
        ensures { result ≡ self.now.reads }
    {
        self.read_faults
    }

    /// How many puts have failed, up to 2^64 - 1.
    pub fn write_faults(&self) -> u64
        ensures { result ≡ self.now.writes }
    {
        self.write_faults
    }

    /// Its place, and what is still to be done for it.
    pub(crate) fn leaving(self) -> (usize, Leaving) {
        let limit = TimeLimit::after(&self.rt, WHOLE);
        (self.place, Leaving::new(self.stream, self.answer, limit))
    }

    // Writes what the client takes, and keeps the rest. It gives how much was written or kept.
    fn write(&mut self, piece: &[u8]) -> Option<usize>
        ensures count { IfSome result (λ n. n ≤ length piece.now) }
        ensures faults { self.new ≡ self.old }
    {
        if self.answer.is_empty() {
            let mut output = &self.stream;
            match write_once(&mut output, piece) {
                Ok(count) => return Some(count),
                Err(e) if e.kind() == ErrorKind::WouldBlock => {}
                Err(_) => return None,
            }
        }
        if self.answer.len().saturating_add(piece.len()) > self.most {
            return None;
        }
        self.answer.extend_from_slice(piece).ok()?;
        Some(piece.len())
    }
}

impl<R: Clock + Copy> Outside for TcpLink<R> {
    ghost about = { device_about };
}

impl<R: Clock + Copy> Source for TcpLink<R> {
    fn read(&mut self, buf: &mut [u8]) -> Taken {
        let rest = self.request.get(self.taken..).unwrap_or(&[]);
        let count = rest.len().min(buf.len());
        if count > 0 {
            buf[..count].copy_from_slice(&rest[..count]);
            self.taken = self.taken.saturating_add(count);
            return Taken::Count(count);
        }
        if self.is_over {
            return Taken::End;
        }
        self.read_faults = self.read_faults.saturating_add(1);
        Taken::Failed
    }
}

impl<R: Clock + Copy> Sink for TcpLink<R> {
    fn put(&mut self, piece: &[u8]) -> Given {
        match self.write(piece) {
            Some(count) if count > 0 => Given::Count(count),
            // A connection that takes nothing of a piece that isn't empty will take nothing more.
            _ => {
                self.write_faults = self.write_faults.saturating_add(1);
                Given::Failed
            }
        }
    }
}

impl<R: Clock + Copy> Link for TcpLink<R> {}
