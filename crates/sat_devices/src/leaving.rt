// A connection that was served.
use crate::once::{read_once, write_once};
use crate::time_limit::TimeLimit;
use mio::net::TcpStream;
use std::io::ErrorKind;
use std::net::Shutdown;
use std::time::Clock;

// For how many seconds, and how many pieces of so many bytes, a connection whose answer was written is still read.
const LINGER: u64 = 1;

const LINGER_PIECES: u32 = 256;

const LINGER_PIECE: usize = 4096;

/// A connection, what is still to be written of its answer, and until when.
///
/// A system that closes a connection with bytes that nobody read resets it, and the answer may be lost. So behind the
/// answer the client is told that no more is written, and what it sends is read and forgotten until it closes, for a
/// second and 1 MiB at most.
#[derive(Drop)]
pub(crate) struct Leaving {
    stream: TcpStream,
    answer: Vec<u8>,
    written: usize,
    limit: TimeLimit,
    is_told: bool,
    pieces: u32,
}

impl Leaving {
    /// A connection that was served, with the rest of its answer.
    pub(crate) fn new(stream: TcpStream, answer: Vec<u8>, limit: TimeLimit) -> Leaving {
        Leaving {
            stream,
            answer,
            written: 0,
            limit,
            is_told: false,
            pieces: 0,
        }
    }

    /// How many bytes it holds.
    pub(crate) fn held(&self) -> usize {
        self.answer.len()
    }

    /// Writes and reads what can be. Whether the connection is over.
    pub(crate) fn go_on<R: Clock>(&mut self, rt: &R) -> bool {
        if !self.is_told {
            match self.write() {
                Some(true) => {}
                Some(false) => return false,
                None => return true,
            }
            if self.stream.shutdown(Shutdown::Write).is_err() {
                return true;
            }
            self.is_told = true;
            self.limit = TimeLimit::after(rt, LINGER);
        }
        self.is_read_out()
    }

    // Writes what the client takes: whether that is all. Nothing where it takes no more.
    fn write(&mut self) -> Option<bool> {
        for _ in 0..u64::MAX {
            let rest = self.answer.get(self.written..)?;
            if rest.is_empty() {
                return Some(true);
            }
            let mut output = &self.stream;
            match write_once(&mut output, rest) {
                Ok(0) => return None,
                Ok(count) => self.written = self.written.saturating_add(count),
                Err(e) if e.kind() == ErrorKind::WouldBlock => return Some(false),
                Err(_) => return None,
            }
        }
        None
    }

    // Reads on: whether the client has closed, or sent too much.
    fn is_read_out(&mut self) -> bool {
        let mut rest = [0u8; LINGER_PIECE];
        for _ in 0..LINGER_PIECES {
            let mut input = &self.stream;
            match read_once(&mut input, &mut rest) {
                Ok(0) => return true,
                Ok(_) => self.pieces = self.pieces.saturating_add(1),
                Err(e) => return e.kind() != ErrorKind::WouldBlock,
            }
            if self.pieces >= LINGER_PIECES {
                return true;
            }
        }
        true
    }

    /// Whether its time is up.
    pub(crate) fn is_late<R: Clock>(&self, rt: &R) -> bool {
        self.limit.is_up(rt)
    }
}
