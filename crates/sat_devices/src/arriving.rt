// A connection whose request comes.
use crate::once::read_once;
use crate::time_limit::TimeLimit;
use crate::whole::{Extent, extent_of};
use mio::net::TcpStream;
use std::alloc::Global;
use std::io::ErrorKind;
use std::time::Clock;

// For how many seconds a client may say nothing, and how many a request may take.
const SILENCE: u64 = 10;

const WHOLE: u64 = 30;

// How many bytes are read at once.
const PIECE: usize = 4096;

/// How a request stands.
#[derive(Clone, Copy, Debug, PartialEq, Eq)]
pub(crate) enum Progress {
    /// More of it may come.
    Comes,
    /// It is decided, or its client sends no more.
    Ready,
    /// The connection is broken, or there is no memory for what came.
    Lost,
}

/// A connection, and what came of its request.
#[derive(Drop)]
pub(crate) struct Arriving {
    pub stream: TcpStream,
    pub request: Vec<u8>,
    /// Whether its client sends no more.
    pub is_over: bool,
    /// How many had come with it.
    pub number: u64,
    extent: Extent,
    silence: TimeLimit,
    whole: TimeLimit,
}

impl Arriving {
    /// A connection that has just come.
    pub(crate) fn new<R: Clock>(rt: &R, alloc: Global, stream: TcpStream, number: u64) -> Arriving {
        Arriving {
            stream,
            request: Vec::new(alloc),
            is_over: false,
            number,
            extent: Extent::Part,
            silence: TimeLimit::after(rt, SILENCE),
            whole: TimeLimit::after(rt, WHOLE),
        }
    }

    /// Reads what has come of a request, whose body may have so many bytes.
    pub(crate) fn take<R: Clock>(&mut self, rt: &R, most: u64) -> Progress {
        let mut piece = [0u8; PIECE];
        for _ in 0..u64::MAX {
            let mut input = &self.stream;
            let count = match read_once(&mut input, &mut piece) {
                Ok(0) => {
                    self.is_over = true;
                    return Progress::Ready;
                }
                Ok(count) => count,
                Err(e) if e.kind() == ErrorKind::WouldBlock => return Progress::Comes,
                Err(_) => return Progress::Lost,
            };
            self.silence = TimeLimit::after(rt, SILENCE);
            if self.request.extend_from_slice(&piece[..count]).is_err() {
                return Progress::Lost;
            }
            self.extent = extent_of(&self.request, most);
            if self.extent == Extent::Whole {
                return Progress::Ready;
            }
        }
        Progress::Lost
    }

    /// Whether its client has been silent for too long, or its request takes too long.
    pub(crate) fn is_late<R: Clock>(&self, rt: &R) -> bool {
        self.silence.is_up(rt) || self.whole.is_up(rt)
    }

    /// Whether its head is whole, which may decide it.
    pub(crate) fn has_head(&self) -> bool {
        self.extent != Extent::Part
    }
}
