// A connection that this side opens.
ghost use Rattle.std.specs.Prelude.{◌≡◌, IfOk};
ghost use Rattle.std.specs.Io.{ReadsAtMost, WritesAtMost};
ghost use Rattle.sat_devices.specs.Faults.{Faults, device_about};

use sat_base::{Given, Link, Outside, Sink, Source, Taken};
use sat_devices::{TimeLimit, read_once, write_once};
use std::io;
use std::io::ErrorKind;
use std::marker::Model;
use std::net::{Ipv4Addr, Net, OpenStream, SocketAddr, SocketAddrV4};
use std::time::{Clock, Duration};

// For how many seconds a call may wait, and how long all of them may take.
const CALL: u64 = 10;

const WHOLE: u64 = 30;

/// A connection to a port of this machine, over TCP. Contracts see its counts of faults. A call that takes more than ten
/// seconds fails, and so does each once thirty have passed since it was opened.
#[derive(Drop)]
pub(crate) struct ClientLink<R: Clock + Net + Copy> {
    rt: R,
    stream: R::Stream,
    limit: TimeLimit,
    read_faults: u64,
    write_faults: u64,
}

impl<R: Clock + Net + Copy> Model for ClientLink<R> {
    ghost Value = { Faults };

    ghost view = { λ l. record { reads = l.read_faults; writes = l.write_faults } };
}

impl<R: Clock + Net + Copy> ClientLink<R> {
    /// A connection to this port of 127.0.0.1, which has met no fault.
    pub(crate) fn connect(rt: R, port: u16) -> io::Result<ClientLink<R>>
        ensures { IfOk result (λ link. link ≡ record { reads = 0; writes = 0 }) }
    {
        let limit = TimeLimit::after(&rt, WHOLE);
        let at = SocketAddr::V4(SocketAddrV4::new(Ipv4Addr::LOCALHOST, port));
        let stream = rt.connect_timeout(at, Duration::from_secs(CALL))?;
        Ok(ClientLink {
            rt,
            stream,
            limit,
            read_faults: 0,
            write_faults: 0,
        })
    }

    // How long the next call may take.
    fn left(&self) -> io::Result<Duration> {
        match self.limit.left(&self.rt, CALL) {
            Some(left) => Ok(left),
            None => Err(io::Error::from(ErrorKind::TimedOut)),
        }
    }

    fn take(&mut self, buf: &mut [u8]) -> io::Result<usize>
        ensures count { ReadsAtMost result buf.new }
        ensures faults { self.new ≡ self.old }
    {
        let left = self.left()?;
        self.stream.set_read_timeout(Some(left))?;
        read_once(&mut self.stream, buf)
    }

    fn give(&mut self, piece: &[u8]) -> io::Result<usize>
        ensures count { WritesAtMost result piece.now }
        ensures faults { self.new ≡ self.old }
    {
        let left = self.left()?;
        self.stream.set_write_timeout(Some(left))?;
        write_once(&mut self.stream, piece)
    }
}

impl<R: Clock + Net + Copy> Outside for ClientLink<R> {
    ghost about = { device_about };
}

impl<R: Clock + Net + Copy> Source for ClientLink<R> {
    fn read(&mut self, buf: &mut [u8]) -> Taken {
        match self.take(buf) {
            Ok(0) => Taken::End,
            Ok(count) => Taken::Count(count),
            Err(_) => {
                self.read_faults = self.read_faults.saturating_add(1);
                Taken::Failed
            }
        }
    }
}

impl<R: Clock + Net + Copy> Sink for ClientLink<R> {
    fn put(&mut self, piece: &[u8]) -> Given {
        match self.give(piece) {
            // A connection that takes nothing of a piece that isn't empty will take nothing more.
            Ok(0) | Err(_) => {
                self.write_faults = self.write_faults.saturating_add(1);
                Given::Failed
            }
            Ok(count) => Given::Count(count),
        }
    }
}

impl<R: Clock + Net + Copy> Link for ClientLink<R> {}
