// A machine on which time passes quickly, with the real network.
use std::io;
use std::net::{Net, SocketAddr, TcpListener, TcpStream};
use std::sync::atomic::{AtomicU64, Ordering};
use std::time::{Clock, Duration};

/// A machine whose clock stands at 0 seconds at its first look, and then at a number that is given.
#[derive(Drop)]
pub struct Hurried {
    rt: HostRuntime,
    looks: AtomicU64,
    later: u64,
}

impl Hurried {
    /// A machine whose clock wasn't looked at.
    pub fn new(rt: HostRuntime, later: u64) -> Hurried {
        Hurried {
            rt,
            looks: AtomicU64::new(0),
            later,
        }
    }
}

impl Clock for Hurried {
    fn monotonic(&self) -> io::Result<Duration> {
        if self.looks.fetch_add(1, Ordering::SeqCst) == 0 {
            return Ok(Duration::ZERO);
        }
        Ok(Duration::from_secs(self.later))
    }

    fn since_1970(&self) -> io::Result<Duration> {
        self.monotonic()
    }
}

impl Net for Hurried {
    type Stream = TcpStream;

    type Listener = TcpListener;

    fn bind(&self, addr: SocketAddr) -> io::Result<TcpListener> {
        self.rt.bind(addr)
    }

    fn connect(&self, addr: SocketAddr) -> io::Result<TcpStream> {
        self.rt.connect(addr)
    }

    fn connect_timeout(&self, addr: SocketAddr, timeout: Duration) -> io::Result<TcpStream> {
        self.rt.connect_timeout(addr, timeout)
    }
}
