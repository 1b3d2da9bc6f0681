// A machine whose clock stands where it is set, and which fails when it is told to.
use std::fmt::Display;
use std::io;
use std::io::{Eprint, ErrorKind};
use std::random::RandomSource;
use std::sync::atomic::{AtomicU64, Ordering};
use std::time::{Clock, Duration};

// What the clock's word is where the machine fails.
const FAILS: u64 = u64::MAX;

/// A machine whose two clocks stand at one number of seconds, but that one may be ahead, and whose random bytes are 1, 2, 3 and
/// so on. It counts the lines of its standard error.
#[derive(Drop)]
pub struct Scripted {
    seconds: AtomicU64,
    ahead: AtomicU64,
    lines: AtomicU64,
}

impl Scripted {
    /// A machine at 0 seconds.
    pub fn new() -> Scripted {
        Scripted {
            seconds: AtomicU64::new(0),
            ahead: AtomicU64::new(0),
            lines: AtomicU64::new(0),
        }
    }

    /// Sets its clocks. It works from now on.
    pub fn set(&self, seconds: u32) {
        self.seconds.store(u64::from(seconds), Ordering::SeqCst);
    }

    /// So far is its clock ahead of its monotonic one from now on.
    pub fn jump(&self, seconds: u32) {
        self.ahead.store(u64::from(seconds), Ordering::SeqCst);
    }

    /// How many lines it was told on standard error.
    pub fn lines(&self) -> u64 {
        self.lines.load(Ordering::SeqCst)
    }

    /// All calls fail from now on.
    pub fn fail(&self) {
        self.seconds.store(FAILS, Ordering::SeqCst);
    }

    fn seconds(&self) -> io::Result<u64> {
        match self.seconds.load(Ordering::SeqCst) {
            FAILS => Err(io::Error::from(ErrorKind::Unsupported)),
            seconds => Ok(seconds),
        }
    }
}

impl Clock for Scripted {
    fn monotonic(&self) -> io::Result<Duration> {
        Ok(Duration::from_secs(self.seconds()?))
    }

    fn since_1970(&self) -> io::Result<Duration> {
        let ahead = self.ahead.load(Ordering::SeqCst);
        Ok(Duration::from_secs(self.seconds()?.saturating_add(ahead)))
    }
}

impl Eprint for Scripted {
    fn eprint<D: Display + Drop>(&self, _value: D) -> io::Result<()> {
        Ok(())
    }

    fn eprintln<D: Display + Drop>(&self, _value: D) -> io::Result<()> {
        self.lines.fetch_add(1, Ordering::SeqCst);
        Ok(())
    }
}

impl RandomSource for Scripted {
    fn fill_bytes(&self, buf: &mut [u8]) -> io::Result<()> {
        self.seconds()?;
        let mut next = 0u8;
        for byte in buf {
            next = next.wrapping_add(1);
            *byte = next;
        }
        Ok(())
    }
}
