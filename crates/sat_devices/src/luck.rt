// What an error of a port says of the port.
use std::io;
use std::io::ErrorKind;

// The errors of Linux after which a socket takes no connection any more: it is none, or it doesn't listen.
const BROKEN: [i32; 5] = [
    // EBADF
    9, // EFAULT
    14, // EINVAL
    22, // ENOTSOCK
    88, // EOPNOTSUPP
    95,
];

// Those after which the next connection may be taken at once: EPERM, EINTR, EPROTO, ECONNABORTED.
const PASSING: [i32; 4] = [1, 4, 71, 103];

// Those by which files or memory run out: ENOMEM, ENFILE, EMFILE, ENOBUFS.
const SCARCE: [i32; 4] = [12, 23, 24, 105];

/// Whether a port goes on after an error.
#[derive(Clone, Copy, Debug, PartialEq, Eq)]
pub(crate) enum Luck {
    /// No connection waits.
    None,
    /// The error was of one connection, or of one call.
    Passing,
    /// Files or memory runs out, of which a connection that is closed gives some back.
    Scarce,
    /// It may go on later, as where the network is down.
    Later,
    /// No connection comes any more.
    Broken,
}

/// What an error of accept says (accept(2)).
pub(crate) fn luck_of(error: &io::Error) -> Luck {
    if error.kind() == ErrorKind::WouldBlock {
        return Luck::None;
    }
    match error.raw_os_error() {
        Some(code) if BROKEN.contains(&code) => Luck::Broken,
        Some(code) if PASSING.contains(&code) => Luck::Passing,
        Some(code) if SCARCE.contains(&code) => Luck::Scarce,
        _ => Luck::Later,
    }
}
