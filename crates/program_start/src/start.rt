// Why a program's top call isn't made.
use sat_base::NoMemory;
use sat_console::Status;
use std::io;
use std::io::ErrorKind;

// Where a port or the store's file can't be had.
const START: u8 = 20;

/// Why the top call isn't made.
#[derive(Clone, Copy, Debug, PartialEq, Eq)]
pub enum StartErr {
    /// A port can't be bound, a folder or the store's file can't be opened, or the file isn't a store.
    Start,
    /// Memory runs out.
    NoMemory,
}

impl From<NoMemory> for StartErr {
    fn from(_: NoMemory) -> StartErr {
        StartErr::NoMemory
    }
}

impl StartErr {
    /// What an error of the system comes to. Of what it was is told on standard error, unless memory ran out.
    pub fn of(rt: &HostRuntime, program: &str, what: &str, error: &io::Error) -> StartErr {
        if error.kind() == ErrorKind::OutOfMemory {
            return StartErr::NoMemory;
        }
        // It stands whether that can be told or not.
        let _ = eprintln!(rt; "{program}: {what}: {error}");
        StartErr::Start
    }

    /// The same where a port can't be had.
    pub fn of_port(rt: &HostRuntime, program: &str, port: u16, error: &io::Error) -> StartErr {
        if error.kind() == ErrorKind::OutOfMemory {
            return StartErr::NoMemory;
        }
        let _ = eprintln!(rt; "{program}: port {port}: {error}");
        StartErr::Start
    }
}

/// The status of a program that ends before its top call, 20 or 9. It prints `error: start` or `error: memory`.
pub fn say_start(rt: &HostRuntime, why: StartErr) -> u8 {
    // The status stands whether its line can be printed or not.
    match why {
        StartErr::Start => {
            let _ = rt.print("error: start\n");
            START
        }
        StartErr::NoMemory => {
            let _ = rt.print("error: memory\n");
            Status::NoMemory.code()
        }
    }
}
