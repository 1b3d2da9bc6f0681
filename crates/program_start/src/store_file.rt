// The file of a store.
use crate::StartErr;
use sqlite::{Connection, Error, ErrorCode, File, FileStore};
use std::fs::{self, OpenOptions};
use std::io;
use std::io::ErrorKind;
use std::os::unix::fs::{OpenOptionsExt, PermissionsExt};

// Who may use a store's file, and a mask of what others may do with it.
const OWN: u32 = 0o600;

const OTHERS: u32 = 0o077;

// Makes a file that only its owner may use, unless one stands there.
fn make(rt: &HostRuntime, path: &str) -> io::Result<()> {
    match OpenOptions::new()
        .write(true)
        .create_new(true)
        .mode(OWN)
        .open(rt, path)
    {
        Ok(_) => Ok(()),
        Err(e) if e.kind() == ErrorKind::AlreadyExists => Ok(()),
        Err(e) => Err(e),
    }
}

// Makes the file where it may be made, and sees that it can be used. What others may do with it is told.
fn look_at(rt: &HostRuntime, program: &str, path: &str, may_make: bool) -> io::Result<()> {
    if may_make {
        make(rt, path)?;
    }
    OpenOptions::new().read(true).write(true).open(rt, path)?;
    let mode = fs::metadata(rt, path)?.permissions().mode();
    if mode & OTHERS != 0 {
        let bits = mode & 0o777;
        eprintln!(rt;
            "{program}: {path}: others may use it (mode {bits:o}), and it holds what is secret: chmod 600"
        )?;
    }
    Ok(())
}

/// Opens the file of a store, and makes it where it may be made. What is wrong with it is told on standard error, which may be
/// closed.
pub fn open_store(
    rt: &HostRuntime,
    program: &str,
    path: &str,
    may_make: bool,
) -> Result<Connection<FileStore<File>>, StartErr> {
    if path == ":memory:" || path.starts_with("file:") {
        let _ = eprintln!(rt; "{program}: {path}: no name of a file");
        return Err(StartErr::Start);
    }
    if let Err(e) = look_at(rt, program, path, may_make) {
        return Err(StartErr::of(rt, program, path, &e));
    }
    match Connection::open(rt, path) {
        Ok(conn) => Ok(conn),
        Err(Error::SqliteFailure(ErrorCode::OutOfMemory)) => Err(StartErr::NoMemory),
        Err(Error::SqliteFailure(ErrorCode::DatabaseBusy)) => {
            let _ = eprintln!(rt; "{program}: {path}: another program has it open");
            Err(StartErr::Start)
        }
        Err(_) => {
            let _ = eprintln!(rt; "{program}: {path}: no database, or a damaged one");
            Err(StartErr::Start)
        }
    }
}
