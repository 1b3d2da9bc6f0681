// Runs over the file of a store.
use crate::devices::{Serving, devices, run};
use keeper_sqlite::{KeeperSqlite, Refused};
use program_start::{StartErr, open_store};
use sat_base::{Line, Nodes};
use sat_devices::{Console, Watched};
use satellite_cli::Status;
use sqlite::{Alter, Connection};
use std::alloc::Global;
use std::sync::Wait;
use std::thread::Threads;
use std::{io, str};

// The most lanes of a run.
const LANES: usize = 16;

/// The name of a store's file, whether it may be made, and what serves it.
#[derive(Drop)]
pub struct OpenStore<'a, N> {
    pub name: &'a [u8],
    pub may_make: bool,
    pub serving: Serving<N>,
}

// A run over a store, whatever it is. Once no commit can be done any more it ends, and that is its status where it has no
// other.
fn over_store<S: Alter + Drop + Send, N: Nodes + Send, R: Threads + Wait + Sync>(
    rt: HostRuntime,
    handles: &R,
    alloc: Global,
    line: &Line,
    conn: Connection<S>,
    serving: Serving<N>,
) -> Result<(u8, Connection<S>), StartErr> {
    if serving.posts.len() > LANES || !conn.is_autocommit() {
        return Err(StartErr::Start);
    }
    let keeper = match KeeperSqlite::of(conn) {
        Ok(keeper) => keeper,
        Err(Refused::Fault) => return Err(StartErr::Start),
        Err(Refused::NoMemory) => return Err(StartErr::NoMemory),
    };
    let (mine, its) = (serving.service.share()?, serving.service.share()?);
    let console = Console::new(rt.reader(), io::writer(&rt));
    let world = devices(rt, console, Watched::of(keeper, its), serving)?;
    let (status, keeper) = run(handles, alloc, line, world);
    let conn = keeper.into_keeper().into_connection();
    if mine.lost_store() && status == 0 {
        // The status stands whether its line can be printed or not.
        let _ = rt.print("error: store\n");
        return Ok((Status::StoreFault.code(), conn));
    }
    Ok((status, conn))
}

/// A run over the file of this name, which is closed at the end, so that one file is left.
pub fn over_file<N: Nodes + Send, R: Threads + Wait + Sync>(
    rt: HostRuntime,
    handles: &R,
    alloc: Global,
    line: &Line,
    open: OpenStore<'_, N>,
) -> Result<u8, StartErr> {
    let OpenStore {
        name,
        may_make,
        serving,
    } = open;
    let Ok(path) = str::from_utf8(name) else {
        return Err(StartErr::Start);
    };
    let conn = open_store(&rt, "satellite", path, may_make)?;
    let (status, conn) = over_store(rt, handles, alloc, line, conn, serving)?;
    // What was committed stands whether it can be closed or not.
    let _ = conn.close();
    Ok(status)
}
