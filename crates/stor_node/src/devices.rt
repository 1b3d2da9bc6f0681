// The devices of the program.
use keeper_sqlite::{KeeperSqlite, Refused};
use program_start::{StartErr, open_store};
use sat_base::{Clock, Keeper, KeeperMem, Lane, Line, Link, MemLane, Service};
use sat_console::Status;
use sat_devices::{Console, Room, SystemClock, TcpLane, Watched};
use sqlite::{Alter, Connection, File, FileStore};
use std::alloc::Global;
use std::io;
use std::net::Ipv4Addr;
use stor_base::{MemPieces, MemSettler, Pieces, Settler};
use stor_devices::{FolderPieces, HttpSettler};
use stor_node_cli::{NodeEnded, NodeWords, NodeWorld, stor_node};
use stor_wire::Account;

// The program, as its lines on standard error name it.
const NAME: &str = "stor_node";

// The file of the orders, in the node's folder.
const USES: &str = "uses.db";

// Runs the command that the words are, over any devices: its status, and the keeper again. The other devices are let go here,
// where the prover doesn't look into them.
fn run<C: Link, K: Keeper, P: Pieces, L: Lane, T: Clock, S: Settler>(
    alloc: Global,
    line: &Line,
    world: NodeWorld<C, K, P, L, T, S>,
) -> (u8, K) {
    let NodeEnded {
        status,
        world,
        served: _,
    } = stor_node(alloc, line, world);
    let NodeWorld {
        console: _,
        keeper,
        pieces: _,
        lane: _,
        clock: _,
        settler: _,
    } = world;
    (status, keeper)
}

/// A run of words that are no command: no device but the console is used.
pub fn without_folder(rt: HostRuntime, alloc: Global, line: &Line) -> Result<u8, StartErr> {
    let world = NodeWorld {
        console: Console::new(rt.reader(), io::writer(&rt)),
        keeper: KeeperMem::of(Vec::new(alloc), Vec::new(alloc)),
        pieces: MemPieces::of(Vec::new(alloc), Vec::new(alloc)),
        lane: MemLane::of(alloc, Vec::new(alloc), Vec::new(alloc))?,
        clock: SystemClock::new(rt),
        settler: MemSettler::of(alloc, Vec::new(alloc), Vec::new(alloc)),
    };
    let (status, _) = run(alloc, line, world);
    Ok(status)
}

// The pieces of a folder, which has to be there.
fn pieces_in(rt: HostRuntime, dir: &str) -> Result<FolderPieces<HostRuntime>, StartErr> {
    match FolderPieces::open(rt, dir) {
        Ok(pieces) => Ok(pieces),
        Err(e) => Err(StartErr::of(&rt, NAME, dir, &e)),
    }
}

// The links that come to the node's port.
fn lane_of(
    rt: HostRuntime,
    asked: &NodeWords<'_>,
    service: Service,
) -> Result<TcpLane<HostRuntime>, StartErr> {
    let addr = Ipv4Addr::from(asked.addr);
    match TcpLane::listen_at(rt, addr, asked.port, Room::for_pieces()) {
        Ok(lane) => Ok(lane.served(service)),
        Err(e) => Err(StartErr::of_port(&rt, NAME, asked.port, &e)),
    }
}

// The file of the orders, in a folder.
fn uses_in(
    rt: &HostRuntime,
    alloc: Global,
    dir: &str,
) -> Result<Connection<FileStore<File>>, StartErr> {
    let Ok(path) = format!(in alloc; "{dir}/{USES}") else {
        return Err(StartErr::NoMemory);
    };
    open_store(rt, NAME, path.as_str(), true)
}

// A run over the orders of a store, whatever it is. Once no commit can be done any more it ends, and that is its status where
// it has no other.
fn over_store<S: Alter + Drop + Send>(
    rt: HostRuntime,
    alloc: Global,
    line: &Line,
    asked: &NodeWords<'_>,
    conn: Connection<S>,
) -> Result<(u8, Connection<S>), StartErr> {
    if !conn.is_autocommit() {
        return Err(StartErr::Start);
    }
    let service = Service::new(alloc)?;
    let lane = lane_of(rt, asked, service.share()?)?;
    let keeper = match KeeperSqlite::of(conn) {
        Ok(keeper) => keeper,
        Err(Refused::Fault) => return Err(StartErr::Start),
        Err(Refused::NoMemory) => return Err(StartErr::NoMemory),
    };
    let world = NodeWorld {
        console: Console::new(rt.reader(), io::writer(&rt)),
        keeper: Watched::of(keeper, service.share()?),
        pieces: pieces_in(rt, asked.dir)?,
        lane,
        clock: SystemClock::new(rt),
        settler: HttpSettler::of(
            rt,
            Account {
                node: asked.node,
                key: asked.key,
                port: asked.satellite,
            },
        ),
    };
    let (status, keeper) = run(alloc, line, world);
    let conn = keeper.into_keeper().into_connection();
    if service.lost_store() && status == 0 {
        // The status stands whether its line can be printed or not.
        let _ = rt.print("error: store\n");
        return Ok((Status::StoreFault.code(), conn));
    }
    Ok((status, conn))
}

/// A run over the folder of a node, whose file of orders is closed at the end, so that one file is left.
pub fn over_folder(
    rt: HostRuntime,
    alloc: Global,
    line: &Line,
    asked: &NodeWords<'_>,
) -> Result<u8, StartErr> {
    let conn = uses_in(&rt, alloc, asked.dir)?;
    let (status, conn) = over_store(rt, alloc, line, asked, conn)?;
    // What was committed stands whether it can be closed or not.
    let _ = conn.close();
    Ok(status)
}
