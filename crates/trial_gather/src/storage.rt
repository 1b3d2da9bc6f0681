// A storage node of our own at a real port, asked as the satellite asks.
use gather::TokioNodes;
use order_limits::{Action, Keys, Limit, Order};
use sat_base::{
    Ask, CustomerId, Fetched, Items, KeeperMem, Line, MemClock, MemConsole, NodeId, Nodes, SegId,
    Serial, Service,
};
use sat_devices::{Room, TcpLane};
use std::alloc::Global;
use std::test::Fail;
use std::thread;
use stor_base::{MemPieces, MemSettler, Piece};
use stor_node_cli::{NodeEnded, NodeWorld, stor_node};

const NODE: NodeId = NodeId(7);

const NOW: u64 = 1_772_323_200;

// 127.0.0.1
const ADDR: u32 = 2_130_706_433;

// What an audit asks of piece 3 of segment 5, under an order that the node's key is good for.
fn ask(keys: &Keys, port: u16) -> Ask {
    let limit = Limit {
        action: Action::GetAudit,
        serial: Serial(1),
        node: NODE,
        segment: SegId(5),
        index: 3,
        limit: 4,
        issued: NOW,
        expires: NOW,
        customer: CustomerId(0),
    };
    let order = Order { limit, amount: 4 };
    Ask {
        node: NODE,
        addr: ADDR,
        port,
        segment: SegId(5),
        index: 3,
        offset: 2,
        len: 4,
        order: order.write(keys),
    }
}

// The words of a node.
fn words(alloc: Global, keys: &Keys) -> Result<Line, Fail> {
    let mut line = Line::new(alloc);
    line.push("run")?;
    line.push("--node")?;
    line.push("7")?;
    line.push("--key")?;
    line.push(hex::encode(alloc, keys.node(NODE).as_slice())?.as_str())?;
    line.push("--dir")?;
    line.push("none")?;
    line.push("--port")?;
    line.push("1")?;
    line.push("--satellite")?;
    line.push("1")?;
    Ok(line)
}

// A piece of eight bytes.
fn pieces(alloc: Global) -> Result<MemPieces, Fail> {
    let mut held = Vec::new(alloc);
    held.push(Piece {
        segment: SegId(5),
        index: 3,
        bytes: Items::of(Vec::from_slice(alloc, &[1, 2, 3, 4, 5, 6, 7, 8])?),
    })?;
    Ok(MemPieces::of(held, Vec::new(alloc)))
}

#[test]
fn a_node_answers_the_satellites_ask(rt: HostRuntime) -> Result<(), Fail> {
    let (alloc, keys) = (rt.alloc(), Keys::new([0; 32]));
    let service = Service::new(alloc)?;
    let lane = TcpLane::listen_with(rt, 0, Room::for_pieces())?.served(service.share()?);
    let asked = ask(&keys, lane.port());
    let line = words(alloc, &keys)?;
    let world = NodeWorld {
        console: MemConsole::of(alloc, Vec::new(alloc), Vec::new(alloc)),
        keeper: KeeperMem::of(Vec::new(alloc), Vec::new(alloc)),
        pieces: pieces(alloc)?,
        lane,
        clock: MemClock::of(Vec::from_slice(alloc, &[NOW])?),
        settler: MemSettler::of(alloc, Vec::new(alloc), Vec::new(alloc)),
    };
    let mut nodes = TokioNodes::new(rt);
    let (net, said, its) = (&mut nodes, &asked, &service);
    let (ended, fetched) = thread::join(
        &rt,
        move || stor_node(alloc, &line, world),
        move || {
            let fetched = net.fetch(alloc, said);
            its.lose_store();
            fetched
        },
    );
    let NodeEnded {
        status,
        world,
        served,
    } = ended;
    assert_eq!(rt; status, 0);
    assert_eq!(rt; served.len(), 1);
    assert_eq!(rt; world.settler.offers().len(), 1);
    assert!(rt; is_range(&fetched));
    assert_eq!(rt; nodes.faults(), 0);
    Ok(())
}

// Whether the bytes that were asked for came.
fn is_range(fetched: &Fetched) -> bool {
    match fetched {
        Fetched::Share(bytes) => bytes.as_slice() == [3, 4, 5, 6].as_slice(),
        _ => false,
    }
}
