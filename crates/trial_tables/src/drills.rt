// The nodes of a drill: which of them alter what they are given, and which pieces are counted as wrong.
ghost use Rattle.std.specs.Prelude.{◌≤◌, length};

use rs_stripe::encode_pieces;
use sat_base::{Ask, Bytes, Fetched, NoMemory, NodeId, Nodes, Scheme, SegId, Stored};
use sat_drill::{Altering, Uploads};
use std::alloc::Global;

const INDEX: u8 = 3;

fn scheme() -> Scheme {
    Scheme {
        k: 2,
        m: 3,
        o: 4,
        n: 5,
        share: 2,
    }
}

// The drill's nodes, once segment 1 was uploaded.
fn drilled_nodes(alloc: Global) -> Result<Altering, NoMemory> {
    let mut uploads = Uploads::new(alloc, scheme());
    uploads.note(SegId(1), Vec::from_slice(alloc, b"drill")?)?;
    Ok(Altering::new(alloc, uploads))
}

// The piece of segment 1 that the cases put.
fn own_piece(alloc: Global) -> Result<Bytes, NoMemory> {
    let mut pieces = encode_pieces(alloc, &scheme(), b"drill", &[INDEX])?;
    pieces.pop().ok_or(NoMemory)
}

fn ask(node: u32, segment: u64) -> Ask {
    Ask {
        node: NodeId(node),
        addr: 0,
        port: 7001,
        segment: SegId(segment),
        index: INDEX,
        offset: 0,
        len: 6,
        order: [0; 123],
    }
}

// How many pieces were wrong once node 1 was given this one.
fn wrong_after(alloc: Global, nodes: &mut Altering, segment: u64, piece: &[u8]) -> Option<u64> {
    match nodes.put(alloc, &ask(1, segment), piece) {
        Stored::Kept => Some(nodes.uploads.wrong()),
        _ => None,
    }
}

fn counts_wrong_pieces(alloc: Global) -> Result<bool, NoMemory> {
    let mut nodes = drilled_nodes(alloc)?;
    let own = own_piece(alloc)?;
    let right = wrong_after(alloc, &mut nodes, 1, own.as_slice()) == Some(0);
    let elsewhere = wrong_after(alloc, &mut nodes, 2, b"other") == Some(0);
    let altered = wrong_after(alloc, &mut nodes, 1, b"other") == Some(1);
    let empty = wrong_after(alloc, &mut nodes, 1, b"") == Some(2);
    Ok(right && elsewhere && altered && empty)
}

// Whether a node gives back what it was given.
fn is_honest(alloc: Global, node: u32) -> Result<bool, NoMemory> {
    let mut nodes = drilled_nodes(alloc)?;
    let own = own_piece(alloc)?;
    let ask = ask(node, 1);
    let stored = nodes.put(alloc, &ask, own.as_slice());
    Ok(stored == Stored::Kept && nodes.fetch(alloc, &ask) == Fetched::Share(own))
}

fn three_nodes_alter(alloc: Global) -> Result<bool, NoMemory> {
    for node in 1..13 {
        if is_honest(alloc, node)? == matches!(node, 3 | 6 | 9) {
            return Ok(false);
        }
    }
    Ok(true)
}

#[test]
fn wrong_pieces_are_counted(rt: HostRuntime) {
    assert!(rt; counts_wrong_pieces(rt.alloc()) == Ok(true));
}

#[test]
fn nodes_3_6_and_9_alter(rt: HostRuntime) {
    assert!(rt; three_nodes_alter(rt.alloc()) == Ok(true));
}
