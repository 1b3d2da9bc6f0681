// Healthy pieces, and pieces in place of lost ones.
use crate::sample::{pending, place};
use node_registry::{AddErr, Node, NodeTable, Status};
use sat_base::{Moment, NoMemory, NodeId};
use segment_core::{Segment, healthy, mend};
use std::alloc::Global;

// Adds the next node.
fn add(table: &mut NodeTable, status: Status) -> Result<(), AddErr> {
    let id = table.len() as u32 + 1;
    table.add(Node {
        status,
        ..Node::joining(NodeId(id), 0xc000_0207, 28967, 1 << 40, Moment::of(5))
    })
}

// Whether the pieces on the first and the third node are the healthy ones.
fn are_healthy(alloc: Global, table: &NodeTable) -> Result<bool, NoMemory> {
    let segment = pending(alloc, 5)?;
    let pieces = healthy(alloc, &segment, table)?;
    Ok(pieces.as_slice() == [place(0), place(2)].as_slice())
}

fn add_and_filter(alloc: Global, table: &mut NodeTable) -> Result<bool, AddErr> {
    for status in [
        Status::Active,
        Status::Disqualified,
        Status::Exiting,
        Status::Exited,
    ] {
        add(table, status)?;
    }
    Ok(are_healthy(alloc, table) == Ok(true))
}

fn filters(alloc: Global) -> Result<bool, AddErr> {
    let mut table = NodeTable::new(alloc);
    add_and_filter(alloc, &mut table)
}

#[test]
fn pieces_on_nodes_that_count_are_healthy(rt: HostRuntime) {
    assert!(rt; filters(rt.alloc()) == Ok(true));
}

fn mended(alloc: Global) -> Result<Segment, NoMemory> {
    let segment = pending(alloc, 4)?;
    mend(alloc, &segment, &[place(1), place(3)], &[place(2)])
}

fn is_mended(segment: &Segment) -> bool {
    let pieces = [place(1), place(2), place(3)];
    segment.version == 1 && segment.len == 7424 && segment.pieces.as_slice() == pieces.as_slice()
}

#[test]
fn mends(rt: HostRuntime) {
    let right = mended(rt.alloc()).map(|segment| is_mended(&segment));
    assert!(rt; right == Ok(true));
}
