// Placements, worked and beside the plain one.
ghost use Rattle.std.specs.Prelude.{◌<◌};

use crate::plain_placing::{Wish, plain};
use node_registry::{AddErr, Node, NodeTable, Status};
use placement::{PlaceErr, place};
use sat_base::{Moment, NodeId};
use std::alloc::Global;

// Adds the next node.
fn add(
    table: &mut NodeTable,
    addr: u32,
    free: u64,
    passes: u32,
    status: Status,
) -> Result<(), AddErr> {
    let id = table.len() as u32 + 1;
    table.add(Node {
        passes,
        status,
        ..Node::joining(NodeId(id), addr, 28967, free, Moment::of(5))
    })
}

// So many nodes, each in a subnet of its own, with so many passes.
fn apart(alloc: Global, number: u32, passes: u32) -> Result<NodeTable, AddErr> {
    let mut table = NodeTable::new(alloc);
    for i in 0..number {
        add(&mut table, i << 8, 1 << 40, passes, Status::Active)?;
    }
    Ok(table)
}

// What `place` gives, in a vector.
fn placed(alloc: Global, table: &NodeTable, wish: &Wish<'_>) -> Result<Vec<NodeId>, PlaceErr> {
    if wish.need < wish.fresh || wish.words.len() < wish.need as usize {
        return Err(PlaceErr::NoMemory);
    }
    let ids = place(
        alloc,
        table,
        wish.vet,
        wish.need,
        wish.fresh,
        wish.taken,
        wish.piece_len,
        wish.words,
    )?;
    Ok(ids.into_vec())
}

// Four nodes, two of them in one subnet.
fn four(alloc: Global) -> Result<NodeTable, AddErr> {
    let mut table = NodeTable::new(alloc);
    for addr in [0x0a00_0101, 0x0a00_0102, 0x0a00_0201, 0x0a00_0301] {
        add(&mut table, addr, 1 << 40, 100, Status::Active)?;
    }
    Ok(table)
}

fn picked(
    alloc: Global,
    table: &NodeTable,
    need: u8,
    words: &[u64],
) -> Result<Vec<NodeId>, PlaceErr> {
    let wish = Wish {
        nodes: table.nodes(),
        vet: 100,
        need,
        fresh: 0,
        taken: &[],
        piece_len: 1 << 40,
        words,
    };
    placed(alloc, table, &wish)
}

fn picks_three(alloc: Global, table: &NodeTable) -> bool {
    match picked(alloc, table, 3, &[5, 5, 5]) {
        Ok(ids) => ids.as_slice() == [NodeId(2), NodeId(4), NodeId(3)].as_slice(),
        Err(_) => false,
    }
}

fn refuses_four(alloc: Global, table: &NodeTable) -> bool {
    picked(alloc, table, 4, &[5, 5, 5, 5]).err() == Some(PlaceErr::Few { chosen: 3 })
}

fn picks(alloc: Global) -> Result<bool, AddErr> {
    let table = four(alloc)?;
    Ok(picks_three(alloc, &table) && refuses_four(alloc, &table))
}

#[test]
fn picks_by_words(rt: HostRuntime) {
    assert!(rt; picks(rt.alloc()) == Ok(true));
}

// How many of so many nodes are picked where 110 are wanted.
fn number_of_110(alloc: Global, table: &NodeTable) -> Result<usize, PlaceErr> {
    let wish = Wish {
        nodes: table.nodes(),
        vet: 100,
        need: 110,
        fresh: 5,
        taken: &[],
        piece_len: 1,
        words: &[7; 110],
    };
    placed(alloc, table, &wish).map(|ids| ids.len())
}

fn number(alloc: Global, nodes: u32, passes: u32) -> Result<Result<usize, PlaceErr>, AddErr> {
    let table = apart(alloc, nodes, passes)?;
    Ok(number_of_110(alloc, &table))
}

#[test]
fn wants_as_many_subnets_as_picks(rt: HostRuntime) {
    let alloc = rt.alloc();
    assert!(rt; number(alloc, 100, 100) == Ok(Err(PlaceErr::Few { chosen: 100 })));
    assert!(rt; number(alloc, 110, 100) == Ok(Ok(110)));
    assert!(rt; number(alloc, 110, 0) == Ok(Ok(110)));
}

// The next of a row of random numbers (Knuth's MMIX).
fn random(state: &mut u64, below: u32) -> u32
    requires { 0 < below }
    ensures { result < below }
{
    *state = state
        .wrapping_mul(6364136223846793005)
        .wrapping_add(1442695040888963407);
    (*state >> 33) as u32 % below
}

// A random table: few subnets, and nodes of which some are full, some not active, and some vetted.
fn sample(alloc: Global, state: &mut u64) -> Result<NodeTable, AddErr> {
    let mut table = NodeTable::new(alloc);
    for _ in 0..random(state, 700) {
        let addr = random(state, 60) << 8 | random(state, 256);
        let free = u64::from(random(state, 8));
        let passes = random(state, 4);
        let status = match random(state, 12) {
            0 => Status::Disqualified,
            1 => Status::Exiting,
            2 => Status::Exited,
            _ => Status::Active,
        };
        add(&mut table, addr, free, passes, status)?;
    }
    Ok(table)
}

// Whether both say the same of a random wish.
fn are_same(alloc: Global, table: &NodeTable, words: &[u64], state: &mut u64) -> bool {
    let need = random(state, 60) as u8;
    let wish = Wish {
        nodes: table.nodes(),
        vet: random(state, 4) as u16,
        need,
        fresh: random(state, 60) as u8 % (need + 1),
        taken: &[random(state, 60), random(state, 60)],
        piece_len: u64::from(random(state, 8)),
        words,
    };
    placed(alloc, table, &wish) == plain(alloc, &wish)
}

fn random_words(state: &mut u64) -> [u64; 60] {
    let mut words = [0; 60];
    for word in words.iter_mut() {
        *word = u64::from(random(state, 1 << 31));
    }
    words
}

// Whether both say the same of a random wish at a random table.
fn agree(alloc: Global, state: &mut u64) -> Result<bool, AddErr> {
    let table = sample(alloc, state)?;
    let words = random_words(state);
    Ok(are_same(alloc, &table, &words, state))
}

#[test]
fn agrees_with_the_plain_placement(rt: HostRuntime) {
    let mut state = 1;
    for turn in 0..60u8 {
        assert!(rt; agree(rt.alloc(), &mut state) == Ok(true), "turn {turn}");
    }
}
