// Segments that come and go, and what a statement leaves.
ghost use Rattle.std.specs.Prelude.{◌≡◌};

use pay_tables::{Balance, Balances};
use sat_base::{At, NoMemory, NodeId};
use std::alloc::Global;

const ONE: NodeId = NodeId(1);

const TWO: NodeId = NodeId(2);

const THREE: NodeId = NodeId(3);

const PIECES: [At; 3] = [
    At {
        index: 0,
        node: ONE,
    },
    At {
        index: 1,
        node: TWO,
    },
    At {
        index: 2,
        node: ONE,
    },
];

// What the three nodes store with the pieces, and without them.
fn stored(alloc: Global) -> Result<[[u128; 3]; 2], NoMemory> {
    let pieces = PIECES;
    let mut stored = Balances::new(alloc);
    stored.place_all(&pieces)?;
    stored.raise(&pieces, 7);
    let raised = [stored.at(ONE), stored.at(TWO), stored.at(THREE)];
    stored.lower(&pieces, 7);
    let lowered = [stored.at(ONE), stored.at(TWO), stored.at(THREE)];
    Ok([raised, lowered])
}

#[test]
fn a_node_counts_once(rt: HostRuntime) {
    assert!(rt; stored(rt.alloc()) == Ok([[7, 7, 0], [0, 0, 0]]));
}

fn balance(node: NodeId, amount: u128) -> Balance
    ensures { result.node ≡ node }
{
    Balance { node, amount }
}

// The pots of both nodes, before and after their release.
fn pots(alloc: Global) -> Result<[[u128; 2]; 2], NoMemory> {
    let mut pots = Balances::new(alloc);
    pots.place(ONE)?;
    pots.place(TWO)?;
    pots.put(balance(TWO, 20));
    pots.put(balance(TWO, 25));
    pots.put(balance(ONE, 10));
    let put = [pots.at(ONE), pots.at(TWO)];
    pots.release(TWO);
    pots.release(ONE);
    Ok([put, [pots.at(ONE), pots.at(TWO)]])
}

#[test]
fn a_later_amount_takes_the_place_of_an_earlier_one(rt: HostRuntime) {
    assert!(rt; pots(rt.alloc()) == Ok([[10, 25], [10, 25]]));
}
