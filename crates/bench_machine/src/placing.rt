// Nodes picked for the pieces of a segment.
ghost use Rattle.std.specs.Prelude.{◌≤◌, length};

use anyhow::{Result, anyhow};
use node_registry::{Node, NodeTable, Status};
use placement::{PlaceErr, place};
use sat_base::{Moment, NodeId};
use std::alloc::Global;
use std::rt::Clock;
use std::time::Instant;

// The cases: the nodes, the subnets that they are in, and the rounds of a timing.
const CASES: [(u32, u32, u64); 4] = [
    (1000, 800, 500),
    (1000, 128, 500),
    (65536, 40000, 20),
    (65536, 128, 20),
];

// So many nodes in so many subnets, half of them vetted.
fn sample(alloc: Global, number: u32, subnets: u32) -> Result<NodeTable>
    requires { 1 ≤ subnets }
{
    let mut table = NodeTable::new(alloc);
    for i in 0..number {
        let id = table.len() as u32 + 1;
        let addr = (i.wrapping_mul(2654435761) % subnets) << 8;
        let node = Node {
            passes: (i & 1) * 100,
            ..Node::joining(NodeId(id), addr, 28967, 1 << 40, Moment::of(5))
        };
        if table.add(node).is_err() {
            return Err(anyhow!("a node isn't added"));
        }
    }
    Ok(table)
}

// The sum of the picks' ids, each times its place.
fn id_sum(alloc: Global, table: &NodeTable, need: u8, words: &[u64]) -> Result<u64>
    requires { need ≤ length words.now }
{
    match place(alloc, table, 100, need, need / 20, &[], 1 << 30, words) {
        Ok(ids) => {
            let mut sum = 0u64;
            for (i, id) in ids.as_slice().iter().enumerate() {
                sum = sum.wrapping_add(u64::from(id.0).wrapping_mul(i as u64 + 1));
            }
            Ok(sum)
        }
        Err(PlaceErr::Few { chosen }) => Err(anyhow!("only {chosen} nodes")),
        Err(PlaceErr::NoMemory) => Err(anyhow!("out of memory")),
    }
}

// Random words (Knuth's MMIX).
fn sample_words() -> [u64; 110] {
    let mut words = [0; 110];
    let mut state = 1u64;
    for word in words.iter_mut() {
        state = state
            .wrapping_mul(6364136223846793005)
            .wrapping_add(1442695040888963407);
        *word = state;
    }
    words
}

// How many nanoseconds so many placements take.
fn spent(
    rt: &impl Clock,
    alloc: Global,
    table: &NodeTable,
    need: u8,
    words: &[u64],
    rounds: u64,
) -> Result<u128>
    requires { need ≤ length words.now }
{
    let start = Instant::now(rt)?;
    for _ in 0..rounds {
        id_sum(alloc, table, need, words)?;
    }
    Ok(start.elapsed(rt)?.as_nanos())
}

/// Prints the check sum of each case, and with its time also, in nanoseconds, how long a placement takes and how long one of
/// no picks, over a number of rounds.
pub(crate) fn run(rt: &HostRuntime, timing: bool) -> Result<()> {
    let alloc = rt.alloc();
    let words = sample_words();
    for (number, subnets, rounds) in CASES {
        let table = sample(alloc, number, subnets)?;
        let sum = id_sum(alloc, &table, 110, &words)?;
        println!(rt; "nodes {number} subnets {subnets} sum {sum}")?;
        if timing {
            let all = spent(rt, alloc, &table, 110, &words, rounds)?;
            let none = spent(rt, alloc, &table, 0, &words, rounds)?;
            println!(rt; "rounds {rounds} nanoseconds of 110 picks {all} of none {none}")?;
        }
    }
    Ok(())
}
