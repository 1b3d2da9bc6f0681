// The top call.
ghost use Rattle.std.specs.Prelude.{◌≡◌, [], None, Some};
ghost use Rattle.sat_console.specs.Run.{Says, fault_line};
ghost use Rattle.stor_node_cli.specs.Running.{Comes, world_view};
ghost use Rattle.stor_node_cli.specs.Words.{Asked, node_of};

use crate::running::run;
use crate::words::read_words;
use crate::world::{NodeEnded, NodeWorld};
use sat_base::{Clock, Keeper, Lane, Line, Link};
use sat_console::{Status, fault};
use std::alloc::Global;
use stor_base::{Pieces, Settler};

/// Runs a storage node as its words ask, over the devices of a world, until no link will come any more.
///
/// The status is 0 where the lane is over; 2 where the words are outside the grammar; 3 where the keeper failed as the orders
/// were opened, and 4 where a row is none of an order's use, both before any link; 7 where a wait for a link failed; and 9 where memory runs out. The console
/// says why, but at 0.
pub fn stor_node<C: Link, K: Keeper, P: Pieces, L: Lane, T: Clock, S: Settler>(
    alloc: Global,
    line: &Line,
    world: NodeWorld<C, K, P, L, T, S>,
) -> NodeEnded<C, K, P, L, T, S>
    // 2 exactly where the words are outside the grammar; then the console says so, and nothing else is used.
    ensures usage { node_of line.now ≡ None → result.status ≡ 2 }
    ensures only_usage { result.status ≡ 2 → node_of line.now ≡ None }
    ensures usage_line { result.status ≡ 2 → Says (fault_line 2) (C.about world.console) (C.about result.world.console) }
    ensures idle { result.status ≡ 2 → (result.world ≡ record world { console = result.world.console }) × (result.served.items ≡ []) }

    // Otherwise why the orders weren't opened; or what came of the links, one after another, and how the run ended.
    ensures run { (asked : Asked) → node_of line.now ≡ Some asked → Comes K.about asked
        (world_view C.about P.held P.faults L.about T.coming S.offers S.faults world)
        (world_view C.about P.held P.faults L.about T.coming S.offers S.faults result.world) result.status result.served.items }
{
    match read_words(line) {
        Some(words) => run(alloc, &words, world),
        None => {
            let mut world = world;
            let status = fault(&mut world.console, Status::Usage);
            NodeEnded {
                status: status.code(),
                world,
                served: Vec::new(alloc),
            }
        }
    }
}
