// A run, once its words are read.
ghost use Rattle.stor_node_cli.specs.Running.{Comes, ServesFrom, world_view};
ghost use Rattle.stor_node_cli.specs.Said.{words_said};
ghost use Rattle.stor_serve.specs.Views.{run_view};

use crate::ending::{say_end, say_why};
use crate::words::NodeWords;
use crate::world::{NodeEnded, NodeWorld};
use order_uses::Uses;
use sat_base::{Clock, Keeper, Lane, Link};
use std::alloc::Global;
use stor_base::{Pieces, Settler};
use stor_serve::{Node, NodeRan, serve_lane};

/// Opens the orders of a node, and serves its links.
pub(crate) fn run<C: Link, K: Keeper, P: Pieces, L: Lane, T: Clock, S: Settler>(
    alloc: Global,
    words: &NodeWords<'_>,
    world: NodeWorld<C, K, P, L, T, S>,
) -> NodeEnded<C, K, P, L, T, S>
    ensures { Comes K.about (words_said words.now)
        (world_view C.about P.held P.faults L.about T.coming S.offers S.faults world)
        (world_view C.about P.held P.faults L.about T.coming S.offers S.faults result.world) result.status result.served.items }
{
    let NodeWorld {
        console,
        keeper,
        pieces,
        lane,
        clock,
        settler,
    } = world;
    let mut console = console;
    match Uses::open(alloc, keeper, words.node, words.key, words.cap) {
        Ok(uses) => serve(
            alloc,
            console,
            Node {
                uses,
                pieces,
                lane,
                clock,
                settler,
            },
        ),
        Err((keeper, why)) => {
            let status = say_why(alloc, &mut console, &why);
            NodeEnded {
                status: status.code(),
                world: NodeWorld {
                    console,
                    keeper,
                    pieces,
                    lane,
                    clock,
                    settler,
                },
                served: Vec::new(alloc),
            }
        }
    }
}

// Serves the links of a node.
fn serve<C: Link, K: Keeper, P: Pieces, L: Lane, T: Clock, S: Settler>(
    alloc: Global,
    console: C,
    node: Node<K, P, L, T, S>,
) -> NodeEnded<C, K, P, L, T, S>
    ensures { ServesFrom K.about (run_view P.held P.faults L.about T.coming S.offers S.faults node) (C.about console)
        (world_view C.about P.held P.faults L.about T.coming S.offers S.faults result.world) result.status result.served.items }
{
    let (mut console, mut node) = (console, node);
    let NodeRan { served, end } = serve_lane(alloc, &mut node);
    let status = say_end(&mut console, end);
    let Node {
        uses,
        pieces,
        lane,
        clock,
        settler,
    } = node;
    NodeEnded {
        status: status.code(),
        world: NodeWorld {
            console,
            keeper: uses.into_keeper(),
            pieces,
            lane,
            clock,
            settler,
        },
        served,
    }
}
