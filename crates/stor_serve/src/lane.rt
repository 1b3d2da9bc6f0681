// The links of a lane.
ghost use Rattle.stor_serve.specs.Runs.{Ran};
ghost use Rattle.stor_serve.specs.Totals.{CountsLinks, HoldsPuts, SettlesByOffers};
ghost use Rattle.stor_serve.specs.Views.{run_view};

use crate::link::serve_link;
use crate::node::Node;
use crate::offering::offer_due;
use crate::served::Served;
use sat_base::{Came, Clock, Keeper, Lane};
use std::alloc::Global;
use stor_base::{Pieces, Settler};

/// Why a node ended.
#[derive(Clone, Copy, Debug, PartialEq, Eq)]
pub enum NodeEnd {
    /// No link will come any more.
    Over,
    /// A wait for a link failed, and the lane counted it.
    Failed,
    /// There was no memory for what comes of the next link, and none was taken.
    NoMemory,
}

/// What a node leaves.
#[derive(Drop)]
pub struct NodeRan {
    /// What came of each link, in order.
    pub served: Vec<Served>,
    pub end: NodeEnd,
}

/// Serves the links of a lane, one after another, gives each back, and behind it offers the order that is due. The room for
/// what comes of a link is made before the link is taken. Of all links together:
///
/// - what is served under each serial rises by the bytes of the links that were taken under it;
/// - a serial comes to be settled only by an offer of its order that was answered by `Done`, and then stays so;
/// - a piece that no link was taken to put is held as it was, and where the last that was is answered by 200, its body is held.
pub fn serve_lane<K: Keeper, P: Pieces, L: Lane, T: Clock, S: Settler>(
    alloc: Global,
    node: &mut Node<K, P, L, T, S>,
) -> NodeRan
    ensures ran { Ran K.about (run_view P.held P.faults L.about T.coming S.offers S.faults node.old)
        (run_view P.held P.faults L.about T.coming S.offers S.faults node.new) result.served.items result.end }
    ensures counted { CountsLinks (run_view P.held P.faults L.about T.coming S.offers S.faults node.old)
        (run_view P.held P.faults L.about T.coming S.offers S.faults node.new) result.served.items }
    ensures settled { SettlesByOffers (run_view P.held P.faults L.about T.coming S.offers S.faults node.old)
        (run_view P.held P.faults L.about T.coming S.offers S.faults node.new) result.served.items }
    ensures held { HoldsPuts (run_view P.held P.faults L.about T.coming S.offers S.faults node.old)
        (run_view P.held P.faults L.about T.coming S.offers S.faults node.new) result.served.items }
{
    serve_links(alloc, node)
}

// Serves the links. Its promise tells what each of them does, and from that the totals follow.
fn serve_links<K: Keeper, P: Pieces, L: Lane, T: Clock, S: Settler>(
    alloc: Global,
    node: &mut Node<K, P, L, T, S>,
) -> NodeRan
    ensures { Ran K.about (run_view P.held P.faults L.about T.coming S.offers S.faults node.old)
        (run_view P.held P.faults L.about T.coming S.offers S.faults node.new) result.served.items result.end }
{
    let mut served = Vec::new(alloc);
    for _ in 0..u64::MAX {
        if served.reserve(1).is_err() {
            return NodeRan {
                served,
                end: NodeEnd::NoMemory,
            };
        }
        let mut link = match node.lane.next() {
            Came::Conn(link) => link,
            Came::Ended => return NodeRan {
                served,
                end: NodeEnd::Over,
            },
            Came::Failed => return NodeRan {
                served,
                end: NodeEnd::Failed,
            },
        };
        let one = serve_link(
            alloc,
            &mut link,
            &mut node.uses,
            &mut node.pieces,
            &mut node.clock,
        );
        node.lane.back(link);
        offer_due(alloc, &mut node.uses, &mut node.settler, one.now);
        served.push_reserved(one);
    }
    NodeRan {
        served,
        end: NodeEnd::NoMemory,
    }
}
