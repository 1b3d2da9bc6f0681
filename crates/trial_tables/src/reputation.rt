// Worked reputations.
ghost use Rattle.node_registry.specs.Reputation.{IsRated};

use node_registry::{Node, Outcome, Status, after, score};
use sat_base::{Moment, NodeId};

fn node(status: Status) -> Node
    ensures { IsRated result }
{
    Node {
        status,
        ..Node::joining(NodeId(1), 0x0a00_0001, 28967, 1 << 40, Moment::of(0))
    }
}

fn is_scored(node: &Node, alpha: u32, beta: u32, points: u32) -> bool
    requires { IsRated node.now }
{
    node.alpha == alpha && node.beta == beta && score(node) == points
}

// Whether the node is disqualified, and stays as it is.
fn is_out(node: &Node) -> bool
    requires { IsRated node.now }
{
    let out = node.status == Status::Disqualified && !node.counts() && !node.serves();
    out && after(node, Outcome::Pass) == *node
}

#[test]
fn the_sixth_fail_disqualifies(rt: HostRuntime) {
    let mut node = node(Status::Active);
    for (alpha, beta, points) in [
        (9500, 1000, 904),
        (9025, 1950, 822),
        (8573, 2852, 750),
        (8144, 3709, 687),
        (7736, 4523, 631),
        (7349, 5296, 581),
    ] {
        assert!(rt; node.status == Status::Active);
        node = after(&node, Outcome::Fail);
        assert!(rt; is_scored(&node, alpha, beta, points));
    }
    assert!(rt; is_out(&node));
}

fn is_left_alone(exited: &Node) -> bool
    requires { IsRated exited.now }
{
    after(exited, Outcome::Fail) == *exited && exited.status.byte() == 3
}

#[test]
fn only_a_serving_node_is_rated(rt: HostRuntime) {
    assert!(rt; is_left_alone(&node(Status::Exited)));
    let exiting = after(&node(Status::Exiting), Outcome::Pass);
    assert!(rt; exiting.alpha == 10500 && exiting.beta == 0 && exiting.passes == 1);
    assert!(rt; exiting.counts() && exiting.status == Status::Exiting);
}
