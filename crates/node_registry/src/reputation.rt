// The beta reputation of Jøsang and Ismail, "The Beta Reputation System" (2002): each outcome of an audit adds
// one to the weight of its kind, and what came before fades by a factor of 0.95. All in thousandths.
ghost use Rattle.std.specs.Prelude.{◌≡◌, ◌*◌, ◌/◌, ◌+◌, ◌≤◌, ◌++◌, List};
ghost use Rattle.node_registry.specs.declared.node.Node.{Node};
ghost use Rattle.node_registry.specs.declared.node.Status.TheVariants.{Disqualified};
ghost use Rattle.node_registry.specs.declared.reputation.Outcome.{Outcome};
ghost use Rattle.node_registry.specs.Reputation.{IsRated, faded, weighed, after_of, reputation};

use crate::node::{Node, Status};

// The weight of one outcome.
const ONE: u32 = 1000;

// What a weight keeps of itself at each outcome.
const KEPT: u32 = 950;

// The lowest score of a node that serves.
const LOWEST_SCORE: u32 = 600;

/// How an audit of a node came out.
#[derive(Clone, Copy, Debug, PartialEq, Eq)]
pub enum Outcome {
    Pass,
    Fail,
}

// A weight, one outcome later.
fn faded(weight: u32) -> u32
    requires { weight ≤ 20000 }
    ensures { result ≡ faded weight }
{
    weight * KEPT / ONE
}

// A node with one outcome more.
fn weighed(node: &Node, outcome: Outcome) -> Node
    requires { IsRated node.now }
    ensures exact { result ≡ weighed node.now outcome }
    ensures rated { IsRated result }
{
    let alpha = faded(node.alpha);
    let beta = faded(node.beta);
    match outcome {
        Outcome::Pass => Node {
            alpha: alpha + ONE,
            beta,
            passes: node.passes.saturating_add(1),
            ..*node
        },
        Outcome::Fail => Node {
            alpha,
            beta: beta + ONE,
            ..*node
        },
    }
}

/// A node's score: the share of its passes in its weights, in thousandths.
pub fn score(node: &Node) -> u32
    requires { IsRated node.now }
    ensures { result ≡ node.now.alpha * 1000 / (node.now.alpha + node.now.beta) }
{
    node.alpha * ONE / (node.alpha + node.beta)
}

/// A node after the outcome of an audit. A score below 600 disqualifies it. A node that isn't serving stays
/// as it is.
pub fn after(node: &Node, outcome: Outcome) -> Node
    requires { IsRated node.now }
    ensures exact { result ≡ after_of node.now outcome }
    ensures rated { IsRated result }
{
    if !node.serves() {
        return *node;
    }
    let next = weighed(node, outcome);
    if score(&next) < LOWEST_SCORE {
        Node {
            status: Status::Disqualified,
            ..next
        }
    } else {
        next
    }
}

/// The law that whatever outcomes come, a node's weights stay in bounds, and once it is disqualified it stays
/// so.
pub fn reputation_stays_rated()
    ensures rated { (node : Node) (outcomes : List Outcome) → IsRated node
        → IsRated (reputation node outcomes) }
    ensures disqualified { (node : Node) (before later : List Outcome)
        → (reputation node before).status ≡ Disqualified
        → (reputation node (before ++ later)).status ≡ Disqualified }
{}
