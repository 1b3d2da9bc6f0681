// What a worker of rounds has.
use order_limits::Keys;
use sat_base::{Ask, Held, Items, Keeper, Scheme};
use sat_book::Book;

/// What a worker of rounds has: the nodes that it asks, a clock, a source of random words and its ticks.
#[derive(Drop)]
pub struct Kit<N, T, W, I> {
    pub nodes: N,
    pub clock: T,
    pub words: W,
    pub ticks: I,
}

/// What of a store a round goes by: the keys under which nodes are asked, and the scheme of its segments.
#[derive(Drop)]
pub struct RoundStore {
    pub keys: Keys,
    pub scheme: Scheme,
}

impl RoundStore {
    ghost use Rattle.std.specs.Prelude.{◌≡◌, []};
    ghost use Rattle.node_rounds.specs.Askable.{IsStoreOf};

    /// Those of the store that a book without entries was opened over.
    pub fn of<K: Keeper>(book: &Book<K>) -> Self
        requires { book.now.history ≡ [] }
        ensures { IsStoreOf book.now.opening result.keys result.scheme }
    {
        let core = book.core();
        let settings = core.settings();
        // Whoever reads its marks is told that the tables keep every rule.
        let _ = core.marks();
        RoundStore {
            keys: Keys::new(settings.secret),
            scheme: settings.scheme,
        }
    }
}

/// What is told of nodes: what they hold and what they were asked, where they tell, and how many asks got no answer. No
/// value of it is made.
#[derive(Drop)]
pub struct NodesView {
    pub held: Option<Items<Held>>,
    pub asks: Option<Items<Ask>>,
    pub faults: u64,
}
