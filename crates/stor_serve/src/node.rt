// What a node serves with.
use order_uses::Uses;
use sat_base::Keeper;

/// A storage node: the orders that it serves under, its pieces, its links, a clock, and who settles its orders.
pub struct Node<K: Keeper, P, L, T, S> {
    pub uses: Uses<K>,
    pub pieces: P,
    pub lane: L,
    pub clock: T,
    pub settler: S,
}
