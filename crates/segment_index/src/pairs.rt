ghost use Rattle.std.specs.Prelude.{◌≡◌, ℕ, true, false, not, ◌&&◌, ◌||◌, [], OnOk, OnErr};
ghost use Rattle.rows.specs.Slots.{no_rows, has_slot};
ghost use Rattle.segment_index.specs.Pairs.{pair_rank, is_same, has, IsFirst, IsNext};

use rows::{Ranked, SlottedRows};
use sat_base::NoMemory;
use std::alloc::Global;
use std::marker::Model;

/// Two numbers, in the order of the first one, and of the second where those are equal.
#[derive(Clone, Copy)]
pub struct Pair {
    pub high: u64,
    pub low: u64,
}

/// By that order.
impl Ranked for Pair {
    ghost use Rattle.segment_index.specs.Pairs.{pair_rank};

    ghost rank = { pair_rank };

    #[tactic(auto, unfolding(crate::specs::Pairs::pair_rank))]
    fn rank(&self) -> u128 {
        (self.high as u128) * (1 << 64) + self.low as u128
    }
}

/// Pairs, each at most once, and slots for pairs to come.
///
/// Contracts see the pairs, and the ranks of those that have a slot, among them the pairs' own. Each call costs the
/// logarithm of the slots, a look for the first or the next pair also the slots without a pair that it passes over.
#[derive(Drop)]
pub struct PairSet {
    pairs: SlottedRows<Pair>,
}

impl Model for PairSet {
    ghost use Rattle.rows.specs.Slots.{Slots};
    ghost use Rattle.segment_index.specs.declared.pairs.Pair.{Pair};
    ghost use Rattle.segment_index.specs.Pairs.{AreWithin};

    ghost Value = { Slots Pair };

    ghost view = { λ s. s.pairs };

    ghost invariant = { λ s. AreWithin s.pairs.rows };
}

impl PairSet {
    /// No pairs, and no slots.
    pub fn new(alloc: Global) -> Self
        ensures { result ≡ no_rows }
    {
        PairSet {
            pairs: SlottedRows::new(alloc),
        }
    }

    /// Whether a pair is among them.
    pub fn contains(&self, pair: Pair) -> bool
        ensures { result ≡ has self.now.rows pair }
    {
        self.pairs.get(pair.rank()).is_some()
    }

    /// The first pair.
    pub fn first(&self) -> Option<Pair>
        ensures { IsFirst self.now.rows result }
    {
        self.pairs.first().copied()
    }

    /// The least second number above a bound, of the pairs with this first number.
    pub fn next(&self, high: u64, bound: u64) -> Option<u64>
        ensures { IsNext self.now.rows high bound result }
    {
        let behind = Pair { high, low: bound };
        match self.pairs.after(behind.rank()) {
            Some(pair) if pair.high == high => Some(pair.low),
            Some(_) => None,
            None => None,
        }
    }

    /// Makes a slot for a pair, if it has none. Running out of memory leaves pairs and slots as they were.
    pub fn place(&mut self, pair: Pair) -> Result<(), NoMemory>
        ensures pairs { self.new.rows ≡ self.old.rows }
        ensures placed { OnOk result (has_slot self.new (pair_rank pair) ≡ true) }
        ensures others { (k : ℕ) → has_slot self.old k ≡ true → has_slot self.new k ≡ true }
        ensures err { OnErr result (self.new ≡ self.old) }
    {
        self.pairs.place(pair.rank())
    }

    /// Puts a pair into its slot. It takes no memory.
    pub fn put(&mut self, pair: Pair)
        requires { has_slot self.old (pair_rank pair) ≡ true }
        ensures pairs { (other : Pair) → has self.new.rows other ≡ (is_same pair other || has self.old.rows other) }
        ensures slots { self.new.slots ≡ self.old.slots }
    {
        self.pairs.put(pair);
    }

    /// Removes a pair, if it is among them, and its slot. It takes no memory.
    pub fn remove(&mut self, pair: Pair)
        ensures pairs { (other : Pair) → has self.new.rows other ≡ (not (is_same pair other) && has self.old.rows other) }
        ensures others { (k : ℕ) → has_slot self.old k ≡ true → (k ≡ pair_rank pair → ⊥) → has_slot self.new k ≡ true }
    {
        self.pairs.remove(pair.rank());
    }

    /// Removes the slot of a pair that is not among them. It takes no memory.
    pub fn release(&mut self, pair: Pair)
        ensures pairs { self.new.rows ≡ self.old.rows }
        ensures others { (k : ℕ) → has_slot self.old k ≡ true → (k ≡ pair_rank pair → ⊥) → has_slot self.new k ≡ true }
        ensures gone { has self.old.rows pair ≡ false → has_slot self.new (pair_rank pair) ≡ false }
        ensures fewer { (k : ℕ) → has_slot self.old k ≡ false → has_slot self.new k ≡ false }
    {
        self.pairs.release(pair.rank());
    }
}
