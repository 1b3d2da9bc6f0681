// Amounts of nodes.
ghost use Rattle.std.specs.Prelude.{◌≡◌, ℕ, ◌+◌, ◌^◌, ◌<◌, ◌≤◌, ◌==◌, true, false, if◌then◌else◌, is_some, OnOk};
ghost use Rattle.std.specs.List.{list_any};
ghost use Rattle.rows.specs.Rows.{Each, row_at};
ghost use Rattle.rows.specs.Slots.{no_rows, has_slot, with_row};
ghost use Rattle.machine_step.specs.Calls.PlanExit.{lies_on};
ghost use Rattle.pay_tables.specs.Amounts.{balance_rank, amount_at, bytes_at};
ghost use Rattle.pay_tables.specs.Placed.{IsFreed, HasNoMore};

use rows::{Ranked, SlottedRows};
use sat_base::{At, NoMemory, NodeId};
use std::alloc::Global;
use std::marker::Model;

/// An amount that is kept of a node.
#[derive(Clone, Copy)]
pub struct Balance {
    pub node: NodeId,
    pub amount: u128,
}

/// By its node.
impl Ranked for Balance {
    ghost rank = { balance_rank };

    fn rank(&self) -> u128 {
        self.node.0 as u128
    }
}

/// The amounts of nodes. That of a node without a row is 0. Contracts see rows and slots.
#[derive(Drop)]
pub struct Balances {
    table: SlottedRows<Balance>,
}

impl Model for Balances {
    ghost use Rattle.rows.specs.Slots.{Slots};
    ghost use Rattle.pay_tables.specs.declared.balance.Balance.{Balance};

    ghost Value = { Slots Balance };

    ghost use Rattle.pay_tables.specs.Amounts.{HasItsSlots};

    ghost view = { λ b. b.table };

    ghost invariant = { λ b. HasItsSlots b.table };
}

impl Balances {
    /// No amounts.
    pub fn new(alloc: Global) -> Self
        ensures { result ≡ no_rows }
    {
        Balances {
            table: SlottedRows::new(alloc),
        }
    }

    /// The amount of a node.
    pub fn at(&self, node: NodeId) -> u128
        ensures { result ≡ amount_at self.now.rows node }
    {
        match self.table.get(u128::from(node.0)) {
            Some(balance) => balance.amount,
            None => 0,
        }
    }

    /// Makes a slot for a node, if it has none. Running out of memory leaves all as it was.
    pub fn place(&mut self, node: NodeId) -> Result<(), NoMemory>
        ensures rows { self.new.rows ≡ self.old.rows }
        ensures placed { OnOk result (has_slot self.new node.0 ≡ true) }
        ensures others { (k : ℕ) → has_slot self.old k ≡ true → has_slot self.new k ≡ true }
    {
        self.table.place(u128::from(node.0))
    }

    /// Makes slots for the nodes of these pieces. Running out of memory leaves all amounts, and all slots that were there.
    pub fn place_all(&mut self, pieces: &[At]) -> Result<(), NoMemory>
        ensures rows { self.new.rows ≡ self.old.rows }
        ensures placed { OnOk result (Each (λ piece. has_slot self.new piece.node.0 ≡ true) pieces.now) }
        ensures others { (k : ℕ) → has_slot self.old k ≡ true → has_slot self.new k ≡ true }
    {
        for piece in pieces {
            self.place(piece.node)?;
        }
        Ok(())
    }

    /// Removes the slots of the nodes of these pieces, where they have no row. It takes no memory.
    pub fn release_all(&mut self, pieces: &[At])
        ensures rows { self.new.rows ≡ self.old.rows }
        ensures freed { Each (λ piece. IsFreed balance_rank self.old self.new piece.node.0) pieces.now }
        ensures fewer { HasNoMore self.old self.new }
    {
        for piece in pieces {
            self.release(piece.node);
        }
    }

    /// Removes the slot of a node, where it has no row. It takes no memory.
    pub fn release(&mut self, node: NodeId)
        ensures rows { self.new.rows ≡ self.old.rows }
        ensures freed { IsFreed balance_rank self.old self.new node.0 }
        ensures others { (k : ℕ) → has_slot self.old k ≡ false → has_slot self.new k ≡ false }
    {
        self.table.release(u128::from(node.0));
    }

    /// Puts an amount into its slot, in place of the one before. It takes no memory.
    pub fn put(&mut self, balance: Balance)
        requires { has_slot self.old balance.node.0 ≡ true }
        ensures rows { self.new.rows ≡ with_row balance_rank self.old.rows balance }
        ensures slots { self.new.slots ≡ self.old.slots }
    {
        self.table.put(balance);
    }

    // Adds bytes to the amount of a node.
    fn raise_one(&mut self, node: NodeId, bytes: u64)
        requires placed { has_slot self.old node.0 ≡ true }
        requires room { amount_at self.old.rows node + bytes < 2 ^ 128 }
        ensures amounts { (other : NodeId) → amount_at self.new.rows other
            ≡ amount_at self.old.rows other + (if node.0 == other.0 then bytes else 0) }
        ensures slots { self.new.slots ≡ self.old.slots }
    {
        let amount = self.at(node) + u128::from(bytes);
        self.put(Balance { node, amount });
    }

    // Takes bytes off the amount of a node. Where there is no row, there are none to take.
    fn lower_one(&mut self, node: NodeId, bytes: u64)
        requires { bytes ≤ amount_at self.old.rows node }
        ensures amounts { (other : NodeId) → amount_at self.new.rows other + (if node.0 == other.0 then bytes else 0)
            ≡ amount_at self.old.rows other }
        ensures slots { self.new.slots ≡ self.old.slots }
    {
        if self.has_row(node) {
            let amount = self.at(node) - u128::from(bytes);
            self.put(Balance { node, amount });
        }
    }

    // Whether a node has a row, and so its slot.
    fn has_row(&self, node: NodeId) -> bool
        ensures row { result ≡ is_some (row_at balance_rank self.now.rows node.0) }
        ensures slot { result ≡ true → has_slot self.now node.0 ≡ true }
    {
        self.table.get(u128::from(node.0)).is_some()
    }

    /// Adds bytes to the amount of each node at which a piece lies. A node counts once.
    pub fn raise(&mut self, pieces: &[At], bytes: u64)
        requires placed { Each (λ piece. has_slot self.old piece.node.0 ≡ true) pieces.now }
        requires room { Each (λ piece. amount_at self.old.rows piece.node + bytes < 2 ^ 128) pieces.now }
        ensures amounts { (node : NodeId) → amount_at self.new.rows node
            ≡ amount_at self.old.rows node + bytes_at node pieces.now bytes }
        ensures slots { self.new.slots ≡ self.old.slots }
    {
        for i in 0..pieces.len() {
            let node = pieces[i].node;
            if !lies_at(&pieces[..i], node) {
                self.raise_one(node, bytes);
            }
        }
    }

    /// Takes bytes off the amount of each node at which a piece lies. A node counts once.
    pub fn lower(&mut self, pieces: &[At], bytes: u64)
        requires { Each (λ piece. bytes ≤ amount_at self.old.rows piece.node) pieces.now }
        ensures amounts { (node : NodeId) → amount_at self.new.rows node + bytes_at node pieces.now bytes
            ≡ amount_at self.old.rows node }
        ensures slots { self.new.slots ≡ self.old.slots }
    {
        for i in 0..pieces.len() {
            let node = pieces[i].node;
            if !lies_at(&pieces[..i], node) {
                self.lower_one(node, bytes);
            }
        }
    }
}

// Whether a piece lies at the node.
fn lies_at(pieces: &[At], node: NodeId) -> bool
    ensures { result ≡ list_any (lies_on node) pieces.now }
{
    pieces.iter().any(|piece| piece.node.0 == node.0)
}
