// The tables, and what is asked of them.
ghost use Rattle.std.specs.Prelude.{◌≡◌, IfOk};
ghost use Rattle.pay_tables.specs.Amounts.{amount_at, amounts_of};

use crate::balance::Balances;
use month_sums::OpenSums;
use node_registry::Node;
use rows::SlottedRows;
use sat_base::{NoMemory, NodeId};
use std::alloc::Global;
use tally_payout::{Statement, Tally};

/// The tables that pay goes by, and what is kept beside them.
pub struct PayTables {
    pub tallies: SlottedRows<Tally>,
    pub statements: SlottedRows<Statement>,
    /// What each node did in the months that have no statement of it.
    pub sums: SlottedRows<OpenSums>,
    /// The bytes of the pieces of live segments at each node.
    pub stored: Balances,
    /// What the last statement of each node left, in micro-dollars.
    pub pots: Balances,
}

// By hand, so that it is taken apart here, and not anew wherever one is let go.
impl Drop for PayTables {
    fn drop(self) {
        let PayTables {
            tallies: _,
            statements: _,
            sums: _,
            stored: _,
            pots: _,
        } = self;
    }
}

impl PayTables {
    /// The bytes of the pieces of live segments at a node.
    pub fn stored_at(&self, node: NodeId) -> u128
        ensures { result ≡ amount_at self.now.stored.rows node }
    {
        self.stored.at(node)
    }

    /// What is held of each of these nodes, in micro-dollars.
    pub fn pots_of(&self, alloc: Global, nodes: &[Node]) -> Result<Vec<u128>, NoMemory>
        ensures { IfOk result (λ pots. pots.items ≡ amounts_of self.now.pots.rows nodes.now) }
    {
        let mut pots = Vec::new(alloc);
        for node in nodes {
            pots.push(self.pots.at(node.id))?;
        }
        Ok(pots)
    }
}
