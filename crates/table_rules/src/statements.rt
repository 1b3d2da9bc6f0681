// The statements.
ghost use Rattle.std.specs.Prelude.{◌≡◌, ◌≤◌, All, IfOk};
ghost use Rattle.sat_base.specs.declared.limits.TheConstants as limits;
ghost use Rattle.tally_payout.specs.Tariff.{IsRates};
ghost use Rattle.month_pay.specs.Ledger.{Ledger};
ghost use Rattle.month_sums.specs.Open.{AreInBounds};
ghost use Rattle.machine_step.specs.Tables.{setup_of};
ghost use Rattle.machine_step.specs.Rules.{bad_statement};
ghost use Rattle.table_rules.specs.Statements.{IsLedgerOf};

use month_sums::{OpenSums, Stated, first_broken, no_pots, sums_due};
use node_registry::{Left, Node};
use rows::SlottedRows;
use sat_base::{Marks, NoMemory, Settings, Tariff};
use std::alloc::Global;
use tally_payout::Statement;

/// The statements, and the rows that they are tested against.
#[derive(Drop)]
pub struct StatementRows<'a> {
    pub statements: &'a [Statement],
    pub nodes: &'a [Node],
    /// The sums of all settled orders and tallies.
    pub counted: &'a SlottedRows<OpenSums>,
    pub left: &'a SlottedRows<Left>,
    pub tariffs: &'a [Tariff],
}

/// The first statement that breaks the rule or is missing, as the number of its month and node: they number at most the
/// cap, and of each month from the first one, or that of a node's joining, up to the one before the next to close there
/// is one, as it follows from the rows, and no other.
pub fn bad_statement(
    alloc: Global,
    settings: &Settings,
    marks: &Marks,
    rows: &StatementRows,
) -> Result<Option<u64>, NoMemory>
    requires begun { settings.now.first_month.0 ≤ marks.now.month.0 }
    requires early { marks.now.month.0 ≤ limits.LAST_MONTH }
    requires fit { AreInBounds rows.now.counted.now.rows }
    requires rates { All (λ t. IsRates t.rates) rows.now.tariffs.now }
    ensures { IfOk result (λ place. (l : Ledger)
        → IsLedgerOf l settings.now marks.now rows.now.nodes.now rows.now.statements.now rows.now.counted.now.rows
        rows.now.left.now.rows rows.now.tariffs.now
        → place ≡ bad_statement (setup_of settings.now) l) }
{
    let sums = sums_due(alloc, rows.statements, rows.counted)?;
    let mut pots = no_pots(alloc, rows.nodes.len())?;
    let stated = Stated {
        cap: settings.caps.statements as usize,
        rows: rows.statements,
        sums: sums.as_slice(),
        left: rows.left,
    };
    Ok(first_broken(
        settings.first_month,
        marks.month,
        rows.nodes,
        &stated,
        pots.as_mut_slice(),
        rows.tariffs,
    ))
}
