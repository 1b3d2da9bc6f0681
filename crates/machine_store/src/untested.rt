// The records that a store is to be made of, as far as they are made into tables before their rules are tested.
ghost use Rattle.std.specs.Prelude.{◌≡◌, ◌≤◌, None, length, IfOk};
ghost use Rattle.sat_base.specs.Ranks.{customer_rank};
ghost use Rattle.rows.specs.Rows.{IsRising};
ghost use Rattle.node_registry.specs.Left.{left_rank};
ghost use Rattle.machine_step.specs.Bounds.{IsSetupWithin};
ghost use Rattle.machine_step.specs.Broken.{broken_nodes};
ghost use Rattle.machine_step.specs.PlanRules.{bad_lefts};
ghost use Rattle.machine_step.specs.Rules.{least};
ghost use Rattle.machine_step.specs.Tables.{setup_of};
ghost use Rattle.machine_store.specs.Opening.{tables_made};
ghost use Rattle.machine_store.specs.Testing.{tables_in};

use crate::plans::{Plans, sole};
use crate::tables::node_table;
use machine_calls::Parts0;
use node_registry::{Left, NodeTable};
use rows::SlottedRows;
use sat_base::{Containment, Customer, Kept, Marks, NoMemory, Settings, Tariff};
use segment_core::Segment;
use settlement::SettledRow;
use std::alloc::Global;
use table_rules::bad_left;
use tally_payout::{Statement, Tally};

// The records that pay goes by. They stand in lists until their rules are tested.
#[derive(Drop)]
pub(crate) struct PaidRows {
    pub segments: Vec<Segment>,
    pub settled: Vec<SettledRow>,
    pub tallies: Vec<Tally>,
    pub statements: Vec<Statement>,
}

// All others, in which nothing but marks, nodes and customers is tested yet.
#[derive(Drop)]
pub(crate) struct Untested {
    pub settings: Settings,
    pub marks: Marks,
    pub nodes: NodeTable,
    pub customers: SlottedRows<Customer>,
    pub plans: Plans,
    pub containments: Vec<Containment>,
    pub kept: Vec<Kept>,
    pub left: SlottedRows<Left>,
    // The least node whose row in `left` breaks the rule. It is found while the rows are a list: the rule of statements,
    // which comes first, takes them as a table.
    pub bad_left: Option<u32>,
    pub tariffs: Vec<Tariff>,
}

pub(crate) fn untested_of(
    alloc: Global,
    settings: Settings,
    marks: Marks,
    parts: Parts0,
) -> Result<(Untested, PaidRows), NoMemory>
    requires setup { IsSetupWithin (setup_of settings) }
    requires nodes { broken_nodes (setup_of settings) marks parts.nodes.items ≡ None }
    requires customers { IsRising customer_rank parts.customers.items }
    requires one_audit { length parts.audit_plans.items ≤ 1 }
    requires one_recheck { length parts.recheck_plans.items ≤ 1 }
    requires one_repair { length parts.repair_plans.items ≤ 1 }
    requires one_exit { length parts.exit_plans.items ≤ 1 }
    requires left { IsRising left_rank parts.left.items }
    ensures tables { IfOk result (λ made. tables_in made.0 made.1 ≡ tables_made settings marks parts) }
    ensures bad_left { IfOk result (λ made. made.0.bad_left ≡ least (bad_lefts made.0.marks made.0.nodes.nodes made.0.left.rows)) }
{
    let nodes = node_table(alloc, parts.nodes)?;
    let bad_left = bad_left(&marks, &nodes, parts.left.as_slice());
    let others = Untested {
        settings,
        marks,
        nodes,
        customers: SlottedRows::of(alloc, parts.customers)?,
        plans: Plans {
            audit: sole(parts.audit_plans),
            recheck: sole(parts.recheck_plans),
            repair: sole(parts.repair_plans),
            exit: sole(parts.exit_plans),
        },
        containments: parts.containments,
        kept: parts.kept,
        left: SlottedRows::of(alloc, parts.left)?,
        bad_left,
        tariffs: parts.tariffs,
    };
    let paid = PaidRows {
        segments: parts.segments,
        settled: parts.settled,
        tallies: parts.tallies,
        statements: parts.statements,
    };
    Ok((others, paid))
}
