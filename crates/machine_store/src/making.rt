// The tables of records, where they keep every rule.
ghost use Rattle.std.specs.Prelude.{◌≡◌, ◌≤◌, length, IfOk};
ghost use Rattle.sat_base.specs.Limits.{IsTariffWithin};
ghost use Rattle.sat_base.specs.Ranks.{containment_rank, customer_rank, kept_rank, tariff_rank};
ghost use Rattle.rows.specs.Rows.{Each, IsRising};
ghost use Rattle.node_registry.specs.Left.{left_rank};
ghost use Rattle.segment_core.specs.Record.{segment_rank};
ghost use Rattle.settlement.specs.Rows.{key};
ghost use Rattle.tally_payout.specs.Ranks.{tally_rank, statement_rank};
ghost use Rattle.machine_step.specs.Bounds.{IsSetupWithin};
ghost use Rattle.machine_step.specs.Broken.{first_broken};
ghost use Rattle.machine_step.specs.Tables.{setup_of};
ghost use Rattle.machine_store.specs.Opening.{tables_made, Tests};
ghost use Rattle.machine_store.specs.Store.{tables_of, GoesByTables};

use crate::opening::CoreErr;
use crate::store::Store;
use crate::tables::{index_of, settled_table};
use crate::testing::{test_front, test_paid, test_rest};
use crate::untested::{PaidRows, untested_of};
use machine_calls::Parts0;
use order_limits::Keys;
use pay_tables::PayTables;
use rows::SlottedRows;
use sat_base::{Marks, Settings};
use std::alloc::Global;

// The tables of these records, or the least broken rule in place of them.
pub fn store_of(
    alloc: Global,
    settings: Settings,
    marks: Marks,
    parts: Parts0,
) -> Result<Store, CoreErr>
    requires setup { IsSetupWithin (setup_of settings) }
    requires customers { IsRising customer_rank parts.customers.items }
    requires segments { IsRising segment_rank parts.segments.items }
    requires settled { IsRising key parts.settled.items }
    requires tallies { IsRising tally_rank parts.tallies.items }
    requires statements { IsRising statement_rank parts.statements.items }
    requires one_audit { length parts.audit_plans.items ≤ 1 }
    requires one_recheck { length parts.recheck_plans.items ≤ 1 }
    requires one_repair { length parts.repair_plans.items ≤ 1 }
    requires containments { IsRising containment_rank parts.containments.items }
    requires kept { IsRising kept_rank parts.kept.items }
    requires one_exit { length parts.exit_plans.items ≤ 1 }
    requires left { IsRising left_rank parts.left.items }
    requires tariffs { IsRising tariff_rank parts.tariffs.items }
    requires tariffs_within { Each IsTariffWithin parts.tariffs.items }
    ensures rules { Tests result (first_broken (tables_made settings marks parts)) }
    ensures tables { IfOk result (λ s. tables_of s ≡ tables_made settings marks parts) }
    ensures own { IfOk result (λ s. GoesByTables s) }
{
    test_front(alloc, &settings, &marks, &parts)?;
    let (others, paid) = untested_of(alloc, settings, marks, parts)?;
    let sums = test_paid(alloc, &others, &paid)?;
    let PaidRows {
        segments,
        settled,
        tallies,
        statements,
    } = paid;
    let pay = PayTables::of(
        alloc,
        tallies,
        statements,
        sums,
        segments.as_slice(),
        &settings,
    )?;
    let settled = settled_table(alloc, settings.caps.settled, settled)?;
    // The index takes the list of segments that pay is made by, and the rest of the rules looks segments up in it.
    let segments = index_of(alloc, &settings, &others.nodes, segments)?;
    test_rest(alloc, &others, &segments)?;
    Ok(Store {
        settings,
        keys: Keys::new(settings.secret),
        marks,
        nodes: others.nodes,
        customers: others.customers,
        segments,
        settled,
        pay,
        plans: others.plans,
        containments: SlottedRows::of(alloc, others.containments)?,
        kept: SlottedRows::of(alloc, others.kept)?,
        left: others.left,
        tariffs: SlottedRows::of(alloc, others.tariffs)?,
        stopped: false,
    })
}
