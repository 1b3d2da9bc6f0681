// The tests of rules over the index of segments, and over what stands beside it: plans, containments, kept requests, the
// nodes that left, and tariffs.
ghost use Rattle.std.specs.Prelude.{◌≡◌};
ghost use Rattle.sat_base.specs.declared.kinds.TheConstants as kinds;
ghost use Rattle.machine_calls.specs.declared.rules.TheConstants as rules;
ghost use Rattle.machine_step.specs.Broken.{broken_plan, broken_containments, broken_kept, broken_left, broken_tariffs};
ghost use Rattle.machine_step.specs.PlanRules.{is_sound_audit, is_sound_recheck, is_sound_repair, is_sound_exit, bad_lefts};
ghost use Rattle.machine_step.specs.Rules.{least};
ghost use Rattle.machine_step.specs.Tables.{setup_of};
ghost use Rattle.machine_store.specs.Opening.{Tests, least_of};

use crate::opening::{CoreErr, rule_err};
use crate::untested::Untested;
use machine_calls::rules;
use sat_base::kinds;
use segment_index::SegmentIndex;
use std::alloc::Global;
use table_rules::{
    bad_containment, bad_kept, bad_tariff, is_sound_audit, is_sound_exit, is_sound_recheck,
    is_sound_repair, missing_left,
};

pub(crate) fn test_audit(
    alloc: Global,
    rows: &Untested,
    segments: &SegmentIndex,
) -> Result<(), CoreErr>
    ensures { Tests result (broken_plan rules.PLANS kinds.AUDIT_PLAN
        (is_sound_audit (setup_of rows.now.settings) rows.now.marks segments.now.rows) rows.now.plans.audit) }
{
    match &rows.plans.audit {
        Some(plan) if !is_sound_audit(&rows.settings, &rows.marks, segments.rows(), plan) => {
            Err(rule_err(alloc, rules::PLANS, kinds::AUDIT_PLAN, &[]))
        }
        _ => Ok(()),
    }
}

pub(crate) fn test_recheck(alloc: Global, rows: &Untested) -> Result<(), CoreErr>
    ensures { Tests result (broken_plan rules.PLANS kinds.RECHECK_PLAN
        (is_sound_recheck rows.now.marks rows.now.nodes.nodes) rows.now.plans.recheck) }
{
    match &rows.plans.recheck {
        Some(plan) if !is_sound_recheck(&rows.marks, &rows.nodes, plan) => {
            Err(rule_err(alloc, rules::PLANS, kinds::RECHECK_PLAN, &[]))
        }
        _ => Ok(()),
    }
}

pub(crate) fn test_repair(
    alloc: Global,
    rows: &Untested,
    segments: &SegmentIndex,
) -> Result<(), CoreErr>
    ensures { Tests result (broken_plan rules.PLANS kinds.REPAIR_PLAN
        (is_sound_repair (setup_of rows.now.settings) rows.now.marks rows.now.nodes.nodes segments.now.rows)
        rows.now.plans.repair) }
{
    let Untested {
        settings,
        marks,
        nodes,
        plans,
        ..
    } = rows;
    match &plans.repair {
        Some(plan) if !is_sound_repair(settings, marks, nodes, segments.rows(), plan) => {
            Err(rule_err(alloc, rules::PLANS, kinds::REPAIR_PLAN, &[]))
        }
        _ => Ok(()),
    }
}

pub(crate) fn test_containments(
    alloc: Global,
    rows: &Untested,
    segments: &SegmentIndex,
) -> Result<(), CoreErr>
    ensures { Tests result (broken_containments (setup_of rows.now.settings) rows.now.nodes.nodes segments.now.rows
        rows.now.containments.items) }
{
    let containments = rows.containments.as_slice();
    match bad_containment(&rows.settings, &rows.nodes, segments.rows(), containments) {
        Some(row) => Err(rule_err(
            alloc,
            rules::CONTAINMENTS,
            kinds::CONTAINMENT,
            &row.node.0.to_be_bytes(),
        )),
        None => Ok(()),
    }
}

pub(crate) fn test_kept(alloc: Global, rows: &Untested) -> Result<(), CoreErr>
    ensures { Tests result (broken_kept rows.now.marks rows.now.nodes.nodes rows.now.customers.rows
        rows.now.kept.items) }
{
    match bad_kept(
        &rows.marks,
        &rows.nodes,
        &rows.customers,
        rows.kept.as_slice(),
    ) {
        Some(kept) => Err(rule_err(
            alloc,
            rules::KEPT,
            kinds::KEPT,
            &kept.caller.0.to_be_bytes(),
        )),
        None => Ok(()),
    }
}

pub(crate) fn test_exit(
    alloc: Global,
    rows: &Untested,
    segments: &SegmentIndex,
) -> Result<(), CoreErr>
    ensures { Tests result (broken_plan rules.EXIT_PLAN kinds.EXIT_PLAN
        (is_sound_exit (setup_of rows.now.settings) rows.now.marks rows.now.nodes.nodes segments.now.rows)
        rows.now.plans.exit) }
{
    let Untested {
        settings,
        marks,
        nodes,
        plans,
        ..
    } = rows;
    match &plans.exit {
        Some(plan) if !is_sound_exit(settings, marks, nodes, segments.rows(), plan) => {
            Err(rule_err(alloc, rules::EXIT_PLAN, kinds::EXIT_PLAN, &[]))
        }
        _ => Ok(()),
    }
}

// The lesser of two numbers, of which each may be none.
fn least_of(one: Option<u32>, other: Option<u32>) -> Option<u32>
    ensures { result ≡ least_of one other }
{
    match (one, other) {
        (Some(one), Some(other)) => Some(one.min(other)),
        (None, other) => other,
        (one, None) => one,
    }
}

pub(crate) fn test_left(alloc: Global, rows: &Untested) -> Result<(), CoreErr>
    requires { rows.now.bad_left ≡ least (bad_lefts rows.now.marks rows.now.nodes.nodes rows.now.left.rows) }
    ensures { Tests result (broken_left rows.now.marks rows.now.nodes.nodes rows.now.left.rows) }
{
    let missing = missing_left(rows.nodes.nodes(), &rows.left);
    match least_of(rows.bad_left, missing) {
        Some(node) => Err(rule_err(alloc, rules::LEFT, kinds::LEFT, &node.to_be_bytes())),
        None => Ok(()),
    }
}

pub(crate) fn test_tariffs(alloc: Global, rows: &Untested) -> Result<(), CoreErr>
    ensures { Tests result (broken_tariffs rows.now.settings.first_month.0 rows.now.tariffs.items) }
{
    match bad_tariff(rows.settings.first_month, rows.tariffs.as_slice()) {
        Some(month) => Err(rule_err(alloc, rules::TARIFFS, kinds::TARIFF, &month.to_be_bytes())),
        None => Ok(()),
    }
}
