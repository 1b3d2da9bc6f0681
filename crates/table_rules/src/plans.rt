// The open plans.
ghost use Rattle.std.specs.Prelude.{◌≡◌};
ghost use Rattle.machine_step.specs.Tables.{setup_of, segment_at};
ghost use Rattle.machine_step.specs.PlanRules.{is_drawn, is_planned_version, is_planned_of, stripes_of, is_audit_of, are_targets, is_repair_of, is_whole_repair_of, is_target_of, is_move_of, is_sound_audit, is_sound_recheck, is_sound_repair, is_sound_exit};

use crate::known::is_known;
use crate::pieces::{
    are_among, are_apart_together, are_below, are_known, are_new, has_piece, shares_subnet,
};
use audit_core::{AuditPlan, RecheckPlan};
use node_registry::NodeTable;
use repair_core::{ExitPlan, RepairPlan};
use rows::SlottedRows;
use sat_base::{At, Marks, Moment, SegId, Serial, Settings};
use segment_core::Segment;

// Whether a plan's numbers were drawn, its segment was numbered, and it isn't of a later moment.
fn is_drawn(marks: &Marks, plan: u64, serial: Serial, segment: SegId, issued: Moment) -> bool
    ensures { result ≡ is_drawn marks.now plan serial segment issued }
{
    plan < marks.plan
        && serial.0 < marks.serial
        && segment.0 < marks.segment
        && issued.seconds() <= marks.time.seconds()
}

// Whether a version is a live segment's, and one that earlier plans can have made.
fn is_planned_version(marks: &Marks, version: u64) -> bool
    ensures { result ≡ is_planned_version marks.now version }
{
    1 <= version && version < marks.plan
}

// How many stripes a segment makes.
pub(crate) fn stripes_of(settings: &Settings, segment: &Segment) -> u64
    ensures { result ≡ stripes_of (setup_of settings.now) segment.now }
{
    let scheme = &settings.scheme;
    segment
        .len
        .div_ceil(u64::from(scheme.k) * u64::from(scheme.share))
}

// Whether the stripe and the asked pieces are the segment's.
fn is_audit_of(settings: &Settings, plan: &AuditPlan, segment: &Segment) -> bool
    ensures { result ≡ is_audit_of (setup_of settings.now) plan.now segment.now }
{
    plan.stripe < stripes_of(settings, segment)
        && are_among(segment.pieces.as_slice(), plan.asked.as_slice())
}

/// Whether an open audit keeps its rule: its number and serial were drawn, its segment was numbered, and it isn't of a
/// later moment. Where the segment is there, it has the planned version, the stripe and the asked pieces, or a later
/// version.
pub fn is_sound_audit(
    settings: &Settings,
    marks: &Marks,
    segments: &SlottedRows<Segment>,
    plan: &AuditPlan,
) -> bool
    ensures { result ≡ is_sound_audit (setup_of settings.now) marks.now segments.now.rows plan.now }
{
    is_drawn(marks, plan.plan, plan.serial, plan.segment, plan.issued)
        && is_planned_version(marks, plan.version)
        && match segments.get(u128::from(plan.segment.0)) {
            Some(segment) if segment.version == plan.version => is_audit_of(
                settings, plan, segment,
            ),
            Some(segment) => plan.version < segment.version,
            None => true,
        }
}

/// Whether an open recheck keeps its rule: its number and serial were drawn, its segment was numbered, it isn't of a
/// later moment, and its node is known.
pub fn is_sound_recheck(marks: &Marks, nodes: &NodeTable, plan: &RecheckPlan) -> bool
    ensures { result ≡ is_sound_recheck marks.now nodes.now.nodes plan.now }
{
    is_drawn(marks, plan.plan, plan.serial, plan.segment, plan.issued) && is_known(nodes, plan.node)
}

// Whether targets are where fresh pieces may go, beside these sources.
fn are_targets(settings: &Settings, nodes: &NodeTable, sources: &[At], targets: &[At]) -> bool
    ensures { result ≡ are_targets (setup_of settings.now) nodes.now.nodes sources.now targets.now }
{
    1 <= targets.len()
        && are_below(settings.scheme.n, targets)
        && are_new(sources, targets)
        && are_known(nodes, targets)
        && are_apart_together(nodes, sources, targets)
}

// Whether the length and the sources are the segment's.
fn is_repair_of(plan: &RepairPlan, segment: &Segment) -> bool
    ensures { result ≡ is_repair_of plan.now segment.now }
{
    plan.len == segment.len && are_among(segment.pieces.as_slice(), plan.sources.as_slice())
}

// And whether sources are enough, and targets as they should be.
fn is_whole_repair_of(
    settings: &Settings,
    nodes: &NodeTable,
    plan: &RepairPlan,
    segment: &Segment,
) -> bool
    ensures { result ≡ is_whole_repair_of (setup_of settings.now) nodes.now.nodes plan.now segment.now }
{
    let sources = plan.sources.as_slice();
    is_repair_of(plan, segment)
        && settings.scheme.k as usize <= sources.len()
        && are_targets(settings, nodes, sources, plan.targets.as_slice())
}

/// Whether an open repair keeps its rule: it was drawn as an audit is, and where the segment is there, it has a later
/// version, or the planned one, the length, and the sources, which are at least k. Then there are targets, of indexes
/// below n that no source has, at known nodes, in subnets apart from each other's and the sources'.
pub fn is_sound_repair(
    settings: &Settings,
    marks: &Marks,
    nodes: &NodeTable,
    segments: &SlottedRows<Segment>,
    plan: &RepairPlan,
) -> bool
    ensures { result ≡ is_sound_repair (setup_of settings.now) marks.now nodes.now.nodes segments.now.rows plan.now }
{
    is_drawn(marks, plan.plan, plan.serial, plan.segment, plan.issued)
        && is_planned_version(marks, plan.version)
        && match segments.get(u128::from(plan.segment.0)) {
            Some(segment) if segment.version == plan.version => {
                is_whole_repair_of(settings, nodes, plan, segment)
            }
            Some(segment) => plan.version < segment.version,
            None => true,
        }
}

// Whether there is one target, with the leaving piece's index, at a known node in a subnet that no source has.
fn is_target_of(nodes: &NodeTable, leaving: At, sources: &[At], targets: &[At]) -> bool
    ensures { result ≡ is_target_of nodes.now.nodes leaving sources.now targets.now }
{
    match targets {
        [target] => {
            target.index == leaving.index
                && is_known(nodes, target.node)
                && !shares_subnet(nodes, *target, sources)
        }
        _ => false,
    }
}

// Whether the repair is the segment's, and the leaving piece is a source.
fn is_move_of(exit: &ExitPlan, segment: &Segment) -> bool
    ensures { result ≡ is_move_of exit.now segment.now }
{
    is_repair_of(&exit.plan, segment) && has_piece(exit.plan.sources.as_slice(), exit.leaving)
}

// Whether the segment of a move is gone, has a later version, or is the one that was planned.
fn is_planned(segments: &SlottedRows<Segment>, exit: &ExitPlan) -> bool
    ensures { result ≡ is_planned_of (segment_at segments.now.rows exit.now.plan.segment.0) exit.now.plan.version (is_move_of exit.now) }
{
    match segments.get(u128::from(exit.plan.segment.0)) {
        Some(segment) if segment.version == exit.plan.version => is_move_of(exit, segment),
        Some(segment) => exit.plan.version < segment.version,
        None => true,
    }
}

/// Whether an open move of a piece keeps its rule: it was drawn as an audit is, and where the segment is there, it has
/// a later version, or the planned one, the length, and the sources, of which the leaving piece is one. The sources
/// are at least k, at known nodes. There is one target, of the leaving piece's index, at a known node in a subnet that
/// no source has.
pub fn is_sound_exit(
    settings: &Settings,
    marks: &Marks,
    nodes: &NodeTable,
    segments: &SlottedRows<Segment>,
    exit: &ExitPlan,
) -> bool
    ensures { result ≡ is_sound_exit (setup_of settings.now) marks.now nodes.now.nodes segments.now.rows exit.now }
{
    let plan = &exit.plan;
    let sources = plan.sources.as_slice();
    is_drawn(marks, plan.plan, plan.serial, plan.segment, plan.issued)
        && is_planned_version(marks, plan.version)
        && is_planned(segments, exit)
        && settings.scheme.k as usize <= sources.len()
        && are_known(nodes, sources)
        && is_target_of(nodes, exit.leaving, sources, plan.targets.as_slice())
}
