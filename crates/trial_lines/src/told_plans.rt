// Plans and what came of them in words. A plan's fields follow in their order, and then the places.
use crate::replies::put_places;
use audit_core::{AuditPlan, Checked, RecheckPlan};
use repair_core::{ExitPlan, RepairPlan};
use sat_base::{At, NoMemory, Place};
use std::alloc::Global;

pub(crate) fn told_checked(checked: Checked) -> &'static str {
    match checked {
        Checked::Pass => "pass",
        Checked::Fail => "fail",
        Checked::Silent => "silent",
    }
}

// Each is INDEX:NODE, and `-` is none.
fn put_pieces(alloc: Global, out: &mut String, pieces: &[At]) -> Result<(), NoMemory> {
    if pieces.is_empty() {
        out.push_str("-")?;
    }
    for (i, piece) in pieces.iter().enumerate() {
        let index = piece.index;
        let node = piece.node.0;
        let between = if i == 0 { "" } else { "," };
        out.push_str(&format!(in alloc; "{between}{index}:{node}")?)?;
    }
    Ok(())
}

fn put_indexes(alloc: Global, out: &mut String, indexes: &[u8]) -> Result<(), NoMemory> {
    if indexes.is_empty() {
        out.push_str("-")?;
    }
    for (i, index) in indexes.iter().enumerate() {
        let between = if i == 0 { "" } else { "," };
        out.push_str(&format!(in alloc; "{between}{index}")?)?;
    }
    Ok(())
}

pub(crate) fn told_audit(
    alloc: Global,
    plan: &AuditPlan,
    places: &[Place],
) -> Result<String, NoMemory> {
    let number = plan.plan;
    let segment = plan.segment.0;
    let version = plan.version;
    let stripe = plan.stripe;
    let serial = plan.serial.0;
    let issued = plan.issued.seconds();
    let mut told = format!(in alloc;
        "audit-planned {number} {segment} {version} {stripe} {serial} {issued} "
    )?;
    put_pieces(alloc, &mut told, plan.asked.as_slice())?;
    told.push_str(" ")?;
    put_places(alloc, &mut told, places)?;
    Ok(told)
}

// The lists are those of altered, of missing and of contained pieces.
pub(crate) fn told_audited(
    alloc: Global,
    clear: bool,
    lists: [&[u8]; 3],
    answered: u8,
) -> Result<String, NoMemory> {
    let verdict = if clear { "clear" } else { "unclear" };
    let mut told = format!(in alloc; "audit-ended {verdict} ")?;
    for list in lists {
        put_indexes(alloc, &mut told, list)?;
        told.push_str(" ")?;
    }
    told.push_str(&format!(in alloc; "{answered}")?)?;
    Ok(told)
}

pub(crate) fn told_recheck(
    alloc: Global,
    plan: &RecheckPlan,
    place: Place,
) -> Result<String, NoMemory> {
    let number = plan.plan;
    let serial = plan.serial.0;
    let issued = plan.issued.seconds();
    let node = plan.node.0;
    let segment = plan.segment.0;
    let index = plan.index;
    let stripe = plan.stripe;
    let expect = hex::encode(alloc, plan.expect.as_slice())?;
    let mut told = format!(in alloc;
        "recheck-planned {number} {serial} {issued} {node} {segment} {index} {stripe} {expect} "
    )?;
    put_places(alloc, &mut told, &[place])?;
    Ok(told)
}

fn put_repair(alloc: Global, out: &mut String, plan: &RepairPlan) -> Result<(), NoMemory> {
    let number = plan.plan;
    let segment = plan.segment.0;
    let version = plan.version;
    let serial = plan.serial.0;
    let issued = plan.issued.seconds();
    let len = plan.len;
    let fields = format!(in alloc; "{number} {segment} {version} {serial} {issued} {len} ")?;
    out.push_str(&fields)?;
    put_pieces(alloc, out, plan.sources.as_slice())?;
    out.push_str(" ")?;
    put_pieces(alloc, out, plan.targets.as_slice())
}

pub(crate) fn told_repair(
    alloc: Global,
    plan: &RepairPlan,
    sources: &[Place],
    targets: &[Place],
) -> Result<String, NoMemory> {
    let mut told = String::from_str(alloc, "repair-planned ")?;
    put_repair(alloc, &mut told, plan)?;
    told.push_str(" ")?;
    put_places(alloc, &mut told, sources)?;
    told.push_str(" ")?;
    put_places(alloc, &mut told, targets)?;
    Ok(told)
}

pub(crate) fn told_exit(
    alloc: Global,
    plan: &ExitPlan,
    sources: &[Place],
    target: Place,
) -> Result<String, NoMemory> {
    let index = plan.leaving.index;
    let node = plan.leaving.node.0;
    let mut told = format!(in alloc; "exit-planned {index}:{node} ")?;
    put_repair(alloc, &mut told, &plan.plan)?;
    told.push_str(" ")?;
    put_places(alloc, &mut told, sources)?;
    told.push_str(" ")?;
    put_places(alloc, &mut told, &[target])?;
    Ok(told)
}
