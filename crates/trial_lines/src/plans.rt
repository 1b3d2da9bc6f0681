// Plans, by their fields in their order. Pieces are given as `INDEX:NODE`, apart by commas.
use crate::fields::{Fields, LineErr};
use crate::forms::hash;
use crate::pieces::pieces;
use audit_core::{AuditPlan, RecheckPlan};
use repair_core::RepairPlan;
use sat_base::{Items, Moment, NodeId, SegId, Serial};
use std::alloc::Global;

// PLAN SEGMENT VERSION STRIPE SERIAL ISSUED ASKED.
pub(crate) fn audit_plan(alloc: Global, fields: &mut Fields<'_>) -> Result<AuditPlan, LineErr> {
    Ok(AuditPlan {
        plan: fields.number()?,
        segment: SegId(fields.number()?),
        version: fields.number()?,
        stripe: fields.number()?,
        serial: Serial(fields.number()?),
        issued: Moment::of(fields.number()?),
        asked: Items::of(pieces(alloc, fields)?),
    })
}

// PLAN SERIAL ISSUED NODE SEGMENT INDEX STRIPE EXPECT, the last one as 64 hexadecimal digits.
pub(crate) fn recheck_plan(fields: &mut Fields<'_>) -> Result<RecheckPlan, LineErr> {
    let plan = fields.number()?;
    let serial = Serial(fields.number()?);
    let issued = Moment::of(fields.number()?);
    let node = NodeId(fields.number()?);
    let segment = SegId(fields.number()?);
    let index = fields.number()?;
    let stripe = fields.number()?;
    let expect = hash(fields)?;
    Ok(RecheckPlan {
        plan,
        serial,
        issued,
        node,
        segment,
        index,
        stripe,
        expect,
    })
}

// PLAN SEGMENT VERSION SERIAL ISSUED LEN SOURCES TARGETS.
pub(crate) fn repair_plan(alloc: Global, fields: &mut Fields<'_>) -> Result<RepairPlan, LineErr> {
    Ok(RepairPlan {
        plan: fields.number()?,
        segment: SegId(fields.number()?),
        version: fields.number()?,
        serial: Serial(fields.number()?),
        issued: Moment::of(fields.number()?),
        len: fields.number()?,
        sources: Items::of(pieces(alloc, fields)?),
        targets: Items::of(pieces(alloc, fields)?),
    })
}
