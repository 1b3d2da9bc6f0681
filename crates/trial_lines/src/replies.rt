// Replies in words. A record's fields follow in their order.
use crate::months::told_statement;
use crate::refusals::told_refusal;
use crate::told_plans::{
    told_audit, told_audited, told_checked, told_exit, told_recheck, told_repair,
};
use machine_calls::Reply;
use sat_base::{Done, NoMemory, Offer, Place};
use std::alloc::Global;

/// What a call was answered.
pub fn told_reply(alloc: Global, reply: &Reply) -> Result<String, NoMemory> {
    Ok(match reply {
        Reply::Done(done) => told_done(alloc, done)?,
        Reply::Settled { amount } => format!(in alloc; "settled {amount}")?,
        Reply::Again { amount } => format!(in alloc; "again {amount}")?,
        Reply::FreeSet => String::from_str(alloc, "free-set")?,
        Reply::Exiting { node } => {
            let id = node.0;
            format!(in alloc; "exiting {id}")?
        }
        Reply::Statement(statement) => told_statement(alloc, statement)?,
        Reply::Closed { month, fresh } => {
            let month = month.0;
            let when = if *fresh { "now" } else { "before" };
            format!(in alloc; "closed {month} {when}")?
        }
        Reply::RatesSet { month } => {
            let month = month.0;
            format!(in alloc; "rates-set {month}")?
        }
        Reply::Stopping => String::from_str(alloc, "stopping")?,
        Reply::Refused(refusal) => told_refusal(alloc, refusal)?,
        Reply::StoreFault { before, after } => format!(in alloc; "store-fault {before} {after}")?,
        Reply::NoMemory => String::from_str(alloc, "no-memory")?,
        _ => told_own(alloc, reply)?,
    })
}

// What a call of the satellite's own was answered.
fn told_own(alloc: Global, reply: &Reply) -> Result<String, NoMemory> {
    match reply {
        Reply::AuditPlanned { plan, places } => told_audit(alloc, plan, places.as_slice()),
        Reply::AuditEnded {
            clear,
            blamed,
            missing,
            contained,
            answered,
        } => {
            let lists = [blamed.as_slice(), missing.as_slice(), contained.as_slice()];
            told_audited(alloc, *clear, lists, *answered)
        }
        Reply::RecheckPlanned { plan, place } => told_recheck(alloc, plan, *place),
        Reply::RecheckEnded { checked, tries } => {
            let checked = told_checked(*checked);
            Ok(format!(in alloc; "recheck-ended {checked} {tries}")?)
        }
        Reply::Gone => Ok(String::from_str(alloc, "gone")?),
        Reply::RepairPlanned {
            plan,
            sources,
            targets,
        } => told_repair(alloc, plan, sources.as_slice(), targets.as_slice()),
        Reply::RepairEnded { version } => Ok(format!(in alloc; "repair-ended {version}")?),
        Reply::Unrepaired => Ok(String::from_str(alloc, "unrepaired")?),
        Reply::Superseded { planned, now } => Ok(format!(in alloc; "superseded {planned} {now}")?),
        Reply::Tallied { hour, nodes } => {
            let hour = hour.0;
            Ok(format!(in alloc; "tallied {hour} {nodes}")?)
        }
        Reply::Exited { node } => {
            let id = node.0;
            Ok(format!(in alloc; "exited {id}")?)
        }
        Reply::ExitPlanned {
            plan,
            sources,
            target,
        } => told_exit(alloc, plan, sources.as_slice(), *target),
        // All others are those of requests.
        _ => Ok(String::from_str(alloc, "another")?),
    }
}

fn told_done(alloc: Global, done: &Done) -> Result<String, NoMemory> {
    Ok(match done {
        Done::NodeAdded { node } => {
            let id = node.0;
            format!(in alloc; "node {id}")?
        }
        Done::CustomerAdded { customer } => {
            let id = customer.0;
            format!(in alloc; "customer {id}")?
        }
        Done::Offer(offer) => told_offer(alloc, offer)?,
        Done::Committed { segment } => {
            let id = segment.0;
            format!(in alloc; "committed {id}")?
        }
        Done::Deleted { segment } => {
            let id = segment.0;
            format!(in alloc; "deleted {id}")?
        }
    })
}

// Its fields, and the places.
fn told_offer(alloc: Global, offer: &Offer) -> Result<String, NoMemory> {
    let customer = offer.customer.0;
    let segment = offer.segment.0;
    let serial = offer.serial.0;
    let action = offer.action;
    let piece_len = offer.piece_len;
    let issued = offer.issued.seconds();
    let mut told = format!(in alloc;
        "offer {customer} {segment} {serial} {action} {piece_len} {issued} "
    )?;
    put_places(alloc, &mut told, offer.places.as_slice())?;
    Ok(told)
}

// Places, each as INDEX:NODE:ADDR:PORT, apart by commas. `-` is none.
pub(crate) fn put_places(
    alloc: Global,
    out: &mut String,
    places: &[Place],
) -> Result<(), NoMemory> {
    if places.is_empty() {
        out.push_str("-")?;
    }
    for (i, place) in places.iter().enumerate() {
        let index = place.index;
        let node = place.node.0;
        let addr = place.addr;
        let port = place.port;
        let between = if i == 0 { "" } else { "," };
        out.push_str(&format!(in alloc; "{between}{index}:{node}:{addr}:{port}")?)?;
    }
    Ok(())
}
