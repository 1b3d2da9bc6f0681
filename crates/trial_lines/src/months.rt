// Requests on months and rates, and a statement in words.
ghost use Rattle.std.specs.Prelude.{IfOk};
ghost use Rattle.machine_step.specs.Step.{IsAsked};

use crate::fields::{Fields, LineErr};
use crate::requests::moment;
use machine_calls::{Call, Wish};
use sat_base::{Moment, Month, NoMemory, NodeId, Rates};
use std::alloc::Global;
use tally_payout::Statement;

// A call on months or rates, whose name was read.
pub(crate) fn on_months(alloc: Global, name: &str, fields: &mut Fields<'_>) -> Result<Call, LineErr>
    ensures { IfOk result IsAsked }
{
    match name {
        "statement" => statement(alloc, fields),
        "close-month" => close_month(alloc, fields),
        "set-rates" => set_rates(alloc, fields),
        _ => Err(LineErr::Bad),
    }
}

// NODE MONTH.
fn statement(alloc: Global, fields: &mut Fields<'_>) -> Result<Call, LineErr>
    ensures { IfOk result IsAsked }
{
    let wish = Wish::Statement {
        node: NodeId(fields.number()?),
        month: Month(fields.number()?),
    };
    Ok(Call::of_wish(alloc, Moment::of(0), wish))
}

// NOW MONTH.
fn close_month(alloc: Global, fields: &mut Fields<'_>) -> Result<Call, LineErr>
    ensures { IfOk result IsAsked }
{
    let now = moment(fields)?;
    let month = Month(fields.number()?);
    Ok(Call::of_wish(alloc, now, Wish::CloseMonth { month }))
}

// NOW MONTH, the rates. A month or a rate out of bounds is no call.
fn set_rates(alloc: Global, fields: &mut Fields<'_>) -> Result<Call, LineErr>
    ensures { IfOk result IsAsked }
{
    let now = moment(fields)?;
    let month = Month(fields.number()?);
    let rates = rates(fields)?;
    if !month.is_within() || !rates.are_within() {
        return Err(LineErr::Bad);
    }
    Ok(Call::of_wish(alloc, now, Wish::SetRates { month, rates }))
}

// GET AUDIT REPAIR STORAGE.
fn rates(fields: &mut Fields<'_>) -> Result<Rates, LineErr> {
    Ok(Rates {
        get: fields.number()?,
        audit: fields.number()?,
        repair: fields.number()?,
        storage: fields.number()?,
    })
}

// A statement in its fields.
pub(crate) fn told_statement(alloc: Global, row: &Statement) -> Result<String, NoMemory> {
    let node = row.node.0;
    let month = row.month.0;
    let age = row.age;
    let percent = row.percent;
    let mut told = format!(in alloc; "statement {node} {month} {age} {percent}")?;
    let amounts = [
        row.sums.get,
        row.sums.audit,
        row.sums.repair,
        row.sums.byte_hours,
        row.parts.get,
        row.parts.audit,
        row.parts.repair,
        row.parts.storage,
        row.parts.gross,
        row.held,
        row.paid,
        row.returned,
        row.pot,
    ];
    for amount in amounts {
        told.push_str(&format!(in alloc; " {amount}")?)?;
    }
    Ok(told)
}
