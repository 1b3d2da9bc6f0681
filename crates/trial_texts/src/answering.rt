// Replies and errors that are answered.
ghost use Rattle.std.specs.Prelude.{◌≡◌, true, IfOk};
ghost use Rattle.machine_calls.specs.Replies.{is_sayable};

use crate::done::done;
use http_edge::{EdgeErr, answer, edge_answer, memory_answer};
use http_parts::{Sent, send};
use machine_calls::{Refusal, Reply, TableName};
use order_limits::Keys;
use sat_base::{Hour, MemConsole, Month, NodeId};
use std::alloc::Global;
use tally_payout::{Parts, Statement, Sums};
use trial_lines::{Fields, LineErr};

/// The bytes of the answer to the reply that a line says.
pub fn reply_bytes(
    alloc: Global,
    keys: &Keys,
    fields: &mut Fields<'_>,
) -> Result<Vec<u8>, LineErr> {
    let reply = reply_of(alloc, fields)?;
    fields.end()?;
    Ok(answer(alloc, keys, &reply)?.into_vec())
}

// A reply that callers are told.
fn reply_of(alloc: Global, fields: &mut Fields<'_>) -> Result<Reply, LineErr>
    ensures { IfOk result (λ reply. is_sayable reply ≡ true) }
{
    match fields.word()? {
        "done" => Ok(Reply::Done(done(alloc, fields)?)),
        "settled" => Ok(Reply::Settled {
            amount: fields.number()?,
        }),
        "again" => Ok(Reply::Again {
            amount: fields.number()?,
        }),
        "free-set" => Ok(Reply::FreeSet),
        "statement" => Ok(Reply::Statement(statement(fields)?)),
        "closed" => Ok(Reply::Closed {
            month: Month(fields.number()?),
            fresh: fields.word()? == "fresh",
        }),
        "exiting" => Ok(Reply::Exiting {
            node: NodeId(fields.number()?),
        }),
        "rates-set" => Ok(Reply::RatesSet {
            month: Month(fields.number()?),
        }),
        "stopping" => Ok(Reply::Stopping),
        "refused" => Ok(Reply::Refused(refusal(fields)?)),
        _ => Err(LineErr::Bad),
    }
}

// An amount: a number up to 2^64 - 1, times 2^64, and another.
fn amount(fields: &mut Fields<'_>) -> Result<u128, LineErr> {
    let high: u64 = fields.number()?;
    let low: u64 = fields.number()?;
    Ok(u128::from(high) * 18_446_744_073_709_551_616 + u128::from(low))
}

// Node, month, age, percent, and then the amounts: the parts, the gross, held, paid, returned and the pot.
fn statement(fields: &mut Fields<'_>) -> Result<Statement, LineErr> {
    let node = NodeId(fields.number()?);
    let month = Month(fields.number()?);
    let age = fields.number()?;
    let percent = fields.number()?;
    let parts = Parts {
        get: amount(fields)?,
        audit: amount(fields)?,
        repair: amount(fields)?,
        storage: amount(fields)?,
        gross: amount(fields)?,
    };
    Ok(Statement {
        node,
        month,
        age,
        percent,
        sums: Sums {
            get: 0,
            audit: 0,
            repair: 0,
            byte_hours: 0,
        },
        parts,
        held: amount(fields)?,
        paid: amount(fields)?,
        returned: amount(fields)?,
        pot: amount(fields)?,
    })
}

// A refusal of each form that the text of an answer has: with no evidence, with a number, a node, a month, an hour.
fn refusal(fields: &mut Fields<'_>) -> Result<Refusal, LineErr> {
    Ok(match fields.word()? {
        "late" => Refusal::Late {
            until: fields.number()?,
        },
        "other-node" => Refusal::OtherNode {
            limit_node: NodeId(fields.number()?),
        },
        "too-few" => Refusal::TooFew {
            have: fields.number()?,
            need: fields.number()?,
        },
        "month-order" => Refusal::MonthOrder {
            next: Month(fields.number()?),
        },
        "month-open" => Refusal::MonthOpen {
            now: Month(fields.number()?),
        },
        "no-statement" => Refusal::NoStatement {
            month: Month(fields.number()?),
        },
        "month-begun" => Refusal::MonthBegun {
            now: Month(fields.number()?),
        },
        "not-serving" => Refusal::NotServing {
            status: fields.number()?,
        },
        "tariffs-full" => Refusal::TableFull {
            table: TableName::Tariffs,
        },
        "hour-done" => Refusal::HourDone {
            next: Hour(fields.number()?),
        },
        "stopped" => Refusal::Stopped,
        _ => return Err(LineErr::Bad),
    })
}

/// The bytes of the answer to an error of the edge.
pub fn edge_bytes(alloc: Global, fields: &mut Fields<'_>) -> Result<Vec<u8>, LineErr> {
    let error = match fields.word()? {
        "head-size" => EdgeErr::HeadSize,
        "no-route" => EdgeErr::NoRoute,
        "field" => EdgeErr::Field {
            place: fields.number()?,
        },
        "memory" => EdgeErr::NoMemory,
        _ => return Err(LineErr::Bad),
    };
    fields.end()?;
    Ok(edge_answer(alloc, &error)?.into_vec())
}

/// Sends the answer that memory runs out, where the calls of these numbers fail: whether all was sent, and the bytes
/// that were written.
pub fn sent(alloc: Global, failing: Vec<u64>) -> Result<(&'static str, Vec<u8>), LineErr> {
    let mut console = MemConsole::of(alloc, Vec::new(alloc), failing);
    let sent = match send(&mut console, memory_answer()) {
        Sent::All => "all",
        Sent::Fault => "fault",
    };
    Ok((sent, Vec::from_slice(alloc, console.written())?))
}
