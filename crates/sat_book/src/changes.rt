// Changes of records, as changes of rows.
ghost use Rattle.std.specs.Prelude.{◌≡◌, map, IfOk};
ghost use Rattle.record_rows.specs.Numbers.{IsU32, IsU64};
ghost use Rattle.machine_step.specs.Bounds.{Each};
ghost use Rattle.machine_step.specs.Writable.{IsWritable};
ghost use Rattle.sat_book.specs.Changes.{row_change};
ghost use Rattle.sat_book.specs.Ids.{HasId};

use machine_calls::RecChange;
use record_rows::{
    remove, write_audit_plan, write_containment, write_customer, write_exit_plan, write_kept,
    write_left, write_marks, write_node, write_recheck_plan, write_repair_plan, write_segment,
    write_settings, write_settled, write_statement, write_tally, write_tariff,
};
use sat_base::{Change, Key, NoMemory, Row};
use std::alloc::Global;

// A number is within its type.
fn fits_u32(number: u32)
    ensures { IsU32 number }
{
    let _ = number;
}

fn fits_u64(number: u64)
    ensures { IsU64 number }
{
    let _ = number;
}

// Reads the numbers of the id, which shows contracts that they are within their types.
fn read_id(change: &RecChange)
    ensures { HasId change.now }
{
    match change {
        RecChange::Node(node) => fits_u32(node.id.0),
        RecChange::Customer(customer) => fits_u32(customer.id.0),
        RecChange::Segment(segment) => fits_u64(segment.id.0),
        RecChange::SettledRow(row) => {
            fits_u64(row.serial.0);
            fits_u32(row.node.0);
        }
        RecChange::Tally(tally) => {
            fits_u64(tally.hour.0);
            fits_u32(tally.node.0);
        }
        RecChange::Statement(statement) => {
            fits_u32(statement.month.0);
            fits_u32(statement.node.0);
        }
        RecChange::Containment(containment) => fits_u32(containment.node.0),
        RecChange::Kept(kept) => fits_u32(kept.caller.0),
        RecChange::Left(left) => fits_u32(left.node.0),
        RecChange::Tariff(tariff) => fits_u32(tariff.from.0),
        RecChange::Remove(Key::Segment(segment)) => fits_u64(segment.0),
        RecChange::Remove(Key::Containment(node)) => fits_u32(node.0),
        _ => {}
    }
}

// The row that a change of a record puts, or the removal.
fn row_change(alloc: Global, change: &RecChange) -> Result<Change, NoMemory>
    requires { IsWritable change.now }
    ensures change { IfOk result (λ row. row ≡ row_change change.now) }
    ensures id { IfOk result (λ _. HasId change.now) }
{
    read_id(change);
    let row: Row = match change {
        RecChange::Settings(one) => write_settings(alloc, one)?,
        RecChange::Marks(one) => write_marks(alloc, one)?,
        RecChange::Node(one) => write_node(alloc, one)?,
        RecChange::Customer(one) => write_customer(alloc, one)?,
        RecChange::Segment(one) => write_segment(alloc, one)?,
        RecChange::SettledRow(one) => write_settled(alloc, one)?,
        RecChange::Tally(one) => write_tally(alloc, one)?,
        RecChange::Statement(one) => write_statement(alloc, one)?,
        RecChange::AuditPlan(one) => write_audit_plan(alloc, one)?,
        RecChange::RecheckPlan(one) => write_recheck_plan(alloc, one)?,
        RecChange::RepairPlan(one) => write_repair_plan(alloc, one)?,
        RecChange::Containment(one) => write_containment(alloc, one)?,
        RecChange::Kept(one) => write_kept(alloc, one)?,
        RecChange::ExitPlan(one) => write_exit_plan(alloc, one)?,
        RecChange::Left(one) => write_left(alloc, one)?,
        RecChange::Tariff(one) => write_tariff(alloc, one)?,
        RecChange::Remove(key) => return remove(alloc, key),
    };
    Ok(Change::Put(row))
}

/// The rows that change with records, in order.
pub(crate) fn row_changes(alloc: Global, changes: &[RecChange]) -> Result<Vec<Change>, NoMemory>
    requires { Each IsWritable changes.now }
    ensures changes { IfOk result (λ rows. rows.items ≡ map row_change changes.now) }
    ensures ids { IfOk result (λ _. Each HasId changes.now) }
{
    let mut rows = Vec::with_capacity(alloc, changes.len())?;
    for change in changes {
        rows.push(row_change(alloc, change)?)?;
    }
    Ok(rows)
}
