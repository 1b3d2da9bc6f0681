// Records as rows.
ghost use Rattle.std.specs.Prelude.{◌≡◌, ◌≤◌, length, IfOk};
ghost use Rattle.record_kinds.specs.declared.rec.Rec.{Rec};
ghost use Rattle.record_rows.specs.Spelling.{row_of, removal};
ghost use Rattle.record_rows.specs.Fits.{IsShort};

use crate::coded::Spelled;
use crate::writers::{
    write_audit_plan, write_containment, write_customer, write_exit_plan, write_kept, write_left,
    write_marks, write_node, write_recheck_plan, write_repair_plan, write_segment, write_settings,
    write_settled, write_statement, write_tally, write_tariff,
};
use record_kinds::Rec;
use sat_base::{Change, Items, Key, NoMemory, Row, kinds};
use std::alloc::Global;

/// The row of a record.
pub fn write(alloc: Global, rec: &Rec) -> Result<Row, NoMemory>
    requires { IsShort rec.now }
    ensures { IfOk result (λ row. row ≡ row_of rec.now) }
{
    match rec {
        Rec::Settings(settings) => write_settings(alloc, settings),
        Rec::Marks(marks) => write_marks(alloc, marks),
        Rec::Node(node) => write_node(alloc, node),
        Rec::Customer(customer) => write_customer(alloc, customer),
        Rec::Segment(segment) => write_segment(alloc, segment),
        Rec::SettledRow(row) => write_settled(alloc, row),
        Rec::Tally(tally) => write_tally(alloc, tally),
        Rec::Statement(statement) => write_statement(alloc, statement),
        Rec::AuditPlan(plan) => write_audit_plan(alloc, plan),
        Rec::RecheckPlan(plan) => write_recheck_plan(alloc, plan),
        Rec::RepairPlan(plan) => write_repair_plan(alloc, plan),
        Rec::Containment(containment) => write_containment(alloc, containment),
        Rec::Kept(kept) => write_kept(alloc, kept),
        Rec::ExitPlan(plan) => write_exit_plan(alloc, plan),
        Rec::Left(left) => write_left(alloc, left),
        Rec::Tariff(tariff) => write_tariff(alloc, tariff),
    }
}

/// The removal of the row that a record of this key has.
pub fn remove(alloc: Global, key: &Key) -> Result<Change, NoMemory>
    ensures { IfOk result (λ change. change ≡ removal key.now) }
{
    let mut id = Vec::new(alloc);
    let kind = match key {
        Key::Segment(segment) => {
            segment.put(&mut id)?;
            kinds::SEGMENT
        }
        Key::Plan { kind } => *kind,
        Key::Containment(node) => {
            node.put(&mut id)?;
            kinds::CONTAINMENT
        }
    };
    Ok(Change::Remove {
        kind,
        id: Items::of(id),
    })
}
