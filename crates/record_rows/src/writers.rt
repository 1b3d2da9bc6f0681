// The writer of each kind.
ghost use Rattle.std.specs.Prelude.{◌≡◌, IfOk};
ghost use Rattle.record_kinds.specs.declared.rec.Rec.{Rec};
ghost use Rattle.record_rows.specs.Spelling.{row_of};
ghost use Rattle.record_rows.specs.Fits.{IsShort};

use crate::kind::write_row;
use audit_core::{AuditPlan, RecheckPlan};
use node_registry::{Left, Node};
use record_kinds::Rec;
use repair_core::{ExitPlan, RepairPlan};
use sat_base::{Containment, Customer, Kept, Marks, NoMemory, Row, Settings, Tariff};
use segment_core::Segment;
use settlement::SettledRow;
use std::alloc::Global;
use tally_payout::{Statement, Tally};

/// The row of settings.
pub fn write_settings(alloc: Global, rec: &Settings) -> Result<Row, NoMemory>
    ensures { IfOk result (λ row. row ≡ row_of (Rec.Settings rec.now)) }
{
    write_row(alloc, rec)
}

/// The row of marks.
pub fn write_marks(alloc: Global, rec: &Marks) -> Result<Row, NoMemory>
    ensures { IfOk result (λ row. row ≡ row_of (Rec.Marks rec.now)) }
{
    write_row(alloc, rec)
}

/// The row of a node.
pub fn write_node(alloc: Global, rec: &Node) -> Result<Row, NoMemory>
    ensures { IfOk result (λ row. row ≡ row_of (Rec.Node rec.now)) }
{
    write_row(alloc, rec)
}

/// The row of a customer.
pub fn write_customer(alloc: Global, rec: &Customer) -> Result<Row, NoMemory>
    ensures { IfOk result (λ row. row ≡ row_of (Rec.Customer rec.now)) }
{
    write_row(alloc, rec)
}

/// The row of a segment.
pub fn write_segment(alloc: Global, rec: &Segment) -> Result<Row, NoMemory>
    requires { IsShort (Rec.Segment rec.now) }
    ensures { IfOk result (λ row. row ≡ row_of (Rec.Segment rec.now)) }
{
    write_row(alloc, rec)
}

/// The row of a settled order.
pub fn write_settled(alloc: Global, rec: &SettledRow) -> Result<Row, NoMemory>
    ensures { IfOk result (λ row. row ≡ row_of (Rec.SettledRow rec.now)) }
{
    write_row(alloc, rec)
}

/// The row of a tally.
pub fn write_tally(alloc: Global, rec: &Tally) -> Result<Row, NoMemory>
    ensures { IfOk result (λ row. row ≡ row_of (Rec.Tally rec.now)) }
{
    write_row(alloc, rec)
}

/// The row of a statement.
pub fn write_statement(alloc: Global, rec: &Statement) -> Result<Row, NoMemory>
    ensures { IfOk result (λ row. row ≡ row_of (Rec.Statement rec.now)) }
{
    write_row(alloc, rec)
}

/// The row of the open plan of an audit.
pub fn write_audit_plan(alloc: Global, rec: &AuditPlan) -> Result<Row, NoMemory>
    requires { IsShort (Rec.AuditPlan rec.now) }
    ensures { IfOk result (λ row. row ≡ row_of (Rec.AuditPlan rec.now)) }
{
    write_row(alloc, rec)
}

/// The row of the open plan of asking a node again.
pub fn write_recheck_plan(alloc: Global, rec: &RecheckPlan) -> Result<Row, NoMemory>
    ensures { IfOk result (λ row. row ≡ row_of (Rec.RecheckPlan rec.now)) }
{
    write_row(alloc, rec)
}

/// The row of the open plan of a repair.
pub fn write_repair_plan(alloc: Global, rec: &RepairPlan) -> Result<Row, NoMemory>
    requires { IsShort (Rec.RepairPlan rec.now) }
    ensures { IfOk result (λ row. row ≡ row_of (Rec.RepairPlan rec.now)) }
{
    write_row(alloc, rec)
}

/// The row of a containment.
pub fn write_containment(alloc: Global, rec: &Containment) -> Result<Row, NoMemory>
    ensures { IfOk result (λ row. row ≡ row_of (Rec.Containment rec.now)) }
{
    write_row(alloc, rec)
}

/// The row of a kept request.
pub fn write_kept(alloc: Global, rec: &Kept) -> Result<Row, NoMemory>
    requires { IsShort (Rec.Kept rec.now) }
    ensures { IfOk result (λ row. row ≡ row_of (Rec.Kept rec.now)) }
{
    write_row(alloc, rec)
}

/// The row of the open plan of an exit.
pub fn write_exit_plan(alloc: Global, rec: &ExitPlan) -> Result<Row, NoMemory>
    requires { IsShort (Rec.ExitPlan rec.now) }
    ensures { IfOk result (λ row. row ≡ row_of (Rec.ExitPlan rec.now)) }
{
    write_row(alloc, rec)
}

/// The row of a node that left.
pub fn write_left(alloc: Global, rec: &Left) -> Result<Row, NoMemory>
    ensures { IfOk result (λ row. row ≡ row_of (Rec.Left rec.now)) }
{
    write_row(alloc, rec)
}

/// The row of a tariff.
pub fn write_tariff(alloc: Global, rec: &Tariff) -> Result<Row, NoMemory>
    ensures { IfOk result (λ row. row ≡ row_of (Rec.Tariff rec.now)) }
{
    write_row(alloc, rec)
}
