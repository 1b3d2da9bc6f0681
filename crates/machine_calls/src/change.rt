use audit_core::{AuditPlan, RecheckPlan};
use node_registry::{Left, Node};
use repair_core::{ExitPlan, RepairPlan};
use sat_base::{Containment, Customer, Kept, Key, Marks, Settings, Tariff};
use segment_core::Segment;
use settlement::SettledRow;
use tally_payout::{Statement, Tally};

/// One record that a step changes: it is put, in place of one with its key if there is one, or removed.
#[derive(Drop)]
pub enum RecChange {
    Settings(Settings),
    Marks(Marks),
    Node(Node),
    Customer(Customer),
    Segment(Segment),
    SettledRow(SettledRow),
    Tally(Tally),
    Statement(Statement),
    AuditPlan(AuditPlan),
    RecheckPlan(RecheckPlan),
    RepairPlan(RepairPlan),
    Containment(Containment),
    Kept(Kept),
    ExitPlan(ExitPlan),
    Left(Left),
    Tariff(Tariff),
    Remove(Key),
}
