use audit_core::{AuditPlan, RecheckPlan};
use node_registry::{Left, Node};
use repair_core::{ExitPlan, RepairPlan};
use sat_base::{Containment, Customer, Kept, Marks, Settings, Tariff};
use segment_core::Segment;
use settlement::SettledRow;
use tally_payout::{Statement, Tally};

/// A record of a store: one variant a kind, in the order of the kinds (`sat_base::kinds`).
#[derive(Drop)]
pub enum Rec {
    Settings(Settings),
    Marks(Marks),
    Node(Node),
    Customer(Customer),
    Segment(Segment),
    SettledRow(SettledRow),
    Tally(Tally),
    Statement(Statement),
    AuditPlan(AuditPlan),
    RecheckPlan(RecheckPlan),
    RepairPlan(RepairPlan),
    Containment(Containment),
    Kept(Kept),
    ExitPlan(ExitPlan),
    Left(Left),
    Tariff(Tariff),
}
