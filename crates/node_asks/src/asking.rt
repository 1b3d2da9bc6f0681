// Under what nodes are asked.
use order_limits::Keys;
use repair_core::RepairPlan;
use sat_base::Scheme;

/// The keys, the scheme and the plan of a repair.
#[derive(Drop)]
pub struct Asking<'a> {
    pub keys: &'a Keys,
    pub scheme: &'a Scheme,
    pub plan: &'a RepairPlan,
}
