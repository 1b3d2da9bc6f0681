// Records by kind.
ghost use Rattle.std.specs.Prelude.{◌≡◌, ◌++◌, ◌∷◌, [], OnOk};
ghost use Rattle.record_kinds.specs.Kinds.{kind_of};
ghost use Rattle.sat_book.specs.ByKind.{HasNoneBehind, listed};

use machine_calls::Parts0;
use record_rows::Rec;
use sat_base::NoMemory;

// Adds a record behind those of its kind. There is none of a later kind.
pub(crate) fn add(parts: &mut Parts0, rec: Rec) -> Result<(), NoMemory>
    requires { HasNoneBehind (kind_of rec) parts.old }
    ensures listed { OnOk result (listed parts.new ≡ listed parts.old ++ rec ∷ []) }
    ensures last { OnOk result (HasNoneBehind (kind_of rec) parts.new) }
{
    match rec {
        Rec::Settings(one) => Ok(parts.settings.push(one)?),
        Rec::Marks(one) => Ok(parts.marks.push(one)?),
        Rec::Node(one) => Ok(parts.nodes.push(one)?),
        Rec::Customer(one) => Ok(parts.customers.push(one)?),
        Rec::Segment(one) => Ok(parts.segments.push(one)?),
        Rec::SettledRow(one) => Ok(parts.settled.push(one)?),
        Rec::Tally(one) => Ok(parts.tallies.push(one)?),
        Rec::Statement(one) => Ok(parts.statements.push(one)?),
        Rec::AuditPlan(one) => Ok(parts.audit_plans.push(one)?),
        Rec::RecheckPlan(one) => Ok(parts.recheck_plans.push(one)?),
        Rec::RepairPlan(one) => Ok(parts.repair_plans.push(one)?),
        Rec::Containment(one) => Ok(parts.containments.push(one)?),
        Rec::Kept(one) => Ok(parts.kept.push(one)?),
        Rec::ExitPlan(one) => Ok(parts.exit_plans.push(one)?),
        Rec::Left(one) => Ok(parts.left.push(one)?),
        Rec::Tariff(one) => Ok(parts.tariffs.push(one)?),
    }
}
