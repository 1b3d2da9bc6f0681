// Rows as records.
ghost use Rattle.std.specs.Prelude.{◌≡◌, ◌≢◌, ◌↔◌, ◌⊎◌, Ok, Err, IfOk};
ghost use Rattle.record_rows.specs.declared.kind.RowErr.{RowErr};
ghost use Rattle.record_kinds.specs.declared.rec.Rec.{Rec};
ghost use Rattle.record_rows.specs.Spelling.{row_of};
ghost use Rattle.record_rows.specs.Fits.{Fits};
ghost use Rattle.record_rows.specs.Reading.{IsKind, IsNoKind, HasId, HasNoId, HasNoBody};

use crate::kind::{RowErr, read_row};
use audit_core::{AuditPlan, RecheckPlan};
use node_registry::{Left, Node};
use record_kinds::Rec;
use repair_core::{ExitPlan, RepairPlan};
use sat_base::{Containment, Customer, Kept, Marks, Row, Settings, Tariff, kinds};
use segment_core::Segment;
use settlement::SettledRow;
use std::alloc::Global;
use tally_payout::{Statement, Tally};

/// The record whose row this is.
///
/// # Errors
/// The first cause of [`RowErr`] that holds, in its order. The id is looked at before the body.
pub fn read(alloc: Global, row: &Row) -> Result<Rec, RowErr>
    ensures found { IfOk result (λ rec. Fits rec × (row.now ≡ row_of rec)) }
    ensures only { (rec : Rec) → Fits rec → row.now ≡ row_of rec → result ≢ Err RowErr.NoMemory
        → result ≡ Ok rec }

    // The causes. Where memory runs out, any of them may be told so.
    ensures kind { (result ≡ Err RowErr.Kind) ↔ IsNoKind row.now.kind }
    ensures id { result ≡ Err RowErr.Id → IsKind row.now.kind × HasNoId row.now }
    ensures no_id { IsKind row.now.kind → HasNoId row.now
        → (result ≡ Err RowErr.Id) ⊎ (result ≡ Err RowErr.NoMemory) }
    ensures body { result ≡ Err RowErr.Body → HasId row.now × HasNoBody row.now }
    ensures no_body { HasId row.now → HasNoBody row.now
        → (result ≡ Err RowErr.Body) ⊎ (result ≡ Err RowErr.NoMemory) }
{
    match row.kind {
        kinds::SETTINGS => read_row::<Settings>(alloc, row),
        kinds::MARKS => read_row::<Marks>(alloc, row),
        kinds::NODE => read_row::<Node>(alloc, row),
        kinds::CUSTOMER => read_row::<Customer>(alloc, row),
        kinds::SEGMENT => read_row::<Segment>(alloc, row),
        kinds::SETTLED_ROW => read_row::<SettledRow>(alloc, row),
        kinds::TALLY => read_row::<Tally>(alloc, row),
        kinds::STATEMENT => read_row::<Statement>(alloc, row),
        kinds::AUDIT_PLAN => read_row::<AuditPlan>(alloc, row),
        kinds::RECHECK_PLAN => read_row::<RecheckPlan>(alloc, row),
        kinds::REPAIR_PLAN => read_row::<RepairPlan>(alloc, row),
        kinds::CONTAINMENT => read_row::<Containment>(alloc, row),
        kinds::KEPT => read_row::<Kept>(alloc, row),
        kinds::EXIT_PLAN => read_row::<ExitPlan>(alloc, row),
        kinds::LEFT => read_row::<Left>(alloc, row),
        kinds::TARIFF => read_row::<Tariff>(alloc, row),
        _ => Err(RowErr::Kind),
    }
}
