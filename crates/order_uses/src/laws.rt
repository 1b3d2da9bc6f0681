// What holds over every list of calls, as the contracts of functions that do nothing.
ghost use Rattle.std.specs.Prelude.{◌≡◌, ℕ, ◌+◌, false, List, Some};
ghost use Rattle.rows.specs.Rows.{IsRising};
ghost use Rattle.sat_base.specs.declared.ids.NodeId.{NodeId};
ghost use Rattle.sat_base.specs.declared.ids.Serial.{Serial};
ghost use Rattle.order_uses.specs.Calls.{Call, IsSettled, accepted, after_all, served_of};
ghost use Rattle.order_uses.specs.Due.{due_of};
ghost use Rattle.order_uses.specs.Uses.{AreUses, use_at, use_rank};
ghost use Rattle.order_uses.specs.declared.row.OrderUse.{OrderUse};

/// Over every list of takes and finishes, what was served under a serial is what the first row of it says, and the
/// lengths of its takes that were accepted.
pub fn served_adds_up()
    ensures { (node : NodeId) (key : List ℕ) (cap : ℕ) (rows : List OrderUse) (serial : Serial) (calls : List Call)
        → served_of (after_all node key cap rows calls) serial ≡ served_of rows serial + accepted node key cap rows serial calls }
{}

/// Over every list of takes and finishes, no more is served under a serial than the kept order's amount, which is within
/// its limit, whose tag is under the key; what is done stays done; and what is due isn't done.
pub fn uses_stay_within()
    ensures within { (node : NodeId) (key : List ℕ) (cap : ℕ) (rows : List OrderUse) (calls : List Call)
        → AreUses key rows → AreUses key (after_all node key cap rows calls) }
    ensures settled { (node : NodeId) (key : List ℕ) (cap : ℕ) (rows : List OrderUse) (serial : Serial) (calls : List Call)
        → IsSettled rows serial → IsSettled (after_all node key cap rows calls) serial }
    ensures offered { (key : List ℕ) (rows : List OrderUse) (now : ℕ) (order : List ℕ) → IsRising use_rank rows
        → due_of key rows now ≡ Some order
        → (row : OrderUse) × (use_at rows row.serial ≡ Some row) × (row.order ≡ order) × (row.done ≡ false) }
{}
