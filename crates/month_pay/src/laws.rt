// The laws of months and statements, each the contract of a function that does nothing.
ghost use Rattle.std.specs.Prelude.{◌≡◌, ℕ, true, ◌+◌, ◌-◌, ◌^◌, ◌<◌, ◌≤◌, ◌/◌, ◌++◌, nat_le, List, [], length, Some, None};
ghost use Rattle.rows.specs.Rows.{row_at, IsRising, Each};
ghost use Rattle.sat_base.specs.Month.{first_day, IsMonthOf};
ghost use Rattle.month_pay.specs.Months.{month_at, month_of_hour};
ghost use Rattle.tally_payout.specs.Ranks.{statement_rank};
ghost use Rattle.node_registry.specs.Left.{left_rank};
ghost use Rattle.month_pay.specs.Ledger.{Ledger, sums_of, pot_before, month_rows, closed};
ghost use Rattle.node_registry.specs.declared.node.Left.{Left};
ghost use Rattle.sat_base.specs.Ranks.{tariff_rank};
ghost use Rattle.rows.specs.Slots.{with_row};
ghost use Rattle.sat_base.specs.declared.ids.NodeId.{NodeId};
ghost use Rattle.sat_base.specs.declared.rates.Tariff.{Tariff};
ghost use Rattle.node_registry.specs.declared.node.Node.{Node};
ghost use Rattle.node_registry.specs.Registry.{node_rank, node_at};
ghost use Rattle.settlement.specs.declared.row.SettledRow.{SettledRow};
ghost use Rattle.settlement.specs.Rows.{key};
ghost use Rattle.tally_payout.specs.declared.amounts.Tally.{Tally};
ghost use Rattle.tally_payout.specs.Statement.{last_pot};
ghost use Rattle.tally_payout.specs.Tariff.{IsSums};
ghost use Rattle.std.specs.List.{sum_by};
ghost use Rattle.sat_base.specs.Moments.{IsMoment};
ghost use Rattle.sat_base.specs.declared.limits.TheConstants as limits;
ghost use Rattle.month_pay.specs.Rule.{is_sound_statement, broken_places};
ghost use Rattle.tally_payout.specs.declared.amounts.Statement.{Statement};
ghost use Rattle.rows.specs.Least.{least};
ghost use Rattle.month_pay.specs.Walk.{due_from, is_good, walk};
ghost use Rattle.month_pay.specs.Keeping.{RuleHolds, SamePay, StaysAs, IsSameNode, AreNodes, IsWhole, of_node, AreFit};

/// Each moment has its month, and no later one an earlier month; an hour begins in the month of each of its moments.
pub fn months_of_moments()
    ensures is { (at month : ℕ) → IsMonthOf at month → month ≡ month_at at }
    ensures order { (at later : ℕ) → at ≤ later → month_at at ≤ month_at later }
    ensures begun { (month at : ℕ) → nat_le (first_day month) (at / 86400) ≡ nat_le month (month_at at) }
    ensures hour { (at : ℕ) → month_of_hour (at / 3600) ≡ month_at at }
    ensures last { (at : ℕ) → IsMoment at → month_at at ≤ limits.LAST_MONTH }
{}

/// The rule has no broken place exactly where each closed month of each node has its one statement, as it follows
/// from the rows.
pub fn no_place_is_broken_where_the_rule_holds()
    ensures holds { (cap : ℕ) (l : Ledger) → broken_places cap l ≡ [] → RuleHolds cap l }
    ensures back { (cap : ℕ) (l : Ledger) → RuleHolds cap l → broken_places cap l ≡ [] }
{}

/// The rule is kept as long as what the closed months were paid by stays the same.
pub fn the_rule_is_kept_between_closes()
    ensures { (cap : ℕ) (old new : Ledger) → SamePay old new → RuleHolds cap old → RuleHolds cap new }
{}

/// The rule is kept where a month is closed, and the statements stay in their order.
pub fn the_rule_is_kept_by_a_close()
    ensures rule { (cap : ℕ) (l : Ledger) → AreNodes l.nodes → l.first ≤ l.next → RuleHolds cap l
        → length (l.statements ++ month_rows l l.next) ≤ cap → RuleHolds cap (closed l) }
    ensures order { (cap : ℕ) (l : Ledger) → AreNodes l.nodes → l.first ≤ l.next → RuleHolds cap l
        → IsRising statement_rank l.statements → IsRising statement_rank (closed l).statements }
{}

/// What the closed months were paid by stays the same where an order of an open month settles, an open month's hour
/// is tallied, an open month's rates are set, a node leaves or joins in an open month, or a node's state changes.
pub fn open_months_leave_the_closed_ones()
    ensures settled { (l : Ledger) (row : SettledRow) → row_at key l.settled (key row) ≡ None → l.next ≤ month_at row.at
        → SamePay l (record l { settled = with_row key l.settled row }) }
    ensures tallied { (l : Ledger) (new : List Tally) (hour : ℕ) → Each (λ tally. tally.hour.0 ≡ hour) new
        → l.next ≤ month_of_hour hour → SamePay l (record l { tallies = l.tallies ++ new }) }
    ensures rates { (l : Ledger) (row : Tariff) → l.next ≤ row.from.0
        → SamePay l (record l { tariffs = with_row tariff_rank l.tariffs row }) }
    ensures left { (l : Ledger) (row : Left) → row_at left_rank l.left (left_rank row) ≡ None → l.next ≤ month_at row.at
        → SamePay l (record l { left = with_row left_rank l.left row }) }
    ensures joined { (l : Ledger) (node : Node) → node_at l.nodes node.id ≡ None → l.next ≤ month_at node.joined
        → SamePay l (record l { nodes = with_row node_rank l.nodes node }) }
    ensures node { (l : Ledger) (new old : Node) → node_at l.nodes new.id ≡ Some old → IsSameNode old new
        → SamePay l (record l { nodes = with_row node_rank l.nodes new }) }
{}

/// What is paid of each statement and what is held back of it make its gross, which is what the month's rows earn at
/// the month's rates. All that was paid and returned to a node, with the pot that its statements left, is what it
/// earned.
pub fn pay_is_conserved()
    ensures whole { (cap : ℕ) (l : Ledger) → RuleHolds cap l → Each (IsWhole l) l.statements }
    ensures node { (cap : ℕ) (l : Ledger) (node : NodeId) → RuleHolds cap l → IsRising statement_rank l.statements
        → sum_by (λ s. s.paid) (of_node node l.statements) + sum_by (λ s. s.returned) (of_node node l.statements)
        + last_pot 0 (of_node node l.statements)
        ≡ sum_by (λ s. s.parts.gross) (of_node node l.statements) }
{}

/// The sums of a month and the pots stay below the bounds that a statement asks.
pub fn amounts_are_bounded()
    ensures sums { (l : Ledger) (node : NodeId) (month : ℕ) → AreFit l → IsSums (sums_of l.settled l.tallies node month) }
    ensures pots { (cap : ℕ) (l : Ledger) (node : NodeId) → AreFit l → RuleHolds cap l → IsRising statement_rank l.statements
        → l.first ≤ l.next → pot_before l.statements node l.next < 2 ^ 98 }
    ensures fronts { (l : Ledger) (front rest : List Statement) → AreFit l → front ++ rest ≡ l.statements
        → IsRising statement_rank l.statements → Each (λ s. is_sound_statement l s ≡ true) front
        → Each (λ s. s.pot < 2 ^ 98) front }
{}

/// One pass over the statements that are due, beside those that are there, finds the least place that breaks the rule.
pub fn one_pass_finds_the_first_broken_place()
    ensures { (cap : ℕ) (l : Ledger) → AreNodes l.nodes → IsRising statement_rank l.statements
        → walk (is_good cap l) 0 (due_from l.nodes (l.next - l.first) l.first) l.statements ≡ least (broken_places cap l) }
{}
