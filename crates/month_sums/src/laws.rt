// The laws, each the contract of a function that does nothing.
ghost use Rattle.std.specs.Prelude.{◌≡◌, ℕ, ◌≤◌, List};
ghost use Rattle.rows.specs.Rows.{IsRising};
ghost use Rattle.tally_payout.specs.Tariff.{tariff_in, rates_of};
ghost use Rattle.tally_payout.specs.Ranks.{statement_rank};
ghost use Rattle.month_pay.specs.Ledger.{Ledger};
ghost use Rattle.month_pay.specs.Keeping.{AreNodes, AreFit, RuleHolds};
ghost use Rattle.month_sums.specs.declared.sums.OpenSums.{OpenSums};
ghost use Rattle.month_sums.specs.Open.{GoByRows};
ghost use Rattle.month_sums.specs.Closing.{CanClose, GoByLedger, GoByPots, AreApart};

/// Where the rules hold, what is kept beside the rows is all that the next month's close asks.
pub fn what_is_kept_closes_a_month()
    ensures can { (cap : ℕ) (l : Ledger) (pots : List ℕ) (sums : List OpenSums) → AreNodes l.nodes → AreFit l
        → RuleHolds cap l → IsRising statement_rank l.statements → l.first ≤ l.next
        → GoByRows sums l.settled l.tallies l.statements → GoByPots l pots → AreApart l
        → CanClose l.next l.nodes pots sums l.left (rates_of (tariff_in l.next l.tariffs)) }
    ensures goes { (cap : ℕ) (l : Ledger) (pots : List ℕ) (sums : List OpenSums) → AreNodes l.nodes
        → RuleHolds cap l → l.first ≤ l.next
        → GoByRows sums l.settled l.tallies l.statements → GoByPots l pots
        → GoByLedger l pots sums l.left (rates_of (tariff_in l.next l.tariffs)) }
{}
