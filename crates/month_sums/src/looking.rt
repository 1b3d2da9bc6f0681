// Looks at one statement.
ghost use Rattle.std.specs.Prelude.{◌≡◌, ℕ, ◌^◌, ◌<◌, ◌≤◌, ◌==◌, ◌||◌, ◌&&◌, not, List, ◌∷◌, drop, Some, option_copied, slice_get};
ghost use Rattle.sat_base.specs.declared.limits.TheConstants as limits;
ghost use Rattle.tally_payout.specs.Tariff.{IsSums, IsRates};
ghost use Rattle.tally_payout.specs.Statement.{statement_of};
ghost use Rattle.month_pay.specs.Months.{month_at};
ghost use Rattle.tally_payout.specs.Ranks.{month_place, statement_rank};
ghost use Rattle.node_registry.specs.Standing.{is_disqualified};
ghost use Rattle.month_pay.specs.Ledger.{Ledger};
ghost use Rattle.tally_payout.specs.declared.amounts.Statement.{Statement};
ghost use Rattle.month_pay.specs.Rule.{same_statement, follows};
ghost use Rattle.rows.specs.Rows.{Each};
ghost use Rattle.month_pay.specs.Walk.{is_good, walk};
ghost use Rattle.month_sums.specs.Opening.{pass_after, stated_as, GoByNode, IsNext};
ghost use Rattle.node_registry.specs.declared.node.Node.{Node};
ghost use Rattle.tally_payout.specs.declared.amounts.Sums.{Sums};

use crate::closing::{has_left, is_disqualified, month_at};
use crate::opening::{Found, Stated};
use crate::sums::place_of;
use node_registry::{Left, Node};
use rows::SlottedRows;
use sat_base::{Month, NodeId, Rates};
use tally_payout::{Statement, Sums, close_node};

// A statement as `close_node` gives it, also of a node that is both disqualified and gone in good order, which a
// damaged store may have.
#[tactic(auto, unfolding(tally_payout::specs::Statement::statement_of))]
fn state(
    node: NodeId,
    month: Month,
    age: u32,
    gone: bool,
    exited: bool,
    sums: &Sums,
    pot: u128,
    rates: &Rates,
) -> Statement
    requires age { 1 ≤ age }
    requires sums { IsSums sums.now }
    requires pot { pot < 2 ^ 100 }
    requires rates { IsRates rates.now }
    ensures { result ≡ statement_of node month age gone exited sums.now pot rates.now }
{
    if gone && exited {
        let stays = close_node(node, month, age, gone, false, sums, pot, rates);
        Statement {
            returned: pot + stays.held,
            pot: 0,
            ..stays
        }
    } else {
        close_node(node, month, age, gone, exited, sums, pot, rates)
    }
}

// Whether two statements are the same.
#[tactic(auto, unfolding(month_pay::specs::Rule::same_statement))]
fn is_same(a: &Statement, b: &Statement) -> bool
    ensures { result ≡ same_statement a.now b.now }
{
    a == b
}

// Whether all that a statement holds back may be held back: all of it is, of a disqualified node alone.
fn may_hold(s: &Statement, node: &Node) -> bool
    ensures { result ≡ (not (s.now.percent == 100) || is_disqualified node.now.status) }
{
    s.percent != 100 || is_disqualified(node)
}

// The statement of a node's month that holds back all or not, as another does.
fn state_as(
    s: &Statement,
    month: Month,
    node: &Node,
    sums: &Sums,
    pot: u128,
    left: &SlottedRows<Left>,
    rates: &Rates,
) -> Statement
    requires early { month.0 ≤ limits.LAST_MONTH }
    requires joined { month_at node.now.joined ≤ month.0 }
    requires sums { IsSums sums.now }
    requires pot { pot < 2 ^ 100 }
    requires rates { IsRates rates.now }
    ensures { result ≡ stated_as s.now month.0 node.now sums.now pot left.now.rows rates.now }
{
    let gone = s.percent == 100;
    let age = month.0 + 1 - month_at(node.joined).0;
    let exited = has_left(left, node.id, month);
    state(node.id, month, age, gone, exited, sums, pot, rates)
}

// The statement at a place.
pub(crate) fn at(rows: &[Statement], i: usize) -> Option<&Statement>
    ensures { option_copied result ≡ slice_get rows.now i }
{
    rows.get(i)
}

fn both(a: bool, b: bool) -> bool
    ensures { result ≡ (a && b) }
{
    a && b
}

// Whether a statement of this node and month follows from the rows.
fn follows(
    s: &Statement,
    month: Month,
    node: &Node,
    sums: &Sums,
    pot: u128,
    left: &SlottedRows<Left>,
    rates: &Rates,
) -> bool
    requires early { month.0 ≤ limits.LAST_MONTH }
    requires joined { month_at node.now.joined ≤ month.0 }
    requires sums { IsSums sums.now }
    requires pot { pot < 2 ^ 100 }
    requires rates { IsRates rates.now }
    ensures { (l : Ledger) → GoByNode l month.0 node.now sums.now pot left.now.rows rates.now → s.now.month.0 ≡ month.0
        → result ≡ follows l s.now (Some node.now) }
{
    let may = may_hold(s, node);
    let same = is_same(s, &state_as(s, month, node, sums, pot, left, rates));
    both(may, same)
}

/// Looks at the statement at place i, where that of this node and month is due.
pub(crate) fn test_one(
    i: usize,
    month: Month,
    node: &Node,
    stated: &Stated,
    sums: &Sums,
    pot: u128,
    rates: &Rates,
) -> Found
    requires early { month.0 ≤ limits.LAST_MONTH }
    requires joined { month_at node.now.joined ≤ month.0 }
    requires sums { IsSums sums.now }
    requires pot { pot < 2 ^ 100 }
    requires rates { IsRates rates.now }
    ensures pass { (l : Ledger) (keys : List ℕ)
        → ((s : Statement) → slice_get stated.now.rows.now i ≡ Some s → statement_rank s ≡ month_place month.0 node.now.id.0
        → GoByNode l month.0 node.now sums.now pot stated.now.left.now.rows rates.now)
        → node.now.id.0 < 2 ^ 32 → Each (λ s. s.node.0 < 2 ^ 32) stated.now.rows.now
        → walk (is_good stated.now.cap l) i (month_place month.0 node.now.id.0 ∷ keys) (drop i stated.now.rows.now) ≡ pass_after (is_good stated.now.cap l) keys stated.now.rows.now result }
    ensures next { (l : Ledger) (n : ℕ)
        → ((s : Statement) → slice_get stated.now.rows.now i ≡ Some s → statement_rank s ≡ month_place month.0 node.now.id.0
        → GoByNode l month.0 node.now sums.now pot stated.now.left.now.rows rates.now)
        → node.now.id.0 < 2 ^ 32 → Each (λ s. s.node.0 < 2 ^ 32) stated.now.rows.now
        → result ≡ Found.Next n → IsNext l stated.now.rows.now (month_place month.0 node.now.id.0) i n }
{
    let due = place_of(month, node.id);
    let s = match at(stated.rows, i) {
        Some(s) => s,
        None => return Found::Broken(due),
    };
    let place = place_of(s.month, s.node);
    if place == due {
        let good = both(
            i < stated.cap,
            follows(s, month, node, sums, pot, stated.left, rates),
        );
        if good {
            Found::Next(i + 1)
        } else {
            Found::Broken(due)
        }
    } else if place < due {
        Found::Broken(place)
    } else {
        Found::Broken(due)
    }
}
