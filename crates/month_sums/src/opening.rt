// The pass over all statements.
ghost use Rattle.std.specs.Prelude.{◌≡◌, ℕ, Bool, min, length, replicate, All, [], ◌^◌, ◌<◌, ◌≤◌, List, ◌++◌, drop, Some, option_copied, slice_get};
ghost use Rattle.sat_base.specs.declared.limits.TheConstants as limits;
ghost use Rattle.tally_payout.specs.Tariff.{IsSums, IsRates};
ghost use Rattle.tally_payout.specs.Ranks.{month_place};
ghost use Rattle.month_pay.specs.Ledger.{Ledger, has_joined};
ghost use Rattle.tally_payout.specs.declared.amounts.Statement.{Statement};
ghost use Rattle.month_pay.specs.Rule.{follows, broken_places};
ghost use Rattle.rows.specs.Rows.{Each};
ghost use Rattle.rows.specs.Least.{least};
ghost use Rattle.month_pay.specs.Walk.{due_in, is_good, walk};
ghost use Rattle.month_sums.specs.Opening.{pass_after, LooksOn, due_of, GoByMonth, Front, noted, pots_after, AreSmall, GoByAll};
ghost use Rattle.node_registry.specs.declared.node.Node.{Node};
ghost use Rattle.tally_payout.specs.declared.amounts.Sums.{Sums};

use crate::closing::has_joined;
use crate::looking::{at, test_one};
use crate::sums::place_of;
use node_registry::{Left, Node};
use rows::SlottedRows;
use sat_base::{Month, Rates, Tariff};
use tally_payout::{Statement, Sums, rates_in};

/// The statements, of which there may be at most `cap`, and what they go by: the sums of each one's month and node, and
/// the nodes that left.
#[derive(Drop)]
pub struct Stated<'a> {
    pub cap: usize,
    pub rows: &'a [Statement],
    pub sums: &'a [Sums],
    pub left: &'a SlottedRows<Left>,
}

/// What comes of looking at one statement that is due.
#[derive(Clone, Copy)]
pub enum Found {
    /// The least place that breaks the rule.
    Broken(u64),
    /// The statement is as it is due; this is the next one.
    Next(usize),
}

// The sums of a place among many.
fn sums_in(sums: &[Sums], i: usize) -> Option<&Sums>
    ensures { option_copied result ≡ slice_get sums.now i }
{
    sums.get(i)
}

// The sums of the statement at a place.
fn own_sums(sums: &[Sums], i: usize) -> Sums
    requires { Each IsSums sums.now }
    ensures fit { IsSums result }
    ensures own { (x : Sums) → slice_get sums.now i ≡ Some x → result ≡ x }
{
    match sums_in(sums, i) {
        Some(own) => *own,
        None => Sums {
            get: 0,
            audit: 0,
            repair: 0,
            byte_hours: 0,
        },
    }
}

// Looks at the statement at place i, where a node's is due, if the node has joined.
fn look(i: usize, month: Month, node: &Node, stated: &Stated, pot: u128, rates: &Rates) -> Found
    requires early { month.0 ≤ limits.LAST_MONTH }
    requires sums { Each IsSums stated.now.sums.now }
    requires pot { pot < 2 ^ 100 }
    requires rates { IsRates rates.now }
    ensures pass { (l : Ledger) (keys : List ℕ) (nodes : List Node) (j : ℕ) (pots : List ℕ)
        → GoByMonth l month.0 nodes stated.now.rows.now stated.now.sums.now stated.now.left.now.rows rates.now → Front l nodes stated.now.rows.now i pots
        → slice_get nodes j ≡ Some node.now → slice_get pots j ≡ Some pot
        → walk (is_good stated.now.cap l) i (due_of month.0 node.now ++ keys) (drop i stated.now.rows.now) ≡ pass_after (is_good stated.now.cap l) keys stated.now.rows.now result }
    ensures next { (l : Ledger) (n : ℕ) (nodes : List Node) (j : ℕ) (pots : List ℕ)
        → GoByMonth l month.0 nodes stated.now.rows.now stated.now.sums.now stated.now.left.now.rows rates.now → Front l nodes stated.now.rows.now i pots
        → slice_get nodes j ≡ Some node.now → slice_get pots j ≡ Some pot
        → result ≡ Found.Next n → LooksOn (has_joined month.0 node.now) l stated.now.rows.now (month_place month.0 node.now.id.0) i n }
{
    if has_joined(node, month) {
        let own = own_sums(stated.sums, i);
        test_one(i, month, node, stated, &own, pot, rates)
    } else {
        Found::Next(i)
    }
}

// A pot that is no more than any that follows from the rows.
fn small(pot: u128) -> u128
    ensures { result ≡ min pot (2 ^ 99) }
{
    pot.min(1 << 99)
}

// Notes the pot that a statement left.
fn note(pots: &mut [u128], j: usize, s: Option<&Statement>)
    requires { j < length pots.old }
    ensures { pots.new ≡ noted pots.old j (option_copied s.entry) }
{
    if let Some(s) = s {
        pots[j] = small(s.pot);
    }
}

// Notes the pot of the node at j, where its statement was looked at.
fn advance(pots: &mut [u128], j: usize, rows: &[Statement], i: usize, n: usize)
    requires { j < length pots.old }
    ensures { pots.new ≡ pots_after pots.old j rows.now i n }
{
    if i < n {
        note(pots, j, at(rows, i));
    }
}

/// Looks at the statements of a month, from place i on. The pots are those that the statements before left, and then
/// those that the month's left.
pub fn test_month(
    start: usize,
    month: Month,
    nodes: &[Node],
    stated: &Stated,
    pots: &mut [u128],
    rates: &Rates,
) -> Found
    requires early { month.0 ≤ limits.LAST_MONTH }
    requires sums { Each IsSums stated.now.sums.now }
    requires rates { IsRates rates.now }
    requires long { length pots.old ≡ length nodes.now }
    requires small { AreSmall pots.old }
    ensures long { length pots.new ≡ length pots.old }
    ensures small { AreSmall pots.new }
    ensures pass { (l : Ledger) (keys : List ℕ)
        → GoByMonth l month.0 nodes.now stated.now.rows.now stated.now.sums.now stated.now.left.now.rows rates.now → Front l nodes.now stated.now.rows.now start pots.old
        → walk (is_good stated.now.cap l) start (due_in month.0 nodes.now ++ keys) (drop start stated.now.rows.now) ≡ pass_after (is_good stated.now.cap l) keys stated.now.rows.now result }
    ensures front { (l : Ledger) (n : ℕ)
        → GoByMonth l month.0 nodes.now stated.now.rows.now stated.now.sums.now stated.now.left.now.rows rates.now → Front l nodes.now stated.now.rows.now start pots.old
        → result ≡ Found.Next n → Front l nodes.now stated.now.rows.now n pots.new }
{
    let mut i = start;
    for j in 0..nodes.len() {
        let found = look(i, month, &nodes[j], stated, pots[j], rates);
        match found {
            Found::Broken(_) => return found,
            Found::Next(n) => {
                advance(pots, j, stated.rows, i, n);
                i = n;
            }
        }
    }
    Found::Next(i)
}

/// The least place that breaks the rule of statements, of one that is there or of one that is missing: one pass over
/// all of them. The pots, one for each node, are 0.
pub fn first_broken(
    first: Month,
    next: Month,
    nodes: &[Node],
    stated: &Stated,
    pots: &mut [u128],
    tariffs: &[Tariff],
) -> Option<u64>
    requires begun { first.0 ≤ next.0 }
    requires early { next.0 ≤ limits.LAST_MONTH }
    requires sums { Each IsSums stated.now.sums.now }
    requires rates { All (λ t. IsRates t.rates) tariffs.now }
    requires pots { pots.old ≡ replicate (length nodes.now) 0 }
    ensures { (l : Ledger) → GoByAll l first.0 next.0 nodes.now stated.now.rows.now stated.now.sums.now stated.now.left.now.rows tariffs.now
        → result ≡ least (broken_places stated.now.cap l) }
{
    let mut i = 0;
    for m in first.0..next.0 {
        let month = Month(m);
        let rates = rates_in(tariffs, month);
        let found = test_month(i, month, nodes, stated, pots, &rates);
        match found {
            Found::Broken(place) => return Some(place),
            Found::Next(n) => i = n,
        }
    }
    place_at(stated.rows, i)
}

// The place of the statement at i, if there is one.
fn place_at(rows: &[Statement], i: usize) -> Option<u64>
    ensures { (good : ℕ → Statement → Bool) → result ≡ walk good i [] (drop i rows.now) }
{
    match at(rows, i) {
        Some(s) => Some(place_of(s.month, s.node)),
        None => None,
    }
}
