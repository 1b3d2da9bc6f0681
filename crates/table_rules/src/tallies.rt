// The tallies.
ghost use Rattle.std.specs.Prelude.{◌≡◌, option_copied};
ghost use Rattle.machine_step.specs.Tables.{setup_of};
ghost use Rattle.machine_step.specs.Rules.{first_bad, breaks_tally};

use crate::known::is_known;
use crate::scan::{Rule, first_bad};
use node_registry::NodeTable;
use sat_base::{Marks, Settings};
use tally_payout::Tally;

// The most bytes of a tally: those of the pieces of all segments that a store can have.
const MOST: u64 = 1 << 44;

#[derive(Drop)]
struct TallyRule<'a> {
    settings: &'a Settings,
    marks: &'a Marks,
    nodes: &'a NodeTable,
}

impl<'a> Rule<Tally> for TallyRule<'a> {
    ghost breaks = { λ rule. breaks_tally (setup_of rule.settings.now) rule.marks.now rule.nodes.now.nodes };

    fn is_broken_by(&self, place: usize, row: &Tally) -> bool {
        place >= self.settings.caps.tallies as usize
            || !is_known(self.nodes, row.node)
            || self.marks.hour.0 <= row.hour.0
            || row.bytes < 1
            || MOST < row.bytes
    }
}

/// The first tally that breaks a rule: they number at most the cap, and each is a known node's, of an hour that was
/// tallied, and has 1 to 2^44 bytes.
pub fn bad_tally<'a>(
    settings: &Settings,
    marks: &Marks,
    nodes: &NodeTable,
    rows: &'a [Tally],
) -> Option<&'a Tally>
    ensures { option_copied result ≡ first_bad (breaks_tally (setup_of settings.now) marks.now nodes.now.nodes) 0
        rows.now }
{
    let rule = TallyRule {
        settings,
        marks,
        nodes,
    };
    first_bad(&rule, rows)
}
