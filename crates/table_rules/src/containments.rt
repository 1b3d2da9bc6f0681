// The containments.
ghost use Rattle.std.specs.Prelude.{◌≡◌, option_copied};
ghost use Rattle.machine_step.specs.Tables.{setup_of};
ghost use Rattle.machine_step.specs.Containment.{stands_in};
ghost use Rattle.machine_step.specs.PlanRules.{is_owed, breaks_containment};
ghost use Rattle.machine_step.specs.Rules.{first_bad};

use crate::pieces::has_piece;
use crate::plans::stripes_of;
use crate::scan::{Rule, first_bad};
use node_registry::NodeTable;
use rows::SlottedRows;
use sat_base::{At, Containment, Settings, limits};
use segment_core::Segment;

#[derive(Drop)]
struct ContainmentRule<'a> {
    settings: &'a Settings,
    nodes: &'a NodeTable,
    segments: &'a SlottedRows<Segment>,
}

impl<'a> ContainmentRule<'a> {
    // Whether the node serves, and its piece is one of a live segment.
    fn stands(&self, row: &Containment) -> bool
        ensures { result ≡ stands_in self.now.nodes.now.nodes self.now.segments.now.rows row.now }
    {
        let place = At {
            index: row.index,
            node: row.node,
        };
        match (
            self.nodes.get(row.node),
            self.segments.get(u128::from(row.segment.0)),
        ) {
            (Some(node), Some(segment)) => {
                node.serves() && segment.version != 0 && has_piece(segment.pieces.as_slice(), place)
            }
            _ => false,
        }
    }

    // Whether the node was silent again at most twice, and the stripe is one of the segment's.
    fn is_owed(&self, row: &Containment) -> bool
        ensures { result ≡ is_owed (setup_of self.now.settings.now) self.now.segments.now.rows row.now }
    {
        row.tries < limits::TRIES
            && match self.segments.get(u128::from(row.segment.0)) {
                Some(segment) => row.stripe < stripes_of(self.settings, segment),
                None => true,
            }
    }
}

impl<'a> Rule<Containment> for ContainmentRule<'a> {
    ghost breaks = { λ rule. breaks_containment (setup_of rule.settings.now) rule.nodes.now.nodes rule.segments.now.rows };

    fn is_broken_by(&self, _: usize, row: &Containment) -> bool {
        !(self.stands(row) && self.is_owed(row))
    }
}

/// The first containment that breaks a rule: its node serves, its piece is one of a live segment, its stripe is one of
/// the segment's, and the node was silent again at most twice.
pub fn bad_containment<'a>(
    settings: &Settings,
    nodes: &NodeTable,
    segments: &SlottedRows<Segment>,
    rows: &'a [Containment],
) -> Option<&'a Containment>
    ensures { option_copied result ≡ first_bad (breaks_containment (setup_of settings.now) nodes.now.nodes
        segments.now.rows) 0 rows.now }
{
    let rule = ContainmentRule {
        settings,
        nodes,
        segments,
    };
    first_bad(&rule, rows)
}
