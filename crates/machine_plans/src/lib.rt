//! What a history of the machine says of its plans: which were opened, how they ended, and which outcomes nodes got.
//!
//! Laws, over all tables that keep their rules and all legal histories:
//!
//! - [`an_end_holds_the_open_plan`], for audits, rechecks, repairs and the moves of pieces of nodes that leave, and
//!   [`an_open_plan_was_opened`] by an answer of the history, or was open at its beginning.
//! - [`an_end_is_superseded_by_the_version`] exactly; [`only_a_mended_end_changes_pieces`].
//! - [`an_audit_ends_on_its_pieces`] and [`each_ended_audit_kept_its_pieces`]: those that were there when it was planned.
//!   [`an_ended_audit_asks_its_pieces`], also where an earlier term left it open.
//! - [`a_repair_ends_on_its_pieces`] and [`each_ended_repair_kept_its_pieces`], and what the next version holds.
//!   [`a_planned_repair_has_its_targets`].
//! - [`an_end_gives_its_outcomes`], exactly, to serving nodes; [`a_recheck_counts_as_planned`] or not at all.
//!
//! Not promised: that a plan ever ends.
#![tactic(auto)]

mod laws;

pub use laws::{
    a_planned_repair_has_its_targets, a_recheck_counts_as_planned, a_repair_ends_on_its_pieces,
    an_audit_ends_on_its_pieces, an_end_gives_its_outcomes, an_end_holds_the_open_plan,
    an_end_is_superseded_by_the_version, an_ended_audit_asks_its_pieces, an_open_plan_was_opened,
    each_ended_audit_kept_its_pieces, each_ended_repair_kept_its_pieces,
    only_a_mended_end_changes_pieces,
};
