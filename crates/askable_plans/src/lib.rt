//! Each plan that the machine answers can be asked of nodes: its pieces stand by rising index, below the scheme's `n`, and
//! the places that go with it are theirs, in order.
//!
//! The laws are [`a_planned_audit_can_be_asked`], [`a_planned_recheck_can_be_asked`], [`a_planned_repair_can_be_asked`]
//! and [`a_planned_move_can_be_asked`], over all tables that keep their rules. They meet what `node_asks` requires.
#![tactic(auto)]

mod laws;

pub use laws::{
    a_planned_audit_can_be_asked, a_planned_move_can_be_asked, a_planned_recheck_can_be_asked,
    a_planned_repair_can_be_asked,
};
