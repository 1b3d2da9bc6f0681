//! What rounds say of any one segment that the reader names by its bytes. Nobody else can say what the right bytes were.
//!
//! - [`an_audit_blames_the_altered`]: wherever r shares answer, at least k + 2, and at most (r - k) / 2 aren't the
//!   segment's, an audit that isn't superseded is clear and blames exactly those.
//! - [`a_repair_keeps_the_bytes`]: wherever on every stripe r shares answer, at least k, and at most (r - k) / 2 aren't the
//!   segment's, the version that a repair or a move makes has at least k pieces that were placed or answered, and each of
//!   these is the segment's.
//!
//! Not promised: anything where more were altered. They can be near another segment's stripe, and then honest nodes are
//! blamed.
#![tactic(auto)]

mod laws;

pub use laws::{a_repair_keeps_the_bytes, an_audit_blames_the_altered};
