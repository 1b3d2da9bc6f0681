//! What a repair makes of the pieces of a segment that answered: whole, and window by window.
//!
//! - [`rebuild`] gives whole stripes, each near what the pieces answer for it; it blames just the pieces that are
//!   altered in at least one stripe, and makes the coding's pieces of these bytes at the targets. `Few` comes exactly
//!   where fewer than k pieces came, and `Unclear` names the first stripe that none is near. Where every stripe has a
//!   near one, only memory can run out.
//! - [`Rebuilder`] does so in windows of some stripes, so that pieces needn't be in memory whole. A window takes no
//!   memory.
//! - [`windows_agree`]: windows cut from whole pieces of right length end with the blamed and the fresh of the whole.
//!
//! [`Mended`] and [`Unmended`] keep by their types what a repair may say of its plan.
//!
//! Not promised: that the pieces are those that the customer stored, where more than (r - k) / 2 of a stripe's
//! answers were altered. Nothing books a repair yet.
#![tactic(auto)]

mod laws;
mod making;
mod outcome;
mod plan;
mod rebuilder;
mod rebuilding;
mod rebuilt;
mod room;
mod stripes;

pub use laws::windows_agree;
pub use outcome::{Mended, RepairOutcome, Unmended};
pub use plan::{ExitPlan, RepairPlan};
pub use rebuilder::Rebuilder;
pub use rebuilding::rebuild;
pub use rebuilt::{RebuildErr, Rebuilt, Remade, WindowErr};
