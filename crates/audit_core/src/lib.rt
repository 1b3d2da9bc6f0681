//! What an audit finds: which of the answers for one stripe were altered, and what comes of asking a silent node
//! again.
//!
//! - [`judge`] sorts what was heard into answers, missing pieces and silent nodes. The verdict is clear where at
//!   least k + 2 answered and a stripe is near the answers. Then it blames just the answers that this stripe shows to
//!   be altered, and each silent node owes a share whose digest is told. Otherwise it is unclear.
//! - [`weigh`] is the verdict alone, [`recheck`] its three cases: the digest, a missing piece or another digest, no
//!   answer.
//!
//! A [`Judged`] keeps by its type that its lists name each asked index once and that its verdict is that of its
//! answers. So whoever holds one knows that nobody is blamed wrongly, whoever made it.
//!
//! So where at least k + 2 nodes answered and at most (r - k) / 2 of r answers were altered, the verdict is clear and
//! blames exactly those, unless memory runs out: there is one near stripe at most.
//!
//! Not promised: a clear verdict where more were altered. Nothing books a verdict yet.
#![tactic(auto)]

mod judging;
mod plan;
mod rechecking;
mod verdict;

pub use judging::{judge, weigh};
pub use plan::{AuditPlan, Heard};
pub use rechecking::{Checked, RecheckPlan, recheck};
pub use verdict::{Judged, Silent, Verdict};
