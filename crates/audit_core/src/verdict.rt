ghost use Rattle.std.specs.Prelude.{◌<◌, All};
ghost use Rattle.bw_decode.specs.Altered.{indexes_of};
ghost use Rattle.bw_decode.specs.Near.{Rises};
ghost use Rattle.audit_core.specs.Heard.{place_indexes};
ghost use Rattle.audit_core.specs.Verdict.{IsVerdict, NamesEach, silent_indexes};

use crate::plan::AuditPlan;
use sat_base::{Indexes, Items, Scheme, Share};

/// A node that gave no answer, by the index of its piece, and the share that it owes.
#[derive(Clone, Copy)]
pub struct Silent {
    pub index: u8,
    /// The SHA-256 (FIPS 180-4) of the share, or 32 zeros where the verdict is unclear.
    pub expect: [u8; 32],
}

/// Which answers to an audit were altered.
#[derive(Drop)]
pub enum Verdict {
    /// At least k + 2 answered, and all but (r - k) / 2 of the r answers are shares of one stripe. The others,
    /// by rising index, are altered.
    Clear { blamed: Indexes },
    /// Too few answered, or no such stripe is there.
    Unclear,
}

/// What came of an audit. Its type keeps the verdict to the answers that it holds, so that whoever holds one
/// knows that nobody is blamed wrongly.
#[derive(Drop)]
pub struct Judged {
    pub scheme: Scheme,
    pub plan: AuditPlan,
    /// The shares that came.
    pub answers: Items<Share>,
    /// The indexes of the pieces that their nodes don't hold.
    pub missing: Indexes,
    /// The nodes that gave no answer.
    pub silent: Items<Silent>,
    pub verdict: Verdict,
    pub ghost answers_rise: { Rises (indexes_of answers) },
    pub ghost missing_rise: { Rises missing },
    pub ghost silent_rise: { Rises (silent_indexes silent) },
    pub ghost each_once: { NamesEach (place_indexes plan.asked) (indexes_of answers) missing (silent_indexes silent) },
    pub ghost below: { All (λ index. index < scheme.n) (place_indexes plan.asked) },
    pub ghost exact: { ∥ IsVerdict scheme.k scheme.share answers silent verdict ∥₁ },
}
