ghost use Rattle.std.specs.Prelude.{◌≡◌, false};
ghost use Rattle.audit_core.specs.Heard.{is_out_of_memory};
ghost use Rattle.audit_core.specs.Recheck.{checked};

use sat_base::{Fetched, Moment, NodeId, SegId, Serial};
use sha2::{Digest, Sha256};

/// A node that was silent in an audit, asked for the same share again.
#[derive(Clone, Copy, PartialEq, Eq)]
pub struct RecheckPlan {
    /// The plan's own number.
    pub plan: u64,
    /// The serial of the order limit that goes with its ask.
    pub serial: Serial,
    pub issued: Moment,
    pub node: NodeId,
    pub segment: SegId,
    pub index: u8,
    /// The stripe, counted from 0.
    pub stripe: u64,
    /// The SHA-256 (FIPS 180-4) of the share.
    pub expect: [u8; 32],
}

/// What came of asking again.
#[derive(Clone, Copy)]
pub enum Checked {
    /// The share has the expected digest.
    Pass,
    /// It has another, or the piece is missing.
    Fail,
    /// No answer came.
    Silent,
}

/// Whether the node passes, by what it answered.
pub fn recheck(plan: &RecheckPlan, got: &Fetched) -> Checked
    requires { is_out_of_memory got.now ≡ false }
    ensures { result ≡ checked plan.now.expect got.now }
{
    match got {
        Fetched::Share(bytes) => {
            let digest = Sha256::digest(bytes.as_slice());
            if digest == plan.expect {
                Checked::Pass
            } else {
                Checked::Fail
            }
        }
        Fetched::Missing => Checked::Fail,
        Fetched::NoAnswer | Fetched::NoMemory => Checked::Silent,
    }
}
