// The commands that answer their input.
ghost use Rattle.std.specs.Prelude.{◌≡◌, ◌≤◌};
ghost use Rattle.sat_console.specs.Answers.{IsSettleText};
ghost use Rattle.sat_console.specs.Judge.{Judges, RefusesLine};
ghost use Rattle.sat_console.specs.Run.{NoRefusal, Ran, code_of};

use crate::judging::{Judge, judged_scheme};
use crate::run::answer_input;
use crate::settling::Settle;
use crate::status::Status;
use order_limits::Keys;
use sat_base::Link;
use std::alloc::Global;

/// Settles the orders of the console's input, at most `cap` of them, under a secret.
pub fn settle<C: Link>(alloc: Global, console: &mut C, secret: [u8; 32], cap: u32) -> Status
    ensures { Ran (IsSettleText secret cap) NoRefusal (C.about console.old) (C.about console.new) (code_of result) }
{
    let keys = Keys::new(secret);
    answer_input(alloc, console, &Settle { keys, cap })
}

/// Judges the answers of the console's input, each the share of one stripe, by what `k` shares rebuild.
pub fn judge<C: Link>(alloc: Global, console: &mut C, k: u8, share: u16) -> Status
    requires k { (1 ≤ k) × (k ≤ 127) }
    requires share { (1 ≤ share) × (share ≤ 1024) }
    ensures { Ran (Judges k share) RefusesLine (C.about console.old) (C.about console.new) (code_of result) }
{
    let scheme = judged_scheme(k, share);
    answer_input(alloc, console, &Judge { scheme })
}
