// The calls of an object in memory are numbered from 1, and those of chosen numbers are told apart.
ghost use Rattle.std.specs.Prelude.{◌≡◌, ◌↔◌, IsTrue, Contains};
ghost use Rattle.sat_base.specs.Outside.{raised};

/// Counts a call, and tells whether it is one of those that are to fail.
pub(crate) fn is_failing(calls: &mut u64, failing: &[u64]) -> bool
    ensures calls { calls.new ≡ raised calls.old }
    ensures failing { IsTrue result ↔ Contains failing.now (raised calls.old) }
{
    *calls = calls.saturating_add(1);
    failing.contains(calls)
}
