// The law of good requests, as the contract of a function that does nothing.
ghost use Rattle.sat_sessions.specs.Good.{GoodAreAnswered};

use http_edge::heads_decide;

/// A connection whose bytes say a wish that breaks no rule at its turn, while its ticket is below the term, nothing
/// stopped the machine before it and no count of its link, its words or the keeper rises, is answered, whole: with status
/// 200 and the machine's reply, or with 507.
pub fn good_requests_are_answered()
    ensures { GoodAreAnswered }
{
    heads_decide();
}
