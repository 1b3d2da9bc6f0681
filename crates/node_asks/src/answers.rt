// What each place answered.
ghost use Rattle.std.specs.Prelude.{◌≡◌, length, map, IfOk};
ghost use Rattle.node_asks.specs.Answers.{places_in, answers_in};

use sat_base::{Fetched, Items, NoMemory, Place};
use std::alloc::Global;

/// A place that was asked, and its answer.
#[derive(Drop)]
pub struct Answered {
    pub place: Place,
    pub what: Fetched,
}

// Each place with its answer, in order.
pub(crate) fn paired(
    alloc: Global,
    places: &[Place],
    answers: Items<Fetched>,
) -> Result<Vec<Answered>, NoMemory>
    requires { length answers ≡ length places.now }
    ensures places { IfOk result (λ all. places_in all.items ≡ places.now) }
    ensures answers { IfOk result (λ all. answers_in all.items ≡ answers) }
{
    let mut rest = answers.into_vec();
    rest.reverse();
    let mut all = Vec::new(alloc);
    for place in places {
        let Some(what) = rest.pop() else {
            unreachable!()
        };
        all.push(Answered {
            place: *place,
            what,
        })?;
    }
    Ok(all)
}
