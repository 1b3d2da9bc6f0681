// Rounds of tallies, and the kit whose worker makes one at each tick.
ghost use Rattle.std.specs.Prelude.{◌≡◌, IsSome};
ghost use Rattle.node_rounds.specs.Tally.{TallyRounds, tally_view};

use crate::entering::enter;
use crate::upkeep::{end_of, went_at};
use machine_calls::{Call, Task};
use sat_base::{Beat, Clock, Gate, Keeper, Moment, Ticks};
use sat_book::Book;
use sat_sessions::{BookPass, Round, RoundEnd, RoundKit};
use std::alloc::Global;
use std::sync::Wait;
use turnstile::Desk;

/// The kit whose worker tallies: at each tick it makes a [`tally_round`].
#[derive(Drop)]
pub struct TallyKit<T, I> {
    pub clock: T,
    pub ticks: I,
}

/// Tallies the hour: it enters the call of a tally at the clock's next moment, and draws nothing.
///
/// What it did is told by `TallyRounds`: the entry stands, and its reply says how the round ends. It goes on also where the
/// hour was done. Nothing is entered where the term is full, or there is no memory for a place, and then no moment is taken.
pub fn tally_round<K: Keeper, T: Clock, I: Ticks, R: Wait>(
    rt: &R,
    alloc: Global,
    desk: &Desk<Book<K>>,
    pass: BookPass<K>,
    kit: &mut TallyKit<T, I>,
) -> (BookPass<K>, Round)
    requires desk { pass.desk ≡ desk.now }
    requires base { IsSome pass.base }
    ensures { TallyRounds (tally_view T.coming I.about kit.old) pass result.1 (tally_view T.coming I.about kit.new) result.0 }
{
    let mut places = Vec::new(alloc);
    if places.reserve(1).is_err() {
        let end = RoundEnd::NoMemory;
        return (pass, Round { places, end });
    }
    let now = Moment::of(kit.clock.now());
    let call = Call::Own {
        now,
        task: Task::TallyHour,
    };
    let (pass, answered) = enter(rt, desk, pass, call, &mut places);
    match answered {
        Ok(reply) => {
            let end = end_of(went_at(&reply));
            (pass, Round { places, end })
        }
        Err(ticket) => {
            let end = RoundEnd::TermFull { ticket };
            (pass, Round { places, end })
        }
    }
}

impl<T: Clock, I: Ticks> RoundKit for TallyKit<T, I> {
    ghost use Rattle.node_rounds.specs.Tally.{TallyTells, tally_view};

    type Nodes = ();

    ghost view = { tally_view T.coming I.about };

    ghost fits = { λ _ _. Unit {0} };

    ghost tells = { TallyTells };

    fn lasts(&self) {}

    fn tick(&mut self) -> Beat {
        self.ticks.next()
    }

    fn round<K: Keeper, G: Gate, R: Wait>(
        &mut self,
        rt: &R,
        alloc: Global,
        desk: &Desk<Book<K>>,
        pass: BookPass<K>,
        _gate: &G,
    ) -> (BookPass<K>, Round) {
        tally_round(rt, alloc, desk, pass, self)
    }
}
