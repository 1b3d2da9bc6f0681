// The clock of the machine.
ghost use Rattle.std.specs.Prelude.{◌≡◌, [], ◌∷◌, None};
ghost use Rattle.sat_base.specs.Outside.{with_front};
ghost use Rattle.sat_base.specs.Clock.{or_zero};

use sat_base::Clock;
use std::io::Eprint;
use std::marker::Model;
use std::time;
use std::time::Duration;

// By how many seconds the machine's clock may go ahead of its monotonic one within a run.
const AHEAD: u64 = 3600;

/// The machine's clock. Where it can't be read, the last moment is given again. Contracts see that moment, which is 0
/// at first.
///
/// A clock that jumps ahead by more than an hour isn't followed, since a moment that was taken can't be taken back: months
/// would close, and orders be late. Moments go on by the monotonic clock then, and it is told on standard error, once.
#[derive(Drop)]
pub struct SystemClock<R: time::Clock + Eprint + Drop> {
    rt: R,
    last: u64,
    // A moment that was followed, and what the monotonic clock said then.
    anchor: Option<(u64, Duration)>,
    is_told: bool,
}

impl<R: time::Clock + Eprint + Drop> Model for SystemClock<R> {
    ghost use Rattle.std.specs.Prelude.{ℕ};

    ghost Value = { ℕ };

    ghost view = { λ c. c.last };
}

impl<R: time::Clock + Eprint + Drop> SystemClock<R> {
    /// A clock that has given no moment.
    pub fn new(rt: R) -> Self
        ensures { result ≡ 0 }
    {
        SystemClock {
            rt,
            last: 0,
            anchor: None,
            is_told: false,
        }
    }

    // The moment that is taken where the machine's clock says this one.
    fn followed(&mut self, said: u64) -> u64 {
        let Ok(monotonic) = self.rt.monotonic() else {
            return said;
        };
        if let Some((moment, at)) = self.anchor {
            let gone = monotonic.checked_sub(at).unwrap_or(Duration::ZERO);
            let due = moment.saturating_add(gone.as_secs());
            if said > due.saturating_add(AHEAD) {
                self.tell(said, due);
                return due;
            }
            if said < due {
                return said;
            }
        }
        self.anchor = Some((said, monotonic));
        self.is_told = false;
        said
    }

    // Tells of a jump, if it can be told.
    fn tell(&mut self, said: u64, due: u64) {
        if self.is_told {
            return;
        }
        self.is_told = true;
        let ahead = said.saturating_sub(due);
        let _ = self.rt.eprintln(format_args!(
            "satellite: the clock jumped ahead by {ahead} seconds, which isn't followed before the next start"
        ));
    }
}

impl<R: time::Clock + Eprint + Drop + Send> Clock for SystemClock<R> {
    ghost coming = { λ _. None };

    fn now(&mut self) -> u64
        ensures told { or_zero None ≡ with_front (result ∷ []) None }

        // Beside what every clock promises: the last moment is the one that was given.
        ensures last { result ≡ self.new }
    {
        if let Ok(since) = self.rt.since_1970() {
            self.last = self.followed(since.as_secs());
        }
        self.last
    }
}
