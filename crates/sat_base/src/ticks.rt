// Ticks, at which rounds begin.
ghost use Rattle.std.specs.Prelude.{◌≡◌, false};
ghost use Rattle.sat_base.specs.Ticks.{TicksView, Beats};

use std::marker::Model;

/// What the wait for a tick answers.
#[derive(Clone, Copy, Debug, PartialEq, Eq)]
pub enum Beat {
    /// It came.
    Tick,
    /// None will come any more.
    Ended,
}

/// Ticks, one after another.
pub trait Ticks: Drop {
    /// How many came, up to 2^64 - 1, and whether none will come any more, which stays so.
    ghost about: { Self → TicksView };

    /// Waits for the next tick.
    fn next(&mut self) -> Beat
        ensures { Beats (about self.old) result (about self.new) };
}

/// A number of ticks that come at once, for tests.
#[derive(Drop)]
pub struct MemTicks {
    left: u64,
    given: u64,
    over: bool,
}

impl Model for MemTicks {
    ghost use Rattle.std.specs.Prelude.{◌≡◌, ◌⊎◌, false};
    ghost use Rattle.sat_base.specs.Ticks.{MemTicksView};

    ghost Value = { MemTicksView };

    ghost view = { λ t. record { coming = t.left; ticks = record { given = t.given; over = t.over } } };

    ghost invariant = { λ t. (t.over ≡ false) ⊎ (t.left ≡ 0) };
}

impl MemTicks {
    /// So many ticks.
    pub fn of(ticks: u64) -> MemTicks
        ensures { result ≡ record { coming = ticks; ticks = record { given = 0; over = false } } }
    {
        MemTicks {
            left: ticks,
            given: 0,
            over: false,
        }
    }
}

impl Ticks for MemTicks {
    ghost about = { λ t. t.ticks };

    fn next(&mut self) -> Beat {
        if self.left == 0 {
            self.over = true;
            return Beat::Ended;
        }
        self.left -= 1;
        self.given = self.given.saturating_add(1);
        Beat::Tick
    }
}
