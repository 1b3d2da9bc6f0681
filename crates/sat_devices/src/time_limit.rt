// A limit on the time of several calls.
ghost use Rattle.std.specs.Prelude.{◌≤◌, ◌*◌, IfSome};
ghost use Rattle.std.specs.Duration.{as_nanos};

use std::time::{Clock, Duration, Instant};

/// The moment at which the time of several calls is up. Where the clock can't be read it is up, too.
#[derive(Clone, Copy)]
pub struct TimeLimit {
    end: Option<Instant>,
}

impl TimeLimit {
    /// So many seconds from now.
    pub fn after(clock: &impl Clock, seconds: u64) -> TimeLimit {
        let now = Instant::now(clock).ok();
        TimeLimit {
            end: now.and_then(|now| now.checked_add(Duration::from_secs(seconds))),
        }
    }

    /// How long a call may take: what is left, and at most so many seconds. `None` once the time is up.
    pub fn left(&self, clock: &impl Clock, seconds: u64) -> Option<Duration>
        ensures { IfSome result (λ time. as_nanos time ≤ seconds * 1_000_000_000) }
    {
        let now = Instant::now(clock).ok()?;
        let left = self.end?.checked_duration_since(now)?;
        if left.is_zero() {
            return None;
        }
        Some(left.min(Duration::from_secs(seconds)))
    }

    /// Whether the time is up.
    pub fn is_up(&self, clock: &impl Clock) -> bool {
        self.left(clock, 1).is_none()
    }
}
