// Ticks by sleeping.
ghost use Rattle.std.specs.Prelude.{◌≡◌, false};
ghost use Rattle.sat_base.specs.Ticks.{Beats};
ghost use Rattle.sat_devices.specs.Waits.{Every, ticks_about};

use sat_base::{Beat, Service, Ticks};
use std::marker::Model;
use std::thread;
use std::time::{Clock, Duration};

/// Ticks that come after a sleep each, but the first, which comes at once. Contracts see how many seconds a sleep takes, how
/// many ticks came, up to 2^64 - 1, and whether none comes any more, which is so once their service is over.
#[derive(Drop)]
pub struct SleepTicks<R: Clock + Drop> {
    rt: R,
    service: Option<Service>,
    seconds: u32,
    given: u64,
    over: bool,
}

impl<R: Clock + Drop> Model for SleepTicks<R> {
    ghost Value = { Every };

    ghost view = { λ t. record { seconds = t.seconds; given = t.given; over = t.over } };
}

impl<R: Clock + Drop> SleepTicks<R> {
    /// Ticks of which the first one comes at once, and each other one so many seconds after it is waited for.
    pub fn new(rt: R, seconds: u32) -> Self
        ensures { result ≡ record { seconds = seconds; given = 0; over = false } }
    {
        SleepTicks {
            rt,
            service: None,
            seconds,
            given: 0,
            over: false,
        }
    }

    /// The ticks, as some of a service: they end with it.
    pub fn served(self, service: Service) -> Self
        ensures { result ≡ self }
    {
        SleepTicks {
            rt: self.rt,
            service: Some(service),
            seconds: self.seconds,
            given: self.given,
            over: self.over,
        }
    }

    // Whether its service is over.
    fn has_ended(&self) -> bool {
        match &self.service {
            Some(service) => service.is_over(),
            None => false,
        }
    }

    // Sleeps until the next tick, or the end of its service.
    fn sleep(&self) {
        for _ in 0..self.seconds {
            if self.has_ended() {
                return;
            }
            thread::sleep(&self.rt, Duration::from_secs(1));
        }
    }
}

impl<R: Clock + Drop + Send> Ticks for SleepTicks<R> {
    ghost about = { ticks_about };

    fn next(&mut self) -> Beat
        ensures beats { Beats (ticks_about self.old) result (ticks_about self.new) }

        // Beside what all ticks promise.
        ensures seconds { self.new.seconds ≡ self.old.seconds }
    {
        if self.given > 0 && !self.over {
            self.sleep();
        }
        if self.over || self.has_ended() {
            self.over = true;
            return Beat::Ended;
        }
        self.given = self.given.saturating_add(1);
        Beat::Tick
    }
}
