// A future whose end is timed.
ghost use Rattle.std.specs.Prelude.{◌≡◌};

use futures::task::{Context, Poll};
use futures::{Future, ready};
use std::time::{Clock, Duration};

/// A future, and the clock that is read once it is ready. Beside its output it gives that moment on the monotonic clock,
/// or zero where the clock can't be read.
#[derive(Drop)]
pub struct Timed<'a, F, R> {
    future: F,
    clock: &'a R,
}

impl<'a, F, R> Timed<'a, F, R> {
    pub(crate) fn new(clock: &'a R, future: F) -> Timed<'a, F, R>
        ensures { result.future ≡ future }
    {
        Timed { future, clock }
    }
}

impl<F: Future, R: Clock> Future for Timed<'_, F, R> {
    type Output = (F::Output, Duration);

    ghost can_poll = { λ t. F.can_poll t.future };

    ghost needs = { λ t. F.needs t.future };

    ghost gives = { λ t ended. F.gives t.future ended.0 };

    fn poll(&mut self, cx: &mut Context<'_>) -> Poll<(F::Output, Duration)> {
        let output = ready!(self.future.poll(cx));
        let moment = self.clock.monotonic().unwrap_or(Duration::ZERO);
        Poll::Ready((output, moment))
    }
}
