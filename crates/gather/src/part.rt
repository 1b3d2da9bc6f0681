// A part of a gather.
ghost use Rattle.std.specs.Prelude.{◌≡◌, MatchBool};
ghost use Rattle.futures.specs.Task.{Covers, Keeps};
ghost use Rattle.gather.specs.Gathered.{IsLive, IsDone, IsWaiting, MayGive, Waits};

use futures::Future;
use futures::task::{Context, Poll};

/// A future, or its output once it was ready. `T` is the output of `F`.
#[derive(Drop)]
pub enum Part<F, T> {
    Waiting(F),
    Done(T),
}

impl<F: Future<Output: Drop>> Part<F, F::Output> {
    // Polls the future, unless its output is here. True if it is here then.
    pub(crate) fn advance(&mut self, cx: &mut Context<'_>) -> bool
        requires { IsLive F.can_poll self.old }
        ensures live { IsLive F.can_poll self.new }
        ensures same { (x : _) → MayGive F.gives self.new x → MayGive F.gives self.old x }
        ensures answer { MatchBool result (IsDone self.new)
            (IsWaiting self.new × Covers cx.new (Waits F.needs self.new)) }
        ensures kept { Keeps cx.old cx.new }
    {
        let Part::Waiting(future) = self else {
            return true;
        };
        match future.poll(cx) {
            Poll::Ready(output) => {
                *self = Part::Done(output);
                true
            }
            Poll::Pending => false,
        }
    }
}
