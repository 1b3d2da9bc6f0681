// Many futures as one.
ghost use Rattle.std.specs.Prelude.{◌≡◌, ◌≤◌, ℕ, [], All, map, vec_len, vec_capacity, MatchBool, IfOk, IfErr};
ghost use Rattle.futures.specs.Outputs.{EachResumes};
ghost use Rattle.futures.specs.Poll.{IfReady, OnPending};
ghost use Rattle.futures.specs.Task.{Covers, Keeps};
ghost use Rattle.gather.specs.Gathered.{IsLive, IsDone, MayGive, AnyWaits, SomeWaits, HasRoom, Awaits, CanGather, GatherNeeds, GatherWaits, Gathers};
ghost use Rattle.gather.specs.declared.part.Part.TheVariants.{Waiting, Done};

use crate::part::Part;
use futures::Future;
use futures::task::{Context, Poll};
use sat_base::NoMemory;
use std::alloc::Global;

/// Many futures as one, whose output is the list of theirs in asking order. `T` is the output of `F`.
///
/// A poll polls each future that isn't ready yet, and none that was. It takes no memory of its own.
#[derive(Drop)]
pub struct Gather<F, T> {
    // The parts, and the room for their outputs, until these are given.
    inner: Option<(Vec<Part<F, T>>, Vec<T>)>,
}

// Room for so many parts, and for as many outputs.
fn rooms<F: Drop, T: Drop>(
    alloc: Global,
    count: usize,
) -> Result<(Vec<Part<F, T>>, Vec<T>), NoMemory>
    ensures { IfOk result (λ r. (r.0.items ≡ []) × (r.1.items ≡ []) × (count ≤ vec_capacity r.0) × (count ≤ vec_capacity r.1)) }
{
    let parts = Vec::with_capacity(alloc, count)?;
    let room = Vec::with_capacity(alloc, count)?;
    Ok((parts, room))
}

impl<F: Future<Output: Drop>> Gather<F, F::Output> {
    /// All of these futures as one. It takes all the memory that its polls need, and gives the futures back where
    /// that is wanting.
    pub fn new(alloc: Global, parts: Vec<F>) -> Result<Gather<F, F::Output>, (Vec<F>, NoMemory)>
        ensures ok { IfOk result (λ g. Awaits g.inner parts.items) }
        ensures err { IfErr result (λ e. e.0 ≡ parts) }
    {
        let Ok((mut waiting, room)) = rooms(alloc, parts.len()) else {
            return Err((parts, NoMemory));
        };
        for part in parts {
            waiting.push_reserved(Part::Waiting(part));
        }
        Ok(Gather {
            inner: Some((waiting, room)),
        })
    }
}

// Polls each part that waits. True if each is done then.
fn advance_all<F: Future<Output: Drop>>(
    parts: &mut Vec<Part<F, F::Output>>,
    cx: &mut Context<'_>,
) -> bool
    requires { All (IsLive F.can_poll) parts.old.items }
    ensures live { All (IsLive F.can_poll) parts.new.items }
    ensures same { EachResumes (MayGive F.gives) parts.old.items parts.new.items }
    ensures len { vec_len parts.new ≡ vec_len parts.old }
    ensures answer { MatchBool result (All IsDone parts.new.items)
        (SomeWaits parts.new.items × Covers cx.new (AnyWaits F.needs parts.new.items)) }
    ensures kept { Keeps cx.old cx.new }
{
    let mut done = true;
    for at in 0..parts.len() {
        if !parts[at].advance(cx) {
            done = false;
        }
    }
    done
}

// The outputs, in the order of the parts.
fn outputs<F: Drop, T: Drop>(parts: Vec<Part<F, T>>, mut room: Vec<T>) -> Vec<T>
    requires done { All IsDone parts.items }
    requires room { HasRoom parts room }
    ensures { parts.items ≡ map Done result.items }
{
    for part in parts {
        match part {
            Part::Done(output) => room.push_reserved(output),
            Part::Waiting(_) => unreachable!(),
        }
    }
    room
}

impl<F: Future<Output: Drop>> Gather<F, F::Output> {
    /// As `poll`, which also tells that a part still waits where it is pending (`some`).
    pub fn poll_all(&mut self, cx: &mut Context<'_>) -> Poll<Vec<F::Output>>
        requires { CanGather F.can_poll self.old.inner }
        ensures value { IfReady result (λ outs. Gathers F.gives self.old.inner outs.items) }
        ensures again { OnPending result (CanGather F.can_poll self.new.inner) }
        ensures same { OnPending result ((outs : _) → Gathers F.gives self.new.inner outs → Gathers F.gives self.old.inner outs) }
        ensures some { OnPending result (GatherWaits self.new.inner) }
        ensures registered { OnPending result (Covers cx.new (GatherNeeds F.needs self.new.inner)) }
        ensures kept { Keeps cx.old cx.new }
    {
        let Some((parts, _)) = &mut self.inner else {
            unreachable!()
        };
        if !advance_all(parts, cx) {
            return Poll::Pending;
        }
        let (parts, room) = self.inner.take().unwrap();
        Poll::Ready(outputs(parts, room))
    }
}

impl<F: Future<Output: Drop>> Future for Gather<F, F::Output> {
    type Output = Vec<F::Output>;

    ghost can_poll = { λ m. CanGather F.can_poll m.inner };

    ghost needs = { λ m. GatherNeeds F.needs m.inner };

    ghost gives = { λ m outs. Gathers F.gives m.inner outs.items };

    fn poll(&mut self, cx: &mut Context<'_>) -> Poll<Vec<F::Output>> {
        self.poll_all(cx)
    }
}
