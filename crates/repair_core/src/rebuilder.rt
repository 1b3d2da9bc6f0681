// Rebuilding a segment in windows of its stripes.
ghost use Rattle.std.specs.Prelude.{◌≡◌, ◌≤◌, ◌<◌, ◌^◌, ◌↔◌, ℕ, true, length, All, IfOk, IsOk};
ghost use Rattle.sat_base.specs.Scheme.{stripe_count};
ghost use Rattle.bw_decode.specs.Altered.{indexes_of};
ghost use Rattle.bw_decode.specs.Near.{Rises};
ghost use Rattle.repair_core.specs.Answers.{answers_at};
ghost use Rattle.repair_core.specs.Indexes.{has_index, place_indexes};
ghost use Rattle.repair_core.specs.Stripes.{HasNear};
ghost use Rattle.repair_core.specs.Windows.{start_of, next_stripes, IsWindow, IsUnclearWindow};

use crate::making::{Made, indexes_at};
use crate::plan::RepairPlan;
use crate::rebuilt::{Remade, WindowErr};
use crate::room::Room;
use crate::stripes::mend_all;
use bw_decode::Scratch;
use sat_base::{NoMemory, Scheme, Share};
use std::alloc::Global;
use std::marker::Model;

/// A segment that is rebuilt window by window, each of so many stripes. Contracts see how far it is, which sources
/// were altered so far, and the fresh pieces so far.
#[derive(Drop)]
pub struct Rebuilder {
    k: u8,
    size: u16,
    n: u8,
    window: u64,
    sources: Vec<u8>,
    room: Room,
    made: Made,
}

impl Model for Rebuilder {
    ghost use Rattle.repair_core.specs.Progress.{Progress};

    ghost Value = { Progress };

    ghost use Rattle.repair_core.specs.Held.{progress_of, IsHeld};

    ghost view = { progress_of };

    ghost invariant = { IsHeld };
}

impl Rebuilder {
    /// A rebuilding by the plan in windows of so many stripes. It takes all memory that is needed: the fresh pieces,
    /// and room for one stripe and its answers. It fails only where memory runs out.
    pub fn new(
        alloc: Global,
        scheme: &Scheme,
        plan: &RepairPlan,
        window: u64,
    ) -> Result<Rebuilder, NoMemory>
        requires window { 1 ≤ window }
        requires len { plan.now.len ≤ 2 ^ 40 }
        requires sources { All (λ index. index < scheme.now.n) (place_indexes plan.now.sources) }
        requires targets { All (λ index. index < scheme.now.n) (place_indexes plan.now.targets) }
        ensures { IfOk result (λ rebuilder. rebuilder ≡ start_of scheme.now.k scheme.now.share scheme.now.n window
            (stripe_count scheme.now.k scheme.now.share plan.now.len)
            (place_indexes plan.now.sources) (place_indexes plan.now.targets)) }
    {
        let sources = indexes_at(alloc, plan.sources.as_slice())?;
        let room = Room::new(alloc, scheme, usize::from(scheme.n))?;
        let made = Made::new(alloc, scheme, plan)?;
        Ok(Rebuilder {
            k: scheme.k,
            size: scheme.share,
            n: scheme.n,
            window,
            sources,
            room,
            made,
        })
    }

    /// How many stripes are finished.
    pub fn done(&self) -> u64
        ensures { result ≡ self.now.done }
    {
        self.made.done as u64
    }

    /// Rebuilds the next window, which has as many stripes as a window has, or those that are left. `shares` are the
    /// sources' bytes of these stripes, by rising index. One of wrong length is altered for each stripe. It takes no
    /// memory. A refusal gives the rebuilding up.
    ///
    /// The scheme is the one that [`Rebuilder::new`] was given. The decoder's room was made for it, or for one with
    /// at least as many shares.
    pub fn window(
        mut self,
        scratch: &mut Scratch,
        scheme: &Scheme,
        shares: &[Share],
    ) -> Result<Rebuilder, WindowErr>
        requires scheme { (self.k ≡ scheme.now.k) × (self.size ≡ scheme.now.share) × (self.n ≡ scheme.now.n) }
        requires room { scheme.now.n ≤ scratch.old.points }
        requires left { self.done < self.count }
        requires rising { Rises (indexes_of shares.now) }
        requires among { All (λ index. has_index self.sources index ≡ true) (indexes_of shares.now) }
        ensures ok { IfOk result (IsWindow self shares.now) }
        ensures few { (answered : ℕ) → (result ≡ Err (WindowErr.Few answered))
            ↔ ((length shares.now < self.k) × (answered ≡ length shares.now)) }
        ensures unclear { (s : ℕ) → result ≡ Err (WindowErr.Unclear s)
            → (self.k ≤ length shares.now) × IsUnclearWindow self shares.now s }

        // Where each stripe has a near one, the window succeeds.
        ensures complete { self.k ≤ length shares.now
            → ((s : ℕ) → s < next_stripes self → HasNear self.k self.size (answers_at self.size (next_stripes self) s shares.now))
            → IsOk result }
        ensures points { scratch.new.points ≡ scratch.old.points }
    {
        if shares.len() < usize::from(scheme.k) {
            let answered = shares.len() as u8;
            return Err(WindowErr::Few { answered });
        }
        let done = self.made.done;
        let number = self.window.min((self.made.whole - done) as u64) as usize;
        match mend_all(
            scratch,
            scheme,
            &mut self.room,
            &mut self.made,
            shares,
            number,
        ) {
            None => Ok(self),
            Some(s) => Err(WindowErr::Unclear {
                stripe: (done + s) as u64,
            }),
        }
    }

    /// The sources that were altered in at least one stripe among that stripe's answers, and the fresh pieces. All
    /// stripes are finished. It takes no memory.
    pub fn finish(self) -> Remade
        requires { self.done ≡ self.count }
        ensures blamed { result.blamed ≡ self.blamed }
        ensures fresh { result.fresh ≡ self.fresh }
    {
        self.made.finish(self.sources)
    }
}
