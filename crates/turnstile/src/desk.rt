//! The desk: threads draw tickets, and each takes its turn when its ticket comes up.
ghost use Rattle.std.specs.Prelude.{◌≡◌, ℕ, ◌+◌, ◌^◌, ◌<◌, ◌≤◌, [], length, Some, false, IfOk, IfErr};
ghost use Rattle.sat_base.specs.declared.limits.TheConstants as limits;
ghost use Rattle.turnstile.specs.History.{own};
ghost use Rattle.turnstile.specs.Known.{first_pass, with_mark, own_entries, kept_half, given_half, or_else, Enters, Joined, AreApart, HasNumbersOf};
ghost use Rattle.turnstile.specs.Steps.{Came};

use crate::pass::{Pass, PassAt, reseat};
use crate::plays::{About, Draw, Halve, InOrder, Look, Merge, Recall, Serve, Spare};
use crate::turn::Turn;
use crate::view::SeatView;
use atomic_table::{Refused, Seat, Table};
use sat_base::NoMemory;
use std::alloc::{AllocFailed, Global};
use std::hint::spin_loop;
use std::marker::Model;
use std::snapshot::Snapshot;
use std::sync::Wait;

// The words of the table: the next ticket to draw, and how many calls were served.
const TICKET: usize = 0;

const SERVED: usize = 1;

// How often a thread looks for its turn before it sleeps.
const LOOKS: u64 = 200;

/// One value, and the tickets for it. Contracts see it as its `DeskId`, by which its passes know it.
pub struct Desk<V: Turn> {
    term: u64,
    table: Table<V, SeatView<V::Call, V::Reply, V::Base>, About<V>, InOrder, Global>,
}

impl<V: Turn> Model for Desk<V> {
    ghost use Rattle.std.specs.Prelude.{◌≡◌};
    ghost use Rattle.turnstile.specs.Known.{DeskId};

    ghost Value = { DeskId };

    ghost view = { λ d. record { table = d.table.shared.table_id; term = d.term } };

    ghost invariant = { λ d. (d.table.shared.table_id.words ≡ 2) × (d.table.shared.table_id.slots ≡ 1) };
}

/// What became of a call. `C` is the call, `A` the reply that the entry keeps, `B` the base and `R` the answer.
pub enum Turned<C, A, B, R> {
    /// It was entered, and this is its answer.
    Done(Pass<C, A, B>, R),
    /// The ticket is at or above the term, and the call wasn't entered.
    TermFull(Pass<C, A, B>, u64),
}

/// What `enter` gives at a desk of `V`.
pub type TurnedAt<V> = Turned<
    <V as Turn>::Call,
    <V as Turn>::Reply,
    <V as Turn>::Base,
    <V as Turn>::Answer,
>;

impl<V: Turn> Desk<V> {
    ghost use Rattle.turnstile.specs.declared.desk.Turned.TheVariants.{TermFull};
    ghost use Rattle.turnstile.specs.Turned.{IfDone, IfTermFull};

    /// Puts a value that stands for no entries on a desk, for at most `term` calls. The value comes back where
    /// memory runs out.
    pub fn new(alloc: Global, value: V, term: u64) -> Result<(Desk<V>, PassAt<V>), (V, NoMemory)>
        requires empty { V.entries value ≡ [] }
        requires lawful { V.lawful (V.base value) [] }
        requires term { (1 ≤ term) × (term ≤ limits.TERM) × (term ≤ V.room value) }
        ensures term { IfOk result (λ r. r.0.term ≡ term) }
        ensures first { IfOk result (λ r. r.1 ≡ first_pass r.0 (V.base value)) }
        ensures given_back { IfErr result (λ r. r.0 ≡ value) }
    {
        let about = About {
            term,
            opening: Snapshot::of(&value),
        };
        let mut slots = Vec::new(alloc);
        if let Err(failed) = slots.push(value) {
            let AllocFailed { value } = failed;
            slots.destroy_empty();
            return Err((value, NoMemory));
        }
        match Table::new(alloc, &[0, 0], slots, &about) {
            Ok((table, seat)) => {
                let desk = Desk { term, table };
                let pass = Pass {
                    number: 0,
                    spare: 1 << 32,
                    mark: None,
                    seat: reseat(seat),
                };
                Ok((desk, pass))
            }
            Err(Refused { mut slots }) => {
                let Some(value) = slots.pop() else {
                    unreachable!()
                };
                slots.destroy_empty();
                Err((value, NoMemory))
            }
        }
    }

    // Waits until the turn has come.
    fn wait<R: Wait>(
        &self,
        rt: &R,
        seat: &mut Seat<V, SeatView<V::Call, V::Reply, V::Base>>,
        ticket: u64,
    )
        requires desk { seat.old.table_id ≡ self.now.table }
        requires ticket { (seat.old.me.0.ticket ≡ Some ticket) × (ticket < seat.old.me.0.term) × (seat.old.me.0.turn ≡ false) × (length seat.old.me.0.joined ≡ 0) }
        ensures same { (seat.new.table_id ≡ seat.old.table_id) × (seat.new.id ≡ seat.old.id) }
        ensures came { Came V.base V.entries V.room V.lawful seat.old.me ticket seat.new.me }
    {
        for _ in rt.forever() {
            let now = self.table.shared.load::<Look>(seat, SERVED);
            if now == ticket {
                return;
            }
            if !self.comes_soon(ticket) {
                self.table
                    .shared
                    .park(rt, SERVED, (now & 0xffff_ffff) as u32);
            }
        }
        unreachable!()
    }

    // Looks for a while whether the turn comes, since a sleep costs more than most turns.
    fn comes_soon(&self, ticket: u64) -> bool {
        for _ in 0..LOOKS {
            if self.table.shared.peek(SERVED) == ticket {
                return true;
            }
            spin_loop();
        }
        false
    }

    /// Draws a ticket, waits for its turn and enters the call. A pass with a mark draws no other: it answers
    /// `TermFull` with its mark again.
    pub fn enter<R: Wait>(&self, rt: &R, pass: PassAt<V>, call: V::Call) -> TurnedAt<V>
    where
        V::Call: Drop,
        requires desk { pass.desk ≡ self.now }
        requires call { V.well_formed pass.base call }
        ensures done { IfDone result (λ after answer. Enters V.lawful pass call (V.reply answer) (V.place answer) after) }
        ensures full { IfTermFull result (λ after ticket. (after ≡ with_mark pass ticket) × (pass.desk.term ≤ ticket)) }
        ensures again { (t : ℕ) → pass.mark ≡ Some t → result ≡ TermFull pass t }
    {
        let Pass {
            number,
            spare,
            mark,
            seat,
        } = pass;
        if let Some(ticket) = mark {
            let pass = Pass {
                number,
                spare,
                mark,
                seat,
            };
            return Turned::TermFull(pass, ticket);
        }
        let mut seat = reseat::<(), V, SeatView<V::Call, V::Reply, V::Base>>(seat);
        let ticket = self.table.shared.fetch_add::<Draw>(&mut seat, TICKET, 1);
        if ticket >= self.term {
            let pass = Pass {
                number,
                spare,
                mark: Some(ticket),
                seat: reseat(seat),
            };
            return Turned::TermFull(pass, ticket);
        }
        self.wait(rt, &mut seat, ticket);
        let value = seat.slot_mut(&self.table.shared, 0);
        let answer = value.turn(number, call);
        self.table
            .shared
            .store::<Serve>(&mut seat, SERVED, ticket + 1);
        // Whoever draws from here on sees what was served, and doesn't sleep.
        if self.table.shared.peek(TICKET) != ticket + 1 {
            self.table.shared.wake_all(SERVED);
        }
        let pass = Pass {
            number,
            spare,
            mark: None,
            seat: reseat(seat),
        };
        Turned::Done(pass, answer)
    }

    /// Cuts a pass in two. The second has a number of its own, half of the numbers and half of the parts.
    pub fn split(&self, pass: PassAt<V>) -> (PassAt<V>, PassAt<V>)
        requires desk { pass.desk ≡ self.now }
        requires spare { 2 ≤ pass.spare }
        ensures kept { result.0 ≡ kept_half pass }
        ensures given { result.1 ≡ given_half pass }
        ensures none { own_entries result.1 ≡ [] }

        // All numbers are with the first pass of a desk. So by these clauses two passes of it never share one.
        ensures apart { AreApart result.0 result.1 }
        ensures from_pass { HasNumbersOf result.0 pass × HasNumbersOf result.1 pass }
    {
        let Pass {
            number,
            spare,
            mark,
            seat,
        } = pass;
        let mut seat = reseat::<(), V, SeatView<V::Call, V::Reply, V::Base>>(seat);
        self.table.shared.load::<Spare>(&mut seat, SERVED);
        let other = self.table.shared.split_seat::<Halve>(&mut seat);
        let half = spare / 2;
        let kept = Pass {
            number,
            spare: spare - half,
            mark,
            seat: reseat(seat),
        };
        let given = Pass {
            number: (number as u64 + (spare - half)) as u32,
            spare: half,
            mark,
            seat: reseat(other),
        };
        (kept, given)
    }

    /// Makes one pass of two, with the first one's number.
    pub fn join(&self, first: PassAt<V>, second: PassAt<V>) -> PassAt<V>
        requires first { first.desk ≡ self.now }
        requires second { second.desk ≡ self.now }
        ensures { Joined first second result }
    {
        let Pass {
            number,
            spare,
            mark,
            seat,
        } = first;
        let Pass {
            number: _,
            spare: _,
            mark: other_mark,
            seat: other,
        } = second;
        let mut seat = reseat::<(), V, SeatView<V::Call, V::Reply, V::Base>>(seat);
        let other = reseat::<(), V, SeatView<V::Call, V::Reply, V::Base>>(other);
        self.table.shared.join_seat::<Merge<V>>(&mut seat, other);
        self.table.shared.load::<Recall>(&mut seat, SERVED);
        Pass {
            number,
            spare,
            mark: first_of(mark, other_mark),
            seat: reseat(seat),
        }
    }

    /// Takes the value off the desk. It stands for just what the pass has seen, which is the whole history, and
    /// all of it is the pass's own. Where the pass has a mark, the term is full.
    pub fn close(self, pass: PassAt<V>) -> V
        requires desk { pass.desk ≡ self }
        requires all { pass.parts ≡ 2 ^ 32 }
        ensures base { V.base result ≡ pass.base }
        ensures entries { V.entries result ≡ pass.seen }
        ensures lawful { V.lawful pass.base pass.seen }
        ensures own { own_entries pass ≡ pass.seen }
        ensures full { (t : ℕ) → pass.mark ≡ Some t → length pass.seen ≡ pass.desk.term }
    {
        let Desk { term: _, table } = self;
        let Pass {
            number: _,
            spare: _,
            mark: _,
            seat,
        } = pass;
        let mut closed = table.close_with(reseat(seat));
        let value = closed.take(0);
        closed.free();
        value
    }
}

fn first_of(a: Option<u64>, b: Option<u64>) -> Option<u64>
    ensures { result ≡ or_else a b }
{
    match a {
        Some(t) => Some(t),
        None => b,
    }
}
