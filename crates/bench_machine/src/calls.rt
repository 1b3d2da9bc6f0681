// Calls of each kind, each timed by itself.
ghost use Rattle.machine_step.specs.Step.{IsWellFormed};

use crate::dropping::Asked;
use crate::made::{AMOUNT, LEN, Size, customer_of, node_of, now, serial_at};
use crate::{fold, upkeep};
use anyhow::{Result, bail};
use audit_core::Checked;
use machine_calls::{Call, Reply, Wish, are_bytes};
use order_limits::{Action, Keys, Limit, Order, read_order};
use sat_base::{Items, NodeId, SegId, Serial};
use std::alloc::Global;
use std::time::{Clock, Instant};

/// What the machine is asked.
#[derive(Clone, Copy)]
pub(crate) enum Kind {
    /// To settle an order whose serial is above those of all rows.
    SettleAbove,
    /// To settle an order whose serial is among those of the rows.
    SettleAmong,
    Get,
    Begin,
    Delete,
    SetFree,
    PlanAudit,
    PlanRepair,
    PlanExit,
    /// To plan a recheck, and to end it with a pass.
    Recheck,
}

impl Kind {
    /// Its name in what is printed.
    pub(crate) fn name(self) -> &'static str {
        match self {
            Kind::SettleAbove => "settle_above",
            Kind::SettleAmong => "settle_among",
            Kind::Get => "get",
            Kind::Begin => "begin",
            Kind::Delete => "delete",
            Kind::SetFree => "set_free",
            Kind::PlanAudit => "plan_audit",
            Kind::PlanRepair => "plan_repair",
            Kind::PlanExit => "plan_exit",
            Kind::Recheck => "recheck",
        }
    }
}

// Another place for each call, spread over so many and out of order. The factor has no divisor in common with the
// numbers of calls, 5 and 200, so that no place comes twice.
fn spread(number: u64, size: Size, among: u64) -> u64 {
    let turn = number.wrapping_mul(77).checked_rem(size.calls).unwrap_or(0);
    turn.saturating_mul(among.checked_div(size.calls).unwrap_or(0))
}

// The bytes of an order that a node presents.
fn order(keys: &Keys, serial: u64, node: NodeId) -> [u8; 123] {
    let limit = Limit {
        action: Action::Get,
        serial: Serial(serial),
        node,
        segment: SegId(1),
        index: 0,
        limit: AMOUNT,
        issued: now().seconds(),
        expires: now().seconds(),
        customer: customer_of(serial),
    };
    let order = Order {
        limit,
        amount: serial % AMOUNT,
    };
    order.write(keys)
}

/// Random words (Knuth's MMIX).
pub(crate) fn random_words(seed: u64) -> [u64; 128] {
    let mut words = [0; 128];
    let mut state = seed;
    for word in words.iter_mut() {
        state = state
            .wrapping_mul(6364136223846793005)
            .wrapping_add(1442695040888963407);
        *word = state;
    }
    words
}

/// Whether a call did what it asked, the check sum of its reply, and how many nanoseconds it took.
#[derive(Clone, Copy)]
pub(crate) struct Answer {
    pub accepted: bool,
    pub sum: u64,
    pub spent: u128,
}

// Whether a reply accepts its call, and its check sum.
fn told(reply: Reply) -> (bool, u64) {
    (fold::is_accepted(&reply), fold::reply(fold::EMPTY, &reply))
}

/// Asks a call. Nothing ends the function while there is a call or a reply, since to prove how these are let go takes long.
pub(crate) fn timed(clock: &impl Clock, book: &mut Asked, call: Call) -> Result<Answer>
    requires { IsWellFormed book.old.tables call }
{
    let start = Instant::now(clock);
    let reply = book.ask(call);
    let spent = start.map(|start| start.elapsed(clock));
    let Some((accepted, sum)) = reply.map(told) else {
        bail!("the term is full");
    };
    Ok(Answer {
        accepted,
        sum,
        spent: spent??.as_nanos(),
    })
}

fn settle(
    clock: &impl Clock,
    alloc: Global,
    keys: &Keys,
    book: &mut Asked,
    node: NodeId,
    serial: u64,
) -> Result<Answer> {
    let bytes = Items::of(Vec::from_slice(alloc, &order(keys, serial, node))?);
    are_bytes(bytes.as_slice());
    let wish = Wish::Settle { node, bytes };
    timed(clock, book, Call::of_wish(alloc, now(), wish))
}

fn get(
    clock: &impl Clock,
    alloc: Global,
    book: &mut Asked,
    request: u64,
    segment: u64,
) -> Result<Answer> {
    let wish = Wish::Get {
        customer: customer_of(segment),
        request,
        segment: SegId(segment),
    };
    timed(clock, book, Call::of_wish(alloc, now(), wish))
}

fn begin(clock: &impl Clock, alloc: Global, book: &mut Asked, request: u64) -> Result<Answer> {
    let words = Vec::from_slice(alloc, &random_words(request))?;
    let wish = Wish::Begin {
        customer: customer_of(request),
        request,
        len: LEN,
    };
    let call = Call::Asked {
        now: now(),
        words: Items::of(words),
        wish,
    };
    timed(clock, book, call)
}

fn delete(
    clock: &impl Clock,
    alloc: Global,
    book: &mut Asked,
    request: u64,
    segment: u64,
) -> Result<Answer> {
    let wish = Wish::Delete {
        customer: customer_of(segment),
        request,
        segment: SegId(segment),
    };
    timed(clock, book, Call::of_wish(alloc, now(), wish))
}

/// Asks the call of a kind that has this number, from 0 on. The requests of later kinds have greater numbers.
pub(crate) fn ask(
    clock: &impl Clock,
    alloc: Global,
    keys: &Keys,
    book: &mut Asked,
    size: Size,
    kind: Kind,
    number: u64,
) -> Result<Answer> {
    let request = number.saturating_add(1);
    match kind {
        Kind::SettleAbove => {
            let serial = serial_at(size.rows.saturating_add(number));
            settle(clock, alloc, keys, book, node_of(size, serial), serial)
        }
        Kind::SettleAmong => {
            let serial = serial_at(spread(number, size, size.rows)).saturating_add(1);
            settle(clock, alloc, keys, book, node_of(size, serial), serial)
        }
        Kind::Get => {
            let segment = spread(number, size, size.segments).saturating_add(1);
            get(clock, alloc, book, request, segment)
        }
        Kind::Begin => {
            let request = request.saturating_add(size.calls);
            begin(clock, alloc, book, request)
        }
        Kind::Delete => {
            let segment = spread(number, size, size.segments).saturating_add(2);
            let request = request.saturating_add(size.calls.saturating_mul(2));
            delete(clock, alloc, book, request, segment)
        }
        Kind::SetFree => upkeep::set_free(clock, alloc, book, node_of(size, number), number),
        Kind::PlanAudit => upkeep::plan_audit(clock, alloc, book, number),
        Kind::PlanRepair => upkeep::plan_repair(clock, alloc, book, number),
        Kind::PlanExit => upkeep::plan_exit(clock, alloc, book, number),
        Kind::Recheck => upkeep::recheck(clock, book, Checked::Pass),
    }
}

/// How many nanoseconds it takes to read the order of this number alone.
pub(crate) fn read_alone(clock: &impl Clock, keys: &Keys, number: u64) -> Result<u128> {
    let bytes = order(keys, serial_at(number), NodeId(1));
    let start = Instant::now(clock)?;
    let read = read_order(keys, &bytes);
    let spent = start.elapsed(clock)?.as_nanos();
    if read.is_err() {
        bail!("an order isn't read");
    }
    Ok(spent)
}
