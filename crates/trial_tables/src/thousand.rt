// A thousand statements of one node after another, from numbers that a linear congruential generator draws. Their
// check sum is the one that `.ci/pay` finds with Python's exact integers.
ghost use Rattle.std.specs.Prelude.{◌<◌, ◌^◌};

use crate::statements::closed;
use std::process::Abort;
use tally_payout::Statement;

const CHECK_SUM: u128 = 51370425196821028608433191528865612712;

// The next number, below 2^48.
fn draw(state: &mut u64) -> u64
    ensures { result < 2 ^ 48 }
{
    *state = state
        .wrapping_mul(6_364_136_223_846_793_005)
        .wrapping_add(1_442_695_040_888_963_407);
    *state >> 16
}

// A sum of up to 88 bits.
fn draw_sum(state: &mut u64) -> u128 {
    let high = draw(state) as u128;
    let low = draw(state) as u128;
    high * (1 << 40) + low
}

fn draw_rate(state: &mut u64) -> u64 {
    draw(state) % 1_000_000_001
}

fn draw_statement(rt: &impl Abort, state: &mut u64, pot: u128) -> Statement {
    let age = (draw(state) % 20) as u32 + 1;
    let marks = match draw(state) % 8 {
        0 => (true, false),
        1 => (false, true),
        _ => (false, false),
    };
    let get = draw_sum(state);
    let audit = draw_sum(state);
    let repair = draw_sum(state);
    let byte_hours = draw_sum(state);
    let get_rate = draw_rate(state);
    let audit_rate = draw_rate(state);
    let repair_rate = draw_rate(state);
    let storage = draw_rate(state);
    closed(
        rt,
        age,
        marks,
        [get, audit, repair, byte_hours],
        pot,
        [get_rate, audit_rate, repair_rate, storage],
    )
}

// The check sum with one statement more.
fn mixed(sum: u128, s: &Statement) -> u128 {
    let fields = [
        s.parts.get,
        s.parts.audit,
        s.parts.repair,
        s.parts.storage,
        s.parts.gross,
        s.percent as u128,
        s.held,
        s.paid,
        s.returned,
        s.pot,
    ];
    let mut sum = sum;
    for field in fields {
        sum = sum.wrapping_mul(1_000_003).wrapping_add(field);
    }
    sum
}

#[test]
fn a_thousand_statements(rt: HostRuntime) {
    let mut state = 1;
    let mut sum = 0;
    let mut pot = 0;
    for _ in 0..1000u32 {
        let statement = draw_statement(&rt, &mut state, pot);
        sum = mixed(sum, &statement);
        pot = statement.pot;
    }
    assert_eq!(rt; sum, CHECK_SUM);
}
