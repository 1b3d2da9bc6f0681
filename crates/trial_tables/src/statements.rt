// Statements of worked closings, and the rates of months.
use crate::closings::{Case, cases};
use sat_base::{Month, NodeId, Rates, Tariff};
use std::process::Abort;
use tally_payout::{Statement, Sums, close_node, rates_in};

pub const MONTH: Month = Month(24314);

/// A statement of the node 1, by its age, gone, exited, its sums, the pot before and the rates.
pub fn closed(
    rt: &impl Abort,
    age: u32,
    (gone, exited): (bool, bool),
    [get, audit, repair, byte_hours]: [u128; 4],
    pot: u128,
    [get_rate, audit_rate, repair_rate, storage]: [u64; 4],
) -> Statement {
    assert!(rt; age >= 1 && !(gone && exited) && pot < 1 << 100);
    assert!(rt; get < 1 << 90 && audit < 1 << 90 && repair < 1 << 90 && byte_hours < 1 << 90);
    assert!(rt; get_rate <= 1_000_000_000 && audit_rate <= 1_000_000_000);
    assert!(rt; repair_rate <= 1_000_000_000 && storage <= 1_000_000_000);
    let sums = Sums {
        get,
        audit,
        repair,
        byte_hours,
    };
    let rates = Rates {
        get: get_rate,
        audit: audit_rate,
        repair: repair_rate,
        storage,
    };
    close_node(NodeId(1), MONTH, age, gone, exited, &sums, pot, &rates)
}

fn parts_of(s: &Statement) -> [u128; 5] {
    [
        s.parts.get,
        s.parts.audit,
        s.parts.repair,
        s.parts.storage,
        s.parts.gross,
    ]
}

fn rest_of(s: &Statement) -> [u128; 5] {
    [s.percent as u128, s.held, s.paid, s.returned, s.pot]
}

fn is_closed(rt: &impl Abort, case: &Case) -> bool {
    let s = closed(rt, case.age, case.marks, case.sums, case.pot, case.rates);
    parts_of(&s) == case.parts && rest_of(&s) == case.rest
}

#[test]
fn statements_of_months(rt: HostRuntime) {
    for case in cases() {
        assert!(rt; is_closed(&rt, case), "at age {}", case.age);
    }
}

// A tariff whose rates differ by that of downloads.
fn tariff(from: u32, get: u64) -> Tariff {
    Tariff {
        from: Month(from),
        rates: Rates {
            get,
            audit: 1,
            repair: 2,
            storage: 3,
        },
    }
}

// Months, and the rate of downloads in each.
static RATES: [(u32, u64); 7] = [
    (23999, 0),
    (24000, 10),
    (24199, 10),
    (24200, 20),
    (24299, 20),
    (24300, 30),
    (49775, 30),
];

#[test]
fn rates_of_months(rt: HostRuntime) {
    let tariffs = [tariff(24000, 10), tariff(24300, 30), tariff(24200, 20)];
    for (month, get) in &RATES {
        assert!(rt; rates_in(&tariffs, Month(*month)).get == *get, "in {month}");
    }
}
