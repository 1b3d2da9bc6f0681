// What a store is set up with, part by part.
ghost use Rattle.std.specs.Prelude.{◌≡◌, ◌≤◌, ◌++◌, length, refl};
ghost use Rattle.std.proofs.Common.{sym};
ghost use Rattle.sat_base.specs.Limits.{AreCapsWithin, AreRatesWithin};
ghost use Rattle.record_rows.specs.Settings.{scheme_bytes, caps_bytes, rates_bytes};
ghost use Rattle.record_rows.specs.Numbers.{be32};
ghost use Rattle.record_rows.specs.Laws.Apart.{four_first};
ghost use Rattle.record_rows.specs.Laws.Records.{scheme_apart, some_scheme, caps_apart, some_caps, rates_apart, some_rates};

use crate::coded::{Coded, Spelled, Unread};
use crate::made::{Made, take_made};
use sat_base::{Caps, NoMemory, Rates, Scheme};
use std::alloc::Global;

type SchemeNumbers = (u8, (u8, (u8, (u8, u16))));

impl Made for Scheme {
    type Fields = SchemeNumbers;

    ghost fields = { λ scheme. (scheme.k, (scheme.m, (scheme.o, (scheme.n, scheme.share)))) };

    ghost bytes_of = { λ scheme. scheme_bytes scheme.k scheme.m scheme.o scheme.n scheme.share };

    fn of(given: SchemeNumbers) -> Option<Self> {
        let (k, (m, (o, (n, share)))) = given;
        Scheme::check(k as u64, m as u64, o as u64, n as u64, share as u64).ok()
    }

    ghost spelled = { λ x. refl };
}

impl Spelled for Scheme {
    ghost spelling = { λ scheme. scheme_bytes scheme.k scheme.m scheme.o scheme.n scheme.share };

    fn put(&self, out: &mut Vec<u8>) -> Result<(), NoMemory> {
        (self.k, (self.m, (self.o, (self.n, self.share)))).put(out)
    }
}

impl Coded for Scheme {
    ghost fits = { λ _. Unit {0} };

    fn take(alloc: Global, bytes: &[u8]) -> Result<(Self, usize), Unread> {
        take_made(alloc, bytes)
    }

    ghost apart = { scheme_apart };

    ghost some = { some_scheme };
}

type SixCaps = ((u32, (u32, (u32, u32))), (u32, u32));

impl Made for Caps {
    type Fields = SixCaps;

    ghost fields = { λ caps.
        ((caps.nodes, (caps.customers, (caps.segments, caps.settled))), (caps.tallies, caps.statements)) };

    ghost bytes_of = { caps_bytes };

    ghost allows = { AreCapsWithin };

    fn of(given: SixCaps) -> Option<Self> {
        let (rows, (tallies, statements)) = given;
        let (nodes, (customers, (segments, settled))) = rows;
        let caps = Caps {
            nodes,
            customers,
            segments,
            settled,
            tallies,
            statements,
        };
        if caps.are_within() { Some(caps) } else { None }
    }

    ghost spelled = { λ caps. sym (four_first (be32 caps.nodes) (be32 caps.customers) (be32 caps.segments) (be32 caps.settled) _) };
}

impl Spelled for Caps {
    ghost spelling = { caps_bytes };

    fn put(&self, out: &mut Vec<u8>) -> Result<(), NoMemory> {
        let behind = (self.settled, (self.tallies, self.statements));
        (self.nodes, (self.customers, (self.segments, behind))).put(out)
    }
}

impl Coded for Caps {
    ghost fits = { AreCapsWithin };

    fn take(alloc: Global, bytes: &[u8]) -> Result<(Self, usize), Unread> {
        take_made(alloc, bytes)
    }

    ghost apart = { caps_apart };

    ghost some = { some_caps };
}

type FourRates = (u64, (u64, (u64, u64)));

impl Made for Rates {
    type Fields = FourRates;

    ghost fields = { λ rates. (rates.get, (rates.audit, (rates.repair, rates.storage))) };

    ghost bytes_of = { rates_bytes };

    ghost allows = { AreRatesWithin };

    fn of(given: FourRates) -> Option<Self> {
        let (get, (audit, (repair, storage))) = given;
        let rates = Rates {
            get,
            audit,
            repair,
            storage,
        };
        if rates.are_within() {
            Some(rates)
        } else {
            None
        }
    }

    ghost spelled = { λ x. refl };
}

impl Spelled for Rates {
    ghost spelling = { rates_bytes };

    fn put(&self, out: &mut Vec<u8>) -> Result<(), NoMemory> {
        (self.get, (self.audit, (self.repair, self.storage))).put(out)
    }
}

impl Coded for Rates {
    ghost fits = { AreRatesWithin };

    fn take(alloc: Global, bytes: &[u8]) -> Result<(Self, usize), Unread> {
        take_made(alloc, bytes)
    }

    ghost apart = { rates_apart };

    ghost some = { some_rates };
}
