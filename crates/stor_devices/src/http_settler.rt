// The satellite, over HTTP.
ghost use Rattle.std.specs.Prelude.{◌≡◌, None};

use crate::client_link::ClientLink;
use std::alloc::Global;
use std::marker::Model;
use std::net::Net;
use std::time::Clock;
use stor_base::{Offered, Settler};
use stor_wire::{Account, offer_over};

/// The satellite at a port of 127.0.0.1, to which orders are offered over HTTP, each over a connection of its own. Contracts see
/// the count of failed offers, up to 2^64 - 1.
///
/// `Failed` says that there was no connection, or no whole answer. To connect, each read and each write may take ten seconds, and
/// an offer thirty in all.
#[derive(Drop)]
pub struct HttpSettler<R: Clock + Net + Copy> {
    rt: R,
    account: Account,
    faults: u64,
}

impl<R: Clock + Net + Copy> Model for HttpSettler<R> {
    ghost use Rattle.std.specs.Prelude.{ℕ};

    ghost Value = { ℕ };

    ghost view = { λ s. s.faults };
}

impl<R: Clock + Net + Copy> HttpSettler<R> {
    /// The satellite of this account, no offer to which has failed. Nothing is asked of it yet.
    pub fn of(rt: R, account: Account) -> HttpSettler<R>
        ensures { result ≡ 0 }
    {
        HttpSettler {
            rt,
            account,
            faults: 0,
        }
    }

    /// How many offers have failed, up to 2^64 - 1.
    pub fn faults(&self) -> u64
        ensures { result ≡ self.now }
    {
        self.faults
    }

    // Offers an order over a new connection.
    fn exchange(&self, alloc: Global, order: &[u8; 123]) -> Offered {
        match ClientLink::connect(self.rt, self.account.port) {
            Ok(mut link) => offer_over(alloc, &mut link, &self.account, order),
            Err(_) => Offered::Failed,
        }
    }
}

impl<R: Clock + Net + Copy> Settler for HttpSettler<R> {
    ghost offers = { λ _. None };

    ghost faults = { λ s. s };

    fn offer(&mut self, alloc: Global, order: &[u8; 123]) -> Offered {
        let answer = self.exchange(alloc, order);
        if answer == Offered::Failed {
            self.faults = self.faults.saturating_add(1);
        }
        answer
    }
}
