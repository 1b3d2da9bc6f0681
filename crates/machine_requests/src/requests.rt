// What comes of each request.
ghost use Rattle.std.specs.Prelude.{IfOk};
ghost use Rattle.machine_calls.specs.declared.call.Call.{Call};
ghost use Rattle.machine_step.specs.Bounds.{IsValid};
ghost use Rattle.machine_step.specs.Step.{case_of, IsWellFormed};
ghost use Rattle.machine_store.specs.Prepared.{Holds};
ghost use Rattle.machine_store.specs.Store.{tables_of, GoesByTables};

use crate::add_customer::add_customer;
use crate::add_node::add_node;
use crate::begin::begin;
use crate::close_month::close_month;
use crate::commit::commit;
use crate::delete::delete;
use crate::exit::exit;
use crate::get::get;
use crate::set_free::set_free;
use crate::set_rates::set_rates;
use crate::settle::settle;
use crate::statement::statement;
use machine_calls::{Reply, Wish};
use machine_store::{Prepared, Store, asking, risen, unchanged};
use sat_base::{CustomerId, Moment, NoMemory};
use std::alloc::Global;

// The caller of what the operator asks.
const OPERATOR: CustomerId = CustomerId(0);

/// The reply and the changes of a request at a moment, with its random words, where the machine isn't stopped. The tables stay
/// as they are. It fails only where memory runs out.
pub fn request_case(
    alloc: Global,
    store: &Store,
    now: Moment,
    words: &[u64],
    wish: &Wish,
) -> Result<Prepared, NoMemory>
    requires valid { IsValid (tables_of store.now) }
    requires own { GoesByTables store.now }
    requires formed { IsWellFormed (tables_of store.now) (Call.Asked now words.now wish.now) }
    ensures { IfOk result (λ p. Holds p (case_of (tables_of store.now) (Call.Asked now words.now wish.now))) }
{
    match wish {
        Wish::AddNode {
            request,
            addr,
            port,
            free,
        } => {
            let asking = asking(store, OPERATOR, *request, now);
            add_node(alloc, store, &asking, *addr, *port, *free)
        }
        Wish::AddCustomer { request } => {
            add_customer(alloc, store, &asking(store, OPERATOR, *request, now))
        }
        Wish::Begin {
            customer,
            request,
            len,
        } => {
            let asking = asking(store, *customer, *request, now);
            begin(alloc, store, &asking, *len, words)
        }
        Wish::Commit {
            customer,
            request,
            segment,
            indexes,
        } => {
            let asking = asking(store, *customer, *request, now);
            commit(alloc, store, &asking, *segment, indexes)
        }
        Wish::Get {
            customer,
            request,
            segment,
        } => {
            let asking = asking(store, *customer, *request, now);
            get(alloc, store, &asking, *segment)
        }
        Wish::Delete {
            customer,
            request,
            segment,
        } => {
            let asking = asking(store, *customer, *request, now);
            delete(alloc, store, &asking, *segment)
        }
        Wish::Settle { node, bytes } => {
            settle(alloc, store, risen(store, now), *node, bytes.as_slice())
        }
        Wish::SetFree { node, free } => set_free(alloc, store, risen(store, now), *node, *free),
        Wish::Statement { node, month } => Ok(statement(alloc, store, *node, *month)),
        Wish::CloseMonth { month } => close_month(alloc, store, risen(store, now), *month),
        Wish::SetRates { month, rates } => {
            set_rates(alloc, store, risen(store, now), *month, *rates)
        }
        Wish::Exit { node } => exit(alloc, store, risen(store, now), *node),
        Wish::Stop => Ok(unchanged(alloc, Reply::Stopping)),
    }
}
