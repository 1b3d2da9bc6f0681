// The operator adds a customer.
ghost use Rattle.std.specs.Prelude.{IfOk};
ghost use Rattle.machine_step.specs.Bounds.{IsValid};
ghost use Rattle.machine_step.specs.Calls.AddCustomer.{add_customer};
ghost use Rattle.machine_store.specs.Prepared.{Holds};
ghost use Rattle.machine_store.specs.Store.{tables_of};

use crate::answers::caller_answer;
use machine_calls::{Asking, RecChange, TableName};
use machine_store::{Prepared, Store, done_with, table_full};
use sat_base::{Asked, Customer, CustomerId, Done, NoMemory};
use std::alloc::Global;

pub(crate) fn add_customer(
    alloc: Global,
    store: &Store,
    asking: &Asking,
) -> Result<Prepared, NoMemory>
    requires { IsValid (tables_of store.now) }
    ensures { IfOk result (λ p. Holds p (add_customer (tables_of store.now) asking.now)) }
{
    let asked = Asked::Customer;
    let answer = caller_answer(alloc, store, asking, &asked)?;
    if let Some(answer) = answer {
        return Ok(answer);
    }
    let count = store.customers.len();
    if count >= store.settings.caps.customers as usize {
        return Ok(table_full(alloc, TableName::Customers));
    }
    let id = CustomerId(count as u32 + 1);
    let put = Some(RecChange::Customer(Customer {
        id,
        added: asking.time,
    }));
    let done = Done::CustomerAdded { customer: id };
    done_with(alloc, store.marks_at(asking.time), put, asking, asked, done)
}
