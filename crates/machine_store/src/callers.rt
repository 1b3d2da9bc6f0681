// Who asks, under which number, and when.
ghost use Rattle.std.specs.Prelude.{◌≡◌};
ghost use Rattle.machine_step.specs.Step.{risen, asking};
ghost use Rattle.machine_store.specs.Store.{tables_of};

use crate::store::Store;
use machine_calls::Asking;
use sat_base::{CustomerId, Moment};

// The moment of a call: no earlier than that of an accepted one.
pub fn risen(store: &Store, now: Moment) -> Moment
    ensures { result ≡ risen (tables_of store.now) now }
{
    if store.marks.time.seconds() < now.seconds() {
        now
    } else {
        store.marks.time
    }
}

// Who asks, under which number, at the moment of the call.
pub fn asking(store: &Store, caller: CustomerId, number: u64, now: Moment) -> Asking
    ensures { result ≡ asking (tables_of store.now) caller number now }
{
    Asking {
        caller,
        number,
        time: risen(store, now),
    }
}
